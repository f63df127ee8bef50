// The functions of `counts`, on plain numbers, under names of their own for each type: C has no methods. A `Position` or a `Commit` crosses
// as the u32 that it holds, a lap as S and N.
ghost use Rattle.std.specs.Prelude.{◌%◌, ◌/◌, ◌≡◌};
ghost use Rattle.counts.specs.Commit.{commit, on_of, past_of, raises_of, ready_of, round_of};
ghost use Rattle.counts.specs.Place.{place_of, full_of};
ghost use Rattle.counts.specs.Position.{position, plus_of, since_of, offset_of, start_of, left_of, next_of, byte_of, part_of, to_commit_of};
ghost use Rattle.counts.specs.Shape.{size_of, parts_of, producers_of, shape_of};

use counts::commit::Commit;
use counts::count::Count;
use counts::lap::Lap;
use counts::place::Place;
use counts::position::Position;

#[unsafe(no_mangle)]
pub extern "C" fn counts_position_plus(x: u32, n: u32) -> Position
    ensures { result ≡ plus_of (position x) n }
{
    Position(x).plus(n)
}

#[unsafe(no_mangle)]
pub extern "C" fn counts_position_since(x: u32, y: u32) -> u32
    ensures { result ≡ since_of (position x) (position y) }
{
    Position(x).since(Position(y))
}

#[unsafe(no_mangle)]
pub extern "C" fn counts_offset(x: u32, size: u32) -> u32
    ensures { result ≡ offset_of (position x) size }
{
    Position(x).offset(size)
}

#[unsafe(no_mangle)]
pub extern "C" fn counts_start(x: u32, size: u32) -> Position
    ensures { result ≡ start_of (position x) size }
{
    Position(x).start(size)
}

#[unsafe(no_mangle)]
pub extern "C" fn counts_left(x: u32, size: u32) -> u32
    ensures { result ≡ left_of (position x) size }
{
    Position(x).left(size)
}

#[unsafe(no_mangle)]
pub extern "C" fn counts_next(x: u32, size: u32) -> Position
    ensures { result ≡ next_of (position x) size }
{
    Position(x).next(size)
}

#[unsafe(no_mangle)]
pub extern "C" fn counts_remainder(x: u64, s: u64) -> u64
    ensures { result ≡ x % s }
{
    counts::divide::remainder(x, s)
}

#[unsafe(no_mangle)]
pub extern "C" fn counts_quotient(x: u64, s: u64) -> u64
    ensures { result ≡ x / s }
{
    counts::divide::quotient(x, s)
}

#[unsafe(no_mangle)]
pub extern "C" fn counts_shape_allowed(s: u32, n: u32, p: u32) -> bool
    ensures { result ≡ shape_of s n p }
{
    counts::shape::shape_allowed(s, n, p)
}

#[unsafe(no_mangle)]
pub extern "C" fn counts_commit_plus(x: u32, n: u32) -> Commit
    ensures { result ≡ on_of (commit x) n }
{
    Commit(x).plus(n)
}

#[unsafe(no_mangle)]
pub extern "C" fn counts_commit_since(x: u32, y: u32) -> u32
    ensures { result ≡ past_of (commit x) (commit y) }
{
    Commit(x).since(Commit(y))
}

#[unsafe(no_mangle)]
pub extern "C" fn counts_size_allowed(s: u32) -> bool
    ensures { result ≡ size_of s }
{
    counts::shape::size_allowed(s)
}

#[unsafe(no_mangle)]
pub extern "C" fn counts_parts_allowed(n: u32) -> bool
    ensures { result ≡ parts_of n }
{
    counts::shape::parts_allowed(n)
}

#[unsafe(no_mangle)]
pub extern "C" fn counts_producers_allowed(p: u32) -> bool
    ensures { result ≡ producers_of p }
{
    counts::shape::producers_allowed(p)
}

#[unsafe(no_mangle)]
pub extern "C" fn counts_place(w: u32, z: u32, size: u32, header: u32) -> Place
    ensures { result ≡ place_of (position w) z size header }
{
    Place::of(Position(w), z, size, header)
}

#[unsafe(no_mangle)]
pub extern "C" fn counts_byte(x: u32, size: u32, parts: u32) -> usize
    ensures { result ≡ byte_of (position x) size parts }
{
    Position(x).byte(Lap { size, parts })
}

#[unsafe(no_mangle)]
pub extern "C" fn counts_part(x: u32, size: u32, parts: u32) -> usize
    ensures { result ≡ part_of (position x) size parts }
{
    Position(x).part(Lap { size, parts })
}

#[unsafe(no_mangle)]
pub extern "C" fn counts_full(p: Place, read: u32, size: u32, parts: u32) -> bool
    ensures { result ≡ full_of p (position read) size parts }
{
    p.full(Position(read), Lap { size, parts })
}

#[unsafe(no_mangle)]
pub extern "C" fn counts_to_commit(r: u32, size: u32, parts: u32) -> Commit
    ensures { result ≡ to_commit_of (position r) size parts }
{
    Position(r).to_commit(Lap { size, parts })
}

#[unsafe(no_mangle)]
pub extern "C" fn counts_ready(r: u32, seq: u32, size: u32, parts: u32) -> bool
    ensures { result ≡ ready_of (position r) (commit seq) size parts }
{
    Commit(seq).ready(Position(r), Lap { size, parts })
}

#[unsafe(no_mangle)]
pub extern "C" fn counts_round(x: u32, size: u32) -> bool
    ensures { result ≡ round_of (commit x) size }
{
    Commit(x).round(size)
}

#[unsafe(no_mangle)]
pub extern "C" fn counts_raises(v: u32, s: u32) -> bool
    ensures { result ≡ raises_of (commit v) (commit s) }
{
    Commit(v).raises(Commit(s))
}
