// The calls of the ring. S, N and P, and ring memory and desks, cross one by one, as C has them.
ghost use Rattle.std.specs.Prelude.{◌≡◌, length};
ghost use Rattle.counts.specs.Position.{position};
ghost use Rattle.ring.specs.Calls.{fresh_of, offer_of, offer_bytes, flush_of, step_of, step_bytes, get_of, put_of, span_of, ready_count_of};
ghost use Rattle.runs.specs.Run.{run_of, run_bytes};

use counts::position::Position;
use ring::reader::Span;
use ring::state::{Answer, Ring};

// A ring of S, N and P whose counts start at the given position.
#[unsafe(no_mangle)]
pub extern "C" fn waxbramble_fresh(size: u32, parts: u32, producers: u32, start: u32) -> Answer
    ensures { result ≡ fresh_of size parts producers (position start) }
{
    Answer::made(Ring::fresh(size, parts, producers, Position(start)))
}

// The event goes to the producer's desk.
#[unsafe(no_mangle)]
pub extern "C" fn waxbramble_offer(
    r: Ring,
    p: u32,
    kind: u8,
    payload: &[u8],
    desks: &mut [u8],
) -> Answer
    ensures value { result ≡ offer_of r p (length payload.now) (length desks.old) }
    ensures desks_after { desks.new ≡ offer_bytes r p kind payload.now desks.old }
{
    r.after_offer(p, kind, payload, desks)
}

// A flush of the newest sub-buffer.
#[unsafe(no_mangle)]
pub extern "C" fn waxbramble_flush(r: Ring, p: u32) -> Answer
    ensures { result ≡ flush_of r p }
{
    r.after_flush(p)
}

// One step of producer p.
#[unsafe(no_mangle)]
pub extern "C" fn waxbramble_step(r: Ring, p: u32, ring: &mut [u8], desks: &[u8]) -> Answer
    ensures value { result ≡ step_of r p (length ring.old) (length desks.now) }
    ensures ring_after { ring.new ≡ step_bytes r p ring.old desks.now }
{
    r.after_step(p, ring, desks)
}

// Steps of producer p until it is idle.
#[unsafe(no_mangle)]
pub extern "C" fn waxbramble_run(mut r: Ring, p: u32, ring: &mut [u8], desks: &[u8]) -> Answer
    ensures value { result ≡ run_of r p ring.old desks.now }
    ensures ring_after { ring.new ≡ run_bytes r p ring.old desks.now }
{
    Answer::of(runs::run::run(&mut r, p, ring, desks), r)
}

// Holds the sub-buffer at the read count.
#[unsafe(no_mangle)]
pub extern "C" fn waxbramble_get(r: Ring) -> Answer
    ensures { result ≡ get_of r }
{
    r.after_get()
}

// Moves the read count on, and holds nothing.
#[unsafe(no_mangle)]
pub extern "C" fn waxbramble_put(r: Ring) -> Answer
    ensures { result ≡ put_of r }
{
    r.after_put()
}

// Where the held sub-buffer stands in ring memory of the given length: from start to end, 0 to 0 if nothing is held.
#[unsafe(no_mangle)]
pub extern "C" fn waxbramble_held(r: Ring, len: usize) -> Span
    ensures { result ≡ span_of r len }
{
    r.span(len)
}

// How many sub-buffers are ready one after the other.
#[unsafe(no_mangle)]
pub extern "C" fn waxbramble_ready_count(r: Ring) -> u32
    ensures { result ≡ ready_count_of r }
{
    r.ready_count()
}
