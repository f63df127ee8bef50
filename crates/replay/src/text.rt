// What a line prints: six numbers, or that the line is bad.
ghost use Rattle.std.specs.Prelude.{[], ◌∷◌, ◌++◌, ◌≡◌, ◌+◌, ◌≤◌, ◌<◌};
ghost use Rattle.arrayvec.specs.ArrayString.{array_string_len};
ghost use Rattle.replay.specs.Text.{decimal_of, end_of, joined, numbers_told, told_of};
ghost use Rattle.replay.specs.declared.text.TheConstants.{NUMBER, LINE, ROOM};

use arrayvec::ArrayString;
use ring::refusal::Refusal;
use ring::state::Ring;
use script::play::Play;

// A number prints 11 bytes at most: ten digits, and the byte that ends it.
pub(crate) const NUMBER: usize = 11;

// A line prints six numbers at most.
pub(crate) const LINE: usize = 6 * NUMBER;

// How many bytes of the input are read at a time.
pub(crate) const PART: usize = 990;

// What they print at most: each of them may end a line.
pub(crate) const ROOM: usize = PART * LINE;

// What is to be printed.
pub(crate) type Out = ArrayString<ROOM>;

// What room is left stands in the contracts here: push_str asks for it, and no type knows how many lines are to come.

// A number in decimal and the byte that ends it.
fn put_number(out: &mut Out, n: u32, end: char)
    requires room { array_string_len out.old + NUMBER ≤ ROOM }
    requires ascii { end < 128 }
    ensures upper_bound { array_string_len out.new ≤ array_string_len out.old + NUMBER }
    ensures out_after { out.new.bytes ≡ out.old.bytes ++ (decimal_of n ++ (end ∷ [])) }
{
    let mut digits = itoa::Buffer::new();
    out.push_str(digits.format(n));
    out.push(end);
}

// The byte that ends the number at place i: a space, or a line feed behind the last one.
fn end_of(i: usize) -> char
    ensures { result ≡ end_of i }
{
    if i == 5 { '\n' } else { ' ' }
}

// Six numbers, one space between two of them, and a line feed.
fn put_numbers(out: &mut Out, numbers: [u32; 6])
    requires { array_string_len out.old + LINE ≤ ROOM }
    ensures upper_bound { array_string_len out.new ≤ array_string_len out.old + LINE }
    ensures out_after { out.new.bytes ≡ out.old.bytes ++ joined 0 numbers }
{
    for (i, &n) in numbers.iter().enumerate() {
        put_number(out, n, end_of(i));
    }
}

// The numbers that a line prints: answer, write, read, offered, written, lost.
fn numbers(ring: &Ring, answer: Result<(), Refusal>) -> [u32; 6]
    ensures { result ≡ numbers_told (Play.Going ring.now answer) }
{
    [
        answer.err().map_or(0, u32::from),
        ring.write.0,
        ring.read.0,
        ring.offered,
        ring.written,
        ring.lost,
    ]
}

// Puts what the last line prints behind what is there.
#[tactic(auto, unfolding(crate::specs::Text::told_of))]
pub(crate) fn tell(play: &Play, out: &mut Out)
    requires { array_string_len out.old + LINE ≤ ROOM }
    ensures upper_bound { array_string_len out.new ≤ array_string_len out.old + LINE }
    ensures out_after { out.new.bytes ≡ out.old.bytes ++ told_of play.now }
{
    match play {
        Play::Waiting => put_numbers(out, [0; 6]),
        Play::Going { ring, answer } => put_numbers(out, numbers(ring, *answer)),
        Play::Over { .. } => out.push_str("bad line\n"),
    }
}
