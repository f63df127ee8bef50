// Doing a line: the state of the program, and what a line makes of it, of ring memory and of the desks.
ghost use Rattle.std.specs.Prelude.{[], ◌≡◌, ◌*◌, Some, min, replicate};
ghost use Rattle.ring.specs.Told.{told};
ghost use Rattle.script.specs.Play.{answer_of, memory_of, desks_of, start_play, last_of, begun_by, kept_of, ended_of, resumed_of};
ghost use Rattle.script.specs.Play.{done_of, done_memory, done_desks};

use counts::position::Position;
use lines::line::Line;
use ring::refusal::Refusal;
use ring::state::Ring;

// How far the program has come.
#[derive(Clone, Copy, Debug, PartialEq, Eq)]
pub enum Play {
    // No line was done.
    Waiting,
    // A ring was made: its state, and what the last line's call was answered.
    Going {
        ring: Ring,
        answer: Result<(), Refusal>,
    },
    // A bad line has ended the program. What stood before it stays: of a ring that was made, its state and what was answered last.
    Over {
        last: Option<(Ring, Result<(), Refusal>)>,
    },
}

// How many bytes of a buffer are lent: a times b, or all of them where it has fewer.
fn lent(a: u32, b: u32, most: usize) -> usize
    ensures { result ≡ min (a * b) most }
{
    ((a as usize) * (b as usize)).min(most)
}

// The longest payload of a kind: 65,536 bytes equal to it.
fn payload_of(kind: u8) -> [u8; 65536]
    ensures { result ≡ replicate 65536 kind }
{
    [kind; 65536]
}

// Makes the call of a line, with as much memory as the ring asks for. A new makes another ring; where it is refused, the old one stays.
// Memory and desks are two slices for the reason at Ring::step, and longer than what is lent of them, since there is no heap.
// A match on the line's own variants: closures would be no plainer.
#[tactic(auto, unfolding(crate::specs::Play::answer_of, crate::specs::Play::memory_of, crate::specs::Play::desks_of))]
fn call(ring: &mut Ring, line: Line, memory: &mut [u8], desks: &mut [u8]) -> Result<(), Refusal>
    ensures value { told result ring.new ≡ kept_of ring.old (answer_of ring.old line memory.old desks.old) }
    ensures memory_after { memory.new ≡ memory_of ring.old line memory.old desks.old }
    ensures desks_after { desks.new ≡ desks_of ring.old line desks.old }
{
    let b = lent(ring.size, ring.parts, memory.len());
    let d = lent(ring.producers, ring.size, desks.len());
    let memory = &mut memory[..b];
    let desks = &mut desks[..d];
    match line {
        Line::New(size, parts, producers, start) => {
            *ring = Ring::fresh(size, parts, producers, Position(start))?;
            Ok(())
        }
        Line::Offer(p, kind, n) => {
            let payload = payload_of(kind);
            ring.offer(p, kind, &payload[..n as usize], desks)
        }
        Line::Flush(p) => ring.flush(p),
        Line::Step(p) => ring.step(p, memory, desks),
        Line::Run(p) => runs::run::run(ring, p, memory, desks),
        Line::Get => ring.get(),
        Line::Put => ring.put(),
    }
}

// The ring that the first line makes: it must be a new that is accepted.
#[tactic(auto, unfolding(crate::specs::Play::done_of))]
fn first(line: Line) -> Option<Ring>
    ensures { begun_by result ≡ done_of Play.Waiting (Some line) [] [] }
{
    match line {
        Line::New(size, parts, producers, start) => {
            Ring::fresh(size, parts, producers, Position(start)).ok()
        }
        _ => None,
    }
}

impl Play {
    // Before the first line.
    pub fn start() -> Play
        ensures { result ≡ start_play }
    {
        Play::Waiting
    }

    // The ring that was made, and what its last line's call was answered.
    fn last(&self) -> Option<(Ring, Result<(), Refusal>)>
        ensures { result ≡ last_of self.now }
    {
        match *self {
            Play::Waiting => None,
            Play::Going { ring, answer } => Some((ring, answer)),
            Play::Over { last } => last,
        }
    }

    // A bad line ends the program, and what stood before it stays.
    fn end(&mut self)
        ensures { self.new ≡ ended_of self.old }
    {
        *self = Play::Over { last: self.last() };
    }

    // A play that a bad line ended goes on from what stood; any other is left as it is.
    fn resume(&mut self)
        ensures { self.new ≡ resumed_of self.old }
    {
        if let Play::Over { last } = *self {
            *self = match last {
                Some((ring, answer)) => Play::Going { ring, answer },
                None => Play::Waiting,
            };
        }
    }

    // Does a line. The first one must be a new that is accepted; a bad line, which is none, ends the program. A line given even then is done
    // on what stood, as if no bad one had come; a refused call does not end it. Two slices, as in call.
    #[tactic(auto, unfolding(crate::specs::Play::done_of, crate::specs::Play::done_memory, crate::specs::Play::done_desks), using(crate::specs::PlayLaws::play_called, crate::specs::PlayLaws::done_begun, crate::proofs::FirstLaws::first_line))]
    pub fn does(&mut self, line: Option<Line>, memory: &mut [u8], desks: &mut [u8])
        ensures value { self.new ≡ done_of self.old line memory.old desks.old }
        ensures memory_after { memory.new ≡ done_memory self.old line memory.old desks.old }
        ensures desks_after { desks.new ≡ done_desks self.old line desks.old }
    {
        let Some(line) = line else {
            self.end();
            return;
        };
        self.resume();
        if let Play::Going { ring, answer } = self {
            *answer = call(ring, line, memory, desks);
        } else if let Some(ring) = first(line) {
            *self = Play::Going {
                ring,
                answer: Ok(()),
            };
        } else {
            self.end();
        }
    }
}
