// The program on bytes: what it makes of its input, byte by byte, and what it prints.
ghost use Rattle.std.specs.Prelude.{[], ◌≡◌, ◌*◌, ◌≤◌, if◌then◌else◌, length};
ghost use Rattle.replay.specs.Program.{lined_of, fed_of, said_of, fed_all, said_all, last_said, start_program};
ghost use Rattle.script.specs.Play.{over};
ghost use Rattle.replay.specs.Text.{told_of};
ghost use Rattle.replay.specs.declared.text.TheConstants.{LINE, ROOM};

use super::text::{Out, tell};
use lines::reading::Reading;
use script::play::Play;

// The most that a ring asks for: S-as-N bytes of ring memory, P-as-S bytes of desks.
const MEMORY: usize = 65536;

const DESKS: usize = 32768;

// The line that is being read, the ring and what was answered last, and the buffers for ring memory and desks: the most that a ring asks
// for, since there is no heap.
#[derive(Clone, Copy, Debug, PartialEq, Eq)]
pub struct Program {
    pub reading: Reading,
    pub play: Play,
    pub memory: [u8; MEMORY],
    pub desks: [u8; DESKS],
}

impl Program {
    // Before the first byte. Ring memory and desks begin as zeros.
    pub fn start() -> Program
        ensures { result ≡ start_program }
    {
        Program {
            reading: Reading::start(),
            play: Play::start(),
            memory: [0; MEMORY],
            desks: [0; DESKS],
        }
    }

    // Whether a bad line has ended the program.
    pub(crate) fn is_over(&self) -> bool
        ensures { result ≡ over self.now.play }
    {
        matches!(self.play, Play::Over { .. })
    }

    // Does the line that was read.
    #[tactic(auto, unfolding(crate::specs::Program::lined_of))]
    fn line(&mut self)
        ensures { self.new ≡ lined_of self.old }
    {
        let line = self.reading.line();
        self.play.does(line, &mut self.memory, &mut self.desks);
        self.reading = Reading::start();
    }

    // The next byte of the input, and whether it ended a line, which prints its answer then. After a bad line nothing is done.
    #[tactic(auto, unfolding(crate::specs::Program::fed_of, crate::specs::Program::said_of))]
    fn feed(&mut self, b: u8) -> bool
        ensures program_after { self.new ≡ fed_of self.old b }
        ensures printed { said_of self.old b ≡ if result then told_of self.new.play else [] }
    {
        if self.is_over() {
            return false;
        }
        if b != b'\n' {
            self.reading = self.reading.take(b);
            return false;
        }
        self.line();
        true
    }

    // A part of the input: does what each byte asks for, and fills out with what is to be printed, for which text.rt says what room it wants.
    #[tactic(auto, using(crate::specs::ProgramLaws::byte_by_byte))]
    pub(crate) fn feed_all(&mut self, text: &[u8], out: &mut Out)
        requires { LINE * length text.now ≤ ROOM }
        ensures program_after { self.new ≡ fed_all self.old text.now }
        ensures out_after { out.new.bytes ≡ said_all self.old text.now }
    {
        out.clear();
        for &b in text {
            if self.feed(b) {
                tell(&self.play, out);
            }
        }
    }

    // The end of the input: a last line without a line feed counts.
    #[tactic(auto, unfolding(crate::specs::Program::last_said))]
    pub(crate) fn finish(&mut self, out: &mut Out)
        ensures { out.new.bytes ≡ last_said self.old }
    {
        out.clear();
        if !self.is_over() && !self.reading.is_empty() {
            self.line();
            tell(&self.play, out);
        }
    }
}
