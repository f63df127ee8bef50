// The replay program (document 01): reads lines from standard input to its end, makes the call of each, and prints for each the answer
// and the counts. What is made of a part of the input and what is to be printed for it is proved in program.rt; here it is read and
// printed.
#![tactic(auto)]

mod program;
mod text;

use program::Program;
use std::io::{Read, Stdin};
use text::{Out, PART};

// Reads the input to its end, in parts. A proved loop has to end, and nothing says that the input does: so the loop counts its turns
// up to a number that no run reaches. A read that fails counts as the end, and a write that fails is let go: by the kit's io, since std's
// Stdout would try a write that a signal stops once more, and what the program does stays.
fn replay(input: &mut Stdin, program: &mut Program) {
    let mut text = [0u8; PART];
    let mut out = Out::new();
    for _ in 0..u64::MAX {
        let n = input.read(&mut text).unwrap_or(0);
        if n == 0 {
            program.finish(&mut out);
        } else {
            program.feed_all(&text[..n], &mut out);
        }
        io::write_all(1, out.as_bytes());
        if n == 0 || program.is_over() {
            return;
        }
    }
}

fn main(rt: HostRuntime) {
    let mut program = Program::start();
    replay(&mut rt.stdin(), &mut program);
}
