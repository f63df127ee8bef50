// A benchmark of whole uninterrupted events: an offer and its steps to the end, and a get and a put whenever a part is ready. It reads
// S, N, P, the producer, the payload's length and the number of events from standard input, so that none of them is a constant, and
// prints the counts and the sum of ring memory, so that no work can be left out. Time it from outside.
#![tactic(auto)]

ghost use Rattle.std.specs.Prelude.{◌≤◌};

use counts::count::Count;
use counts::position::Position;
use ring::state::Ring;

// The decimal number that a text begins with, and the text behind the character that ends it. Read by hand, a byte above the digits too:
// what the program makes of any input stays.
fn number(text: &[u8]) -> (u32, &[u8]) {
    let mut value: u32 = 0;
    for (i, &b) in text.iter().enumerate() {
        if b < b'0' {
            return (value, &text[i + 1..]);
        }
        value = value % 100000000 * 10 + ((b - b'0') % 10) as u32;
    }
    (value, &text[..0])
}

// One event: an offer, and steps until the producer is idle. Memory and desks are two slices for the reason at Ring::step.
fn event(ring: &mut Ring, p: u32, payload: &[u8], memory: &mut [u8], desks: &mut [u8]) {
    let i = p as usize;
    if 8 <= i || ring.offer(p, 7, payload, desks).is_err() {
        return;
    }
    for _ in 0..2000 {
        if ring.producer[i].is_idle() || ring.step(p, memory, desks).is_err() {
            return;
        }
    }
}

// Hands over a part, if one is ready: a put behind a get is not refused.
fn drain(ring: &mut Ring) {
    if ring.get().is_ok() {
        let _ = ring.put();
    }
}

// The sum of the bytes, modulo 2^64.
fn sum(memory: &[u8]) -> u64 {
    memory
        .iter()
        .fold(0u64, |total, &b| total.wrapping_add(u64::from(b)))
}

// By the kit's io, which stops where a write fails or a signal stops it: println! would try the latter once more, and what the program
// does stays.
fn print_line(n: u64) {
    io::print_decimal(1, n);
    io::write_all(1, b"\n");
}

// Runs the events and prints what came of them. Two slices, as in event.
fn run(ring: &mut Ring, p: u32, payload: &[u8], events: u32, memory: &mut [u8], desks: &mut [u8]) {
    for _ in 0..events {
        event(ring, p, payload, memory, desks);
        if ring.size < ring.write.since(ring.read) {
            drain(ring);
        }
    }
    print_line(u64::from(ring.offered));
    print_line(u64::from(ring.written));
    print_line(u64::from(ring.lost));
    print_line(sum(memory));
}

// The product of two numbers, or 0 where it is more than the given one: the ring then refuses each call, and what the program does stays.
fn product(a: u32, b: u32, most: usize) -> usize
    ensures { result ≤ most }
{
    let n = (a as usize) * (b as usize);
    if n <= most { n } else { 0 }
}

fn main() {
    let mut text = io::buffer();
    let n = io::read_full(0, &mut text);
    let (size, rest) = number(&text[..n]);
    let (parts, rest) = number(rest);
    let (producers, rest) = number(rest);
    let (p, rest) = number(rest);
    let (length, rest) = number(rest);
    let (events, _) = number(rest);
    let Ok(mut ring) = Ring::fresh(size, parts, producers, Position(0)) else {
        return;
    };
    // No heap: the most that a ring asks for, of which run gets what this one does.
    let mut memory = io::large_buffer();
    let mut desks = io::large_buffer();
    let payload = io::buffer();
    let b = product(size, parts, 65536);
    let d = product(producers, size, 65536);
    let l = product(length, 1, 4096);
    run(
        &mut ring,
        p,
        &payload[..l],
        events,
        &mut memory[..b],
        &mut desks[..d],
    );
}
