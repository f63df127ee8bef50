// The worked bytes of document 01 ("The replay program"): one record of kind 1 by producer 0 with two bytes of payload, laid out at
// position 0 with no loss in a sub-buffer of 64 bytes. Prints the bytes up to the used size, and what the decoder answers of them.
#![tactic(auto)]

use counts::position::Position;

// Prints the bytes of a slice in hexadecimal, each followed by a space, and a line end. By the kit's io, which stops where a write fails or
// a signal stops it: println! would try the latter once more, and what the program does stays.
fn print_bytes(s: &[u8]) {
    for &b in s {
        io::print_hex(1, u64::from(b), 2);
        io::write_all(1, b" ");
    }
    io::write_all(1, b"\n");
}

fn print_word(word: &[u8], n: u64) {
    io::write_all(1, word);
    io::print_decimal(1, n);
}

fn print_decoded(part: &[u8]) {
    match parts::part::decode(part) {
        Ok(decoded) => {
            print_word(b"position ", u64::from(decoded.position.0));
            print_word(b" lost ", u64::from(decoded.lost));
            print_word(b" used ", u64::from(decoded.used));
            print_word(b" records ", decoded.records as u64);
        }
        Err(why) => print_word(b"refused ", u64::from(u32::from(why))),
    }
    io::write_all(1, b"\n");
}

fn main() {
    let mut desk = [0u8; 64];
    layout::record::lay_record(&mut desk, b"\x01\x01", 1, 0);
    let mut part = [255u8; 64];
    parts::part::lay_out(&desk[..6], Position(0), 0, &mut part).unwrap();
    print_bytes(&part[..22]);
    print_decoded(&part);
    print_bytes(parts::part::run(&part));
}
