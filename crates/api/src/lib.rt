// The calls of the ring, and the decoder and laying out of parts, as exported C functions, with the contracts of the methods that they
// call. waxbramble.h declares them for C. The state goes in and comes back by value; a slice is a pointer and then a length.
#![tactic(auto)]

pub mod part_calls;
pub mod ring_calls;
