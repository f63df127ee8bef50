// Doing the lines of a script (document 01, "The replay program"): the call that a line makes of the ring. It reads no text and prints
// none.
#![tactic(auto)]

pub mod play;
