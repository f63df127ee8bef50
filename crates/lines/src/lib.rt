// The lines of the replay program (document 01, "The replay program"): what a line asks for, and reading one byte by byte. It knows no
// ring.
#![tactic(auto)]

pub mod line;
pub mod reading;
pub mod word;
