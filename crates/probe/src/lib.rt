// The calls of the crates below as exported C functions, for the comparison with the second implementation (oracle/) alone: no
// product code stands on this crate. Each has the contract of the function that it calls.
#![tactic(auto)]

pub mod counts_calls;
pub mod layout_calls;
