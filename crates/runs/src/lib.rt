// Runs: one producer's steps, taken one by one until it is idle.
#![tactic(auto)]

pub mod run;
