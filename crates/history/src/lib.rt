// What is promised of every history (demand 3). The crate has no code: what it says is in specs/.
#![tactic(auto)]
