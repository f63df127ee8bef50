// The arithmetic of document 01 on counts that run on through zero: positions and commit counts, the allowed S, N and P,
// where a slot goes, and the tests full, ready and raise. It knows no byte and no producer.
//
// Every function answers for every argument, by document 01's formulas as they stand. x mod 0 is x and x / 0 is 0, as in the
// arithmetic of the definitions; no ring call gets so far with such a size (refusal 1).
#![tactic(auto)]

pub mod commit;
pub mod count;
pub mod divide;
pub mod lap;
pub mod place;
pub mod position;
pub mod shape;
