// The controller as a whole: where it starts, and what happens to every leaf at once when shares change. The calls
// stand above this crate, each in a crate of its own; one leaf's books are the matter of the crate `leaf`.
#![tactic(auto)]

pub mod shares;
pub mod start;
pub mod weights;
