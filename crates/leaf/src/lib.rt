// One leaf's row and queue by value: what a submission decides and changes there, a leaf's turn in a tick, and what a
// plan does to its row. A share comes in as a number and released ids go out into a lent buffer; nothing here knows of
// another leaf, of the tree or of the clock.
#![tactic(auto)]

pub mod plan;
mod queue;
pub mod row;
pub mod submission;
pub mod tick;
