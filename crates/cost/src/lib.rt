// Cost of a bio: six rates are priced once, with all the quotients that this takes; from then on a bio's cost is a few
// tests, one product and one sum. This crate knows nothing of trees, shares or budgets: of a leaf it reads where its last
// bio ended that was no flush. Tests are joined by `&`: each is cheaper than a branch.
#![tactic(auto)]

pub mod bio;
pub mod pricing;

pub use crate::bio::{cost_of, end_of, is_flush, is_forced};
pub use crate::pricing::price;

const PAGE_BYTES: u64 = 4096;
