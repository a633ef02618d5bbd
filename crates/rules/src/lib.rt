// The rules of the recorder's IO budget. Here are the named types and the constructor of the controller; what a call
// must answer is in specs/, one file for each section of document 01, and why those rules hold together is in specs/Laws.
// Beside them this crate has no code: the crates above it do the work and prove that they follow these rules.
#![tactic(auto)]

pub mod budget;
pub mod cost;
pub mod refusals;
pub mod replay;
pub mod trace;
pub mod tree;
pub mod units;
