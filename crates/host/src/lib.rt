// What every program does with its host: its arguments, bytes to and from what is open, what is said to a person, and the mark
// that a script makes an exit status of. Nothing here knows what a program is about.
#![tactic(auto)]

pub mod arguments;
pub mod descriptor;
pub mod failure;
pub mod report;
pub mod said;
