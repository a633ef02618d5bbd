// The replay: a step takes it over the next record of a trace, and writes the lines that this prints into a lent buffer;
// then the same over a chunk of a trace, and over a whole one. Phases and the order of refusals are decided here; what a
// call answers is decided in its own crate, and so is what a line says.
#![tactic(auto)]

pub mod chunk;
pub mod record;
mod setup;
