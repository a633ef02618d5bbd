// Two traces compared record by record, numbered from 0. One step looks at a place in each; the answer goes from step to
// step, from the beginning of both to where one has no record any more. It is told of errors first, so no answer speaks of a
// part of a trace. Nothing is copied and nothing is written: both traces are lent, and what is handed back is a part of one.
#![tactic(auto)]

pub mod answer;
pub mod both;
pub mod one;

use rules::refusals::Refusal;
pub use trace::decoder::Whole;

#[derive(Clone, Copy)]
pub enum Side {
    First,
    Second,
}

// One of each side.
#[derive(Clone, Copy)]
pub struct Sides<T> {
    pub first: T,
    pub second: T,
}

// The first record that differs, with the kinds on both sides.
// Kept (point 1): kinds as numbers, since `text::put_difference` prints any two bytes.
#[derive(Clone, Copy)]
pub struct Difference {
    pub number: usize,
    pub first: u8,
    pub second: u8,
}

// Which trace ends first, or neither, and after how many records.
#[derive(Clone, Copy)]
pub struct Ends {
    pub side: Option<Side>,
    pub records: usize,
}

#[derive(Clone, Copy)]
pub enum Likeness {
    Equal,
    Prefix,
    Different,
}

// Which trace has an error, which one, and where the record begins that has it.
#[derive(Clone, Copy)]
pub struct Error {
    pub side: Side,
    pub refusal: Refusal,
    pub place: usize,
}

// What is told of two traces without errors.
#[derive(Clone, Copy)]
pub struct Comparison {
    pub difference: Option<Difference>,
    pub ends: Ends,
    pub likeness: Likeness,
}

// A whole record of each trace, and whether both are the same.
#[derive(Clone, Copy)]
pub struct Pair {
    pub first: Whole,
    pub second: Whole,
    pub same: bool,
}

// What stands at a place of each trace: two records, or none any more in one or both, and which then ends first.
#[derive(Clone, Copy)]
pub enum Step {
    Pair(Pair),
    Over(Option<Side>),
}

// How far a walk over both has come: how many records are passed, the places behind them, and whether all that was passed is
// the same.
#[derive(Clone, Copy)]
pub struct Reach {
    pub number: usize,
    pub first: usize,
    pub second: usize,
    pub alike: bool,
}

// A walk over both: how far it has come, and the first difference from the number asked on.
#[derive(Clone, Copy)]
pub struct Walk {
    pub reach: Reach,
    pub difference: Option<Difference>,
}
