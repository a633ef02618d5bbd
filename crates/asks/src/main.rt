// Asks before each submission of a generated run, and says how often each answer came, and how often question and submission
// differed. For the benchmark, a word asks for nothing but questions or nothing but submissions, one after the other.
#![tactic(auto)]

mod draws;
mod often;
mod run;
mod states;
mod tally;

use std::env::{Env, FillError};

fn usage(rt: &impl Eprint) {
    let _ = eprintln!(rt; "usage: asks [issued|owing|submissions]");
}

fn made(rt: &impl Print, what: &str, times: u64, last: u64) {
    let _ = println!(rt; "{what}: {times}, the last at sector {last}");
}

// Kept (point 7): a word names what is measured, and each of the three has a state and a number of its own.
fn measured(rt: &(impl Print + Eprint), word: &[u8]) {
    match word {
        b"issued" => made(rt, "issued", often::QUESTIONS, often::issued()),
        b"owing" => made(rt, "owing", often::QUESTIONS, often::owing()),
        b"submissions" => made(rt, "submissions", often::SUBMISSIONS, often::submissions()),
        _ => usage(rt),
    }
}

// Is there no word at this place?
fn is_past(rt: &impl Env, place: usize) -> bool {
    let mut first = [0u8; 1];
    matches!(rt.arg(place, &mut first), Err(FillError::NotPresent))
}

fn main(rt: HostRuntime) {
    if is_past(&rt, 1) {
        let _ = print!(rt; "{}", run::counts());
        return;
    }
    // Kept (point 6): the word stands at the front of fixed places, since no program here has a heap.
    let mut word = [0u8; 4096];
    match rt.arg(1, &mut word) {
        Ok(length) if is_past(&rt, 2) => measured(&rt, &word[..length]),
        _ => usage(&rt),
    }
}
