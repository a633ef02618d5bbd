// Compares the two traces that its first two arguments name, from the record number of its third on, and prints the answer and
// each record of the rest, as the library hands them back. Both traces are held whole. What goes wrong is one line on standard
// error. The program only moves bytes: what differs is decided in `comparison`, and what a line says in `text`.
#![tactic(auto)]

mod answer;
mod number;
mod said;
mod whole;

use host::arguments::{count, word};
use number::decimal;
use whole::hold;

// Its own name is the first word of a command.
const WORDS: usize = 4;

// The record number that is asked, from 0 on.
fn asked(rt: &HostRuntime, place: usize) -> Option<u64> {
    let speaker = said::speaker(rt);
    let mut buf = [0u8; 4096];
    let digits = word(rt, place, &mut buf)
        .map_err(|why| said::argument_unread(speaker, why))
        .ok()?;
    let number = decimal(digits);
    if number.is_none() {
        said::no_number(speaker, digits);
    }
    number
}

// The answer for two traces of so many bytes.
fn compared(rt: &HostRuntime, first: &[u8], second: &[u8], from: u64) {
    if let Err(why) = answer::tell(&mut rt.stdout(), first, second, from as usize) {
        said::speaker(rt).output_unwritten(why);
    }
}

// Nothing is printed unless both traces are held.
fn with_both(rt: &HostRuntime, from: u64) {
    let mut first = [0u8; 65536];
    let mut second = [0u8; 65536];
    if let Some(one) = hold(rt, 1, &mut first)
        && let Some(two) = hold(rt, 2, &mut second)
    {
        compared(rt, one, two, from);
    }
}

fn main(rt: HostRuntime) {
    if count(&rt) != WORDS {
        said::not_three(said::speaker(&rt));
        return;
    }
    if let Some(from) = asked(&rt, 3) {
        with_both(&rt, from);
    }
}
