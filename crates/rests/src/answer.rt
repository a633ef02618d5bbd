// The answer as lines: what is proved is which bytes stand at the front of the line buffer, for two traces and a number, and
// for a record, and that the records of the rest are followed to its end unless a write fails. No contract can say which bytes
// a write takes: that the lines are written in this order is for a person to read, in the last two functions.
ghost use Rattle.std.specs.Prelude.{◌≡◌, ◌+◌, ◌*◌, ◌≤◌, ◌<◌, length, IfOk, Ok};
ghost use Rattle.rules.specs.Buffers.{Written};
ghost use Rattle.comparison.specs.Compare.{error_in};
ghost use Rattle.text.specs.Text.{text_room};
ghost use Rattle.text.specs.Lines.{short_room};
ghost use Rattle.rests.specs.Answer.{told_lines, found_lines, answer_lines, record_line};

use comparison::answer::{compare, rest};
use comparison::{Comparison, Error, Side};
use host::descriptor::write;
use rules::trace::Record;
use std::io;
use std::io::Write;
use text::{put_difference, put_ends, put_error, put_likeness, put_record, put_rest_length};
use trace::decoder::read_at;

// The first difference, who ends first, and how alike the traces are.
// Kept (point 4): lines are not printed by `write!`, since the contracts say which bytes stand at the front of the buffer
// (`Written`), and each line's function in `text` is proved to write its own.
// Kept (point 6): the lines are the front of an array with their count, since the project has no heap.
#[tactic(auto, using(rules::proofs::Laws::Buffers::stands_more), unfolding(crate::specs::Answer::told_lines))]
fn put_told(c: Comparison, out: &mut [u8]) -> usize
    requires { 3 * short_room ≤ length out.old }
    ensures { Written (told_lines c) result out.old out.new × (result ≤ 3 * short_room) }
{
    let one = put_difference(c.difference, out);
    let two = one + put_ends(Some(c.ends), &mut out[one..]);
    let three = put_likeness(Some(c.likeness), &mut out[two..]);
    two + three
}

// An error stands in the place of all three.
#[tactic(auto, unfolding(crate::specs::Answer::found_lines))]
fn put_found(told: Result<Comparison, Error>, out: &mut [u8]) -> usize
    requires { 3 * short_room ≤ length out.old }
    ensures { Written (found_lines told) result out.old out.new × (result ≤ 3 * short_room) }
{
    match told {
        Ok(c) => put_told(c, out),
        Err(e) => put_error(e.side, e.refusal, e.place as u64, out),
    }
}

// What was found, and how many bytes the rest has.
fn put_answer<'a>(first: &'a [u8], second: &'a [u8], from: usize, out: &mut [u8]) -> usize
    requires { 4 * short_room ≤ length out.old }
    ensures { Written (answer_lines first.now second.now from) result out.old out.new × (result ≤ 4 * short_room) }
{
    let bytes = rest(first, second).len();
    let found = put_found(compare(first, second, from), out);
    let last = put_rest_length(bytes as u64, &mut out[found..]);
    found + last
}

#[tactic(auto, using(rules::proofs::Laws::Buffers::stands_byte))]
fn put_line(r: Record, out: &mut [u8]) -> usize
    requires { text_room < length out.old }
    ensures { Written (record_line r) result out.old out.new × (result ≤ text_room + 1) }
{
    let at = put_record(r, out);
    out[at] = b'\n';
    at + 1
}

// Each record, from the first on. Where all are written it answers the place where they end.
fn tell_records<W: Write>(to: &mut W, records: &[u8], out: &mut [u8]) -> io::Result<usize>
    requires { (error_in Side.First records.now ≡ Ok tt) × (text_room < length out.old) }
    ensures { IfOk result (λ place. place ≡ length records.now) }
{
    let mut at: usize = 0;
    loop {
        match read_at(records, at) {
            Ok(Some(found)) => {
                let count = put_line(found.item, out);
                write(to, &out[..count])?;
                at = found.next;
            }
            Ok(None) | Err(_) => return Ok(at),
        }
    }
}

// The answer, and then each record of the rest.
#[tactic(auto, using(crate::specs::Rest::the_rest_has_no_error))]
pub(crate) fn tell<'a, W: Write>(
    to: &mut W,
    first: &'a [u8],
    second: &'a [u8],
    from: usize,
) -> io::Result<()> {
    let mut out = [0u8; 4096];
    let count = put_answer(first, second, from, &mut out);
    write(to, &out[..count])?;
    tell_records(to, rest(first, second), &mut out)?;
    Ok(())
}
