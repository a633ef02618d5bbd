// Records of a trace and the lines of a comparison as text, at the front of a buffer that the caller lends: each function
// writes one, leaves the rest of the buffer as it was, and answers how many bytes it wrote. What a line says is decided above.
// Kept (point 4): a Display of `Record` or of a comparison's types would stand in their crates, and write through fmt::Write.
// Kept (point 5): the pages name these functions with a lent buffer, a count and room for the longest, by `Written` of the
// rules.
#![tactic(auto)]

ghost use Rattle.std.specs.Prelude.{◌≡◌, ◌++◌, ◌+◌, ◌≤◌, ◌<◌, length};
ghost use Rattle.rules.specs.Buffers.{Written};
ghost use Rattle.text.specs.Text.{worded, worded_room, record_text, text_room};
ghost use Rattle.text.specs.Lines.{word_line, side_word, differs_line, ends_line, rest_line, likeness_line, error_line, difference_line, rest_length_line, short_room, differs_room};

use comparison::{Difference, Ends, Likeness, Side};
use lines::number_of;
use rules::refusals::Refusal;
use rules::trace::Record;

// A word and its numbers, where there is room for any numbers.
#[tactic(auto, using(crate::proofs::Room::numbers_room))]
fn put_worded(word: &[u8], numbers: &[u64], out: &mut [u8]) -> usize
    requires { worded_room word.now numbers.now ≤ length out.old }
    ensures { Written (worded word.now numbers.now) result out.old out.new × (result ≤ worded_room word.now numbers.now) }
{
    lines::put_worded(word, numbers, out)
}

// A record's name and its numbers, in the order of its layout.
#[tactic(auto, unfolding(crate::specs::Text::name_of, rules::specs::Trace::fields_of))]
pub fn put_record(r: Record, out: &mut [u8]) -> usize
    requires { text_room ≤ length out.old }
    ensures { Written (record_text r) result out.old out.new × (result ≤ text_room) }
{
    match r {
        Record::Node(parent, weight) => put_worded(
            b"node",
            &[u64::from(parent), u64::from(weight)],
            out,
        ),
        Record::Model(m) => put_worded(
            b"model",
            &[
                m.rbps,
                m.rseqiops,
                m.rrandiops,
                m.wbps,
                m.wseqiops,
                m.wrandiops,
            ],
            out,
        ),
        Record::Start(time) => put_worded(b"start", &[time], out),
        Record::Bio(b) => put_worded(
            b"bio",
            &[
                u64::from(b.node),
                u64::from(b.flags),
                u64::from(b.id),
                b.sector,
                u64::from(b.bytes),
            ],
            out,
        ),
        Record::Tick(time) => put_worded(b"tick", &[time], out),
        Record::Plan => put_worded(b"plan", &[], out),
        Record::Vrate(percent) => put_worded(b"vrate", &[u64::from(percent)], out),
        Record::Weight(node, weight) => put_worded(
            b"weight",
            &[u64::from(node), u64::from(weight)],
            out,
        ),
    }
}

// And as a line.
#[tactic(auto, using(crate::proofs::Room::numbers_room))]
fn put_line(word: &[u8], numbers: &[u64], out: &mut [u8]) -> usize
    requires { worded_room word.now numbers.now < length out.old }
    ensures { Written (word_line word.now numbers.now) result out.old out.new × (result ≤ worded_room word.now numbers.now + 1) }
{
    lines::put_line(word, numbers, out)
}

// A word before a record.
// Kept (point 2): a word goes to the front by one line, here, in `put_sided` and in `lines::put_worded`; a function for that
// line would have a contract as long as theirs.
fn put_before(word: &[u8], r: Record, out: &mut [u8]) -> usize
    requires { length word.now + text_room ≤ length out.old }
    ensures { Written (word.now ++ record_text r) result out.old out.new × (result ≤ length word.now + text_room) }
{
    let at = word.len();
    out[..at].copy_from_slice(word);
    at + put_record(r, &mut out[at..])
}

// A side, or neither.
fn side_word(side: Option<Side>) -> &'static [u8]
    ensures { (result.now ≡ side_word side) × (length result.now ≤ 7) }
{
    match side {
        Some(Side::First) => b"first",
        Some(Side::Second) => b"second",
        None => b"neither",
    }
}

// A line that says a side between its word and its numbers.
fn put_sided(word: &[u8], side: Option<Side>, numbers: &[u64], out: &mut [u8]) -> usize
    requires { worded_room word.now numbers.now + 7 < length out.old }
    ensures { Written (word_line (word.now ++ side_word side) numbers.now) result out.old out.new × (result ≤ worded_room word.now numbers.now + 8) }
{
    let at = word.len();
    out[..at].copy_from_slice(word);
    at + put_line(side_word(side), numbers, &mut out[at..])
}

// A record that differs: its number, the place where it begins in each trace, and what each has there.
pub fn put_differs(
    number: u64,
    first: u64,
    second: u64,
    r: Record,
    s: Record,
    out: &mut [u8],
) -> usize
    requires { differs_room ≤ length out.old }
    ensures { Written (differs_line number first second r s) result out.old out.new × (result ≤ differs_room) }
{
    let mut at = put_worded(b"differs", &[number, first, second], out);
    at += put_before(b" ", r, &mut out[at..]);
    at += put_before(b" | ", s, &mut out[at..]);
    out[at] = b'\n';
    at + 1
}

// Which trace ends first, or neither, and after how many records; nothing where that is not told.
#[tactic(auto, unfolding(crate::specs::Lines::ends_line))]
pub fn put_ends(ends: Option<Ends>, out: &mut [u8]) -> usize
    requires { short_room ≤ length out.old }
    ensures { Written (ends_line ends) result out.old out.new × (result ≤ short_room) }
{
    match ends {
        Some(ends) => put_sided(b"ends ", ends.side, &[ends.records as u64], out),
        None => 0,
    }
}

// The rest: of which trace, and how many bytes.
#[tactic(auto, unfolding(crate::specs::Lines::rest_line))]
pub fn put_rest(side: Side, bytes: u64, out: &mut [u8]) -> usize
    requires { short_room ≤ length out.old }
    ensures { Written (rest_line side bytes) result out.old out.new × (result ≤ short_room) }
{
    put_sided(b"rest ", Some(side), &[bytes], out)
}

// How alike two traces are; nothing where that is not told.
#[tactic(auto, unfolding(crate::specs::Lines::likeness_line))]
pub fn put_likeness(likeness: Option<Likeness>, out: &mut [u8]) -> usize
    requires { short_room ≤ length out.old }
    ensures { Written (likeness_line likeness) result out.old out.new × (result ≤ short_room) }
{
    match likeness {
        Some(Likeness::Equal) => put_line(b"equal", &[], out),
        Some(Likeness::Prefix) => put_line(b"prefix", &[], out),
        Some(Likeness::Different) => put_line(b"different", &[], out),
        None => 0,
    }
}

// The error of a trace: its number, and the place where the record begins that has it.
#[tactic(auto, unfolding(crate::specs::Lines::error_line))]
pub fn put_error(side: Side, x: Refusal, place: u64, out: &mut [u8]) -> usize
    requires { short_room ≤ length out.old }
    ensures { Written (error_line side x place) result out.old out.new × (result ≤ short_room) }
{
    put_sided(b"error ", Some(side), &[number_of(x), place], out)
}

// The first record that differs, with the kinds on both sides.
#[tactic(auto, unfolding(crate::specs::Lines::difference_line))]
pub fn put_difference(difference: Option<Difference>, out: &mut [u8]) -> usize
    requires { short_room ≤ length out.old }
    ensures { Written (difference_line difference) result out.old out.new × (result ≤ short_room) }
{
    match difference {
        Some(d) => put_line(
            b"difference",
            &[d.number as u64, u64::from(d.first), u64::from(d.second)],
            out,
        ),
        None => put_line(b"difference none", &[], out),
    }
}

// How many bytes the rest has.
pub fn put_rest_length(bytes: u64, out: &mut [u8]) -> usize
    requires { short_room ≤ length out.old }
    ensures { Written (rest_length_line bytes) result out.old out.new × (result ≤ short_room) }
{
    put_line(b"rest", &[bytes], out)
}
