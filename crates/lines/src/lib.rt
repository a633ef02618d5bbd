// The lines of the replay, as bytes at the front of a buffer that the caller lends: each function writes one kind of
// line, leaves the rest of the buffer as it was, and answers how many bytes it wrote. What a line says is decided above.
// Kept (point 4): Display would write through std's fmt::Write, which may answer an error; with room, as here, there is none.
// Kept (point 5): the pages name these functions with a lent buffer and a count, by `Written` of the rules; each asks for the
// room that its own lines take, and a writer that holds the buffer would ask for it too.
// Kept (point 6): the buffer is the caller's, with no heap: what stands at its front is a count, as in `Written`.
#![tactic(auto)]

ghost use Rattle.std.specs.Prelude.{◌≡◌, [], ◌∷◌, ◌++◌, ◌+◌, ◌*◌, ◌≤◌, ◌<◌, length};
ghost use Rattle.rules.specs.Numbers.{refusal_room, id_room, share_room, shares_room};
ghost use Rattle.rules.specs.Refusals.{fault_number, fault_node, number};
ghost use Rattle.rules.specs.Replay.{digits, numbers as numbers_of, line, refusal_line, answer_line, release_lines, verdict_lines, leaf_line, share_lines_of};
ghost use Rattle.rules.specs.Buffers.{Written};

use rules::refusals::{Answer, Refusal};
use rules::tree::Fault;
use sets::has;

// The number of each fault of a tree.
// Kept (points 1 and 4): cases that carry a node's number have none of their own to cast, and a `From` for u64 would be this
// match again, without the word `fault_number` by which the pages and the rules know it.
fn fault_number(f: Fault) -> u64
    ensures { result ≡ fault_number f }
{
    match f {
        Fault::Count => 20,
        Fault::Parent(_) => 21,
        Fault::Weight(_) => 22,
        Fault::Level(_) => 23,
    }
}

// The node that it names.
// Kept (point 1): "20 names node 0" (request Two), and `fault_node` of the rules says so: none of them names no node.
fn fault_node(f: Fault) -> usize
    ensures { result ≡ fault_node f }
{
    match f {
        Fault::Count => 0,
        Fault::Parent(n) | Fault::Weight(n) | Fault::Level(n) => n,
    }
}

// The number of each refusal in the documents.
pub fn number_of(x: Refusal) -> u64
    ensures { result ≡ number x }
{
    match x {
        Refusal::BadTree(f) => fault_number(f),
        Refusal::ThinTree => 2,
        Refusal::BadRate => 3,
        Refusal::NoLeaf => 4,
        Refusal::BadBio => 5,
        Refusal::TooDear => 6,
        Refusal::QueueFull => 7,
        Refusal::DebtFull => 8,
        Refusal::TimeBack => 9,
        Refusal::TimeFar => 10,
        Refusal::ClockFull => 11,
        Refusal::PlanDue => 12,
        Refusal::FewPlaces => 13,
        Refusal::NothingPassed => 14,
        Refusal::BadVrate => 15,
        Refusal::UnknownKind => 16,
        Refusal::CutShort => 17,
        Refusal::WrongPhase => 18,
        Refusal::NotBelowRoot => 19,
        Refusal::ShortBuffer => 28,
    }
}

// Decimal digits without leading zeros: those of a hundredth, then the last two.
pub fn put_digits(n: u64, out: &mut [u8]) -> usize
    requires { length (digits n) ≤ length out.old }
    ensures { Written (digits n) result out.old out.new }
{
    if n < 10 {
        out[0] = (48 + n) as u8;
        return 1;
    }
    let tenth = n / 10;
    if n < 100 {
        out[0] = (48 + tenth) as u8;
        out[1] = (48 + n % 10) as u8;
        return 2;
    }
    let at = put_digits(tenth / 10, out);
    out[at] = (48 + tenth % 10) as u8;
    out[at + 1] = (48 + n % 10) as u8;
    at + 2
}

// A blank and a number.
fn put_number(n: u64, out: &mut [u8]) -> usize
    requires { length (digits n) < length out.old }
    ensures { Written (32 ∷ digits n) result out.old out.new }
{
    out[0] = b' ';
    1 + put_digits(n, &mut out[1..])
}

// Each number behind a blank.
pub fn put_numbers(numbers: &[u64], out: &mut [u8]) -> usize
    requires { length (numbers_of numbers.now) ≤ length out.old }
    ensures { Written (numbers_of numbers.now) result out.old out.new }
{
    let mut at: usize = 0;
    for n in numbers {
        at += put_number(*n, &mut out[at..]);
    }
    at
}

// A word and its numbers.
pub fn put_worded(word: &[u8], numbers: &[u64], out: &mut [u8]) -> usize
    requires { length word.now + length (numbers_of numbers.now) ≤ length out.old }
    ensures { Written (word.now ++ numbers_of numbers.now) result out.old out.new }
{
    let at = word.len();
    out[..at].copy_from_slice(word);
    at + put_numbers(numbers, &mut out[at..])
}

// And as a line.
pub fn put_line(word: &[u8], numbers: &[u64], out: &mut [u8]) -> usize
    requires { length word.now + length (numbers_of numbers.now) < length out.old }
    ensures { Written (word.now ++ numbers_of numbers.now ++ (10 ∷ [])) result out.old out.new }
{
    let at = put_worded(word, numbers, out);
    out[at] = b'\n';
    at + 1
}

// I, W, D or r, and an id: at most 13 bytes.
// Kept (point 1): the letter is the byte that is written, as in `line` of the rules; an enum of letters would be turned into
// it.
fn put_id(letter: u8, id: u32, out: &mut [u8]) -> usize
    requires { id_room ≤ length out.old }
    ensures { Written (line letter (id ∷ [])) result out.old out.new × (result ≤ id_room) }
{
    put_line(&[letter], &[u64::from(id)], out)
}

// P, an active leaf and its share, at most 16 bytes; nothing of an inactive leaf.
fn put_leaf(active: u64, n: usize, share: u32, out: &mut [u8]) -> usize
    requires { (n < 64) × (share_room ≤ length out.old) }
    ensures { Written (leaf_line active n share) result out.old out.new × (result ≤ share_room) }
{
    if has(active, n) {
        return put_line(b"P", &[n as u64, u64::from(share)], out);
    }
    0
}

// R and the refusal's number, and of a fault of the tree its node: at most 26 bytes.
pub fn put_refusal(x: Refusal, out: &mut [u8]) -> usize
    requires { refusal_room ≤ length out.old }
    ensures { Written (refusal_line x) result out.old out.new }
{
    match x {
        Refusal::BadTree(f) => put_line(b"R", &[fault_number(f), fault_node(f) as u64], out),
        _ => put_line(b"R", &[number_of(x)], out),
    }
}

// What a submission prints.
// Kept (point 2): a function over any Result would take a closure that writes into `out`, and say less than these two arms.
#[tactic(auto, unfolding(rules::specs::Replay::answer_line))]
pub fn put_answer(answer: Result<Answer, Refusal>, id: u32, out: &mut [u8]) -> usize
    requires { refusal_room ≤ length out.old }
    ensures { Written (answer_line answer id) result out.old out.new }
{
    match answer {
        Ok(Answer::Issued) => put_id(b'I', id, out),
        Ok(Answer::Waits) => put_id(b'W', id, out),
        Ok(Answer::OnDebt) => put_id(b'D', id, out),
        Err(x) => put_refusal(x, out),
    }
}

// What a call prints that answers a verdict alone: nothing, if it was accepted.
#[tactic(auto, unfolding(rules::specs::Replay::verdict_lines))]
pub fn put_verdict(verdict: Result<(), Refusal>, out: &mut [u8]) -> usize
    requires { refusal_room ≤ length out.old }
    ensures { Written (verdict_lines verdict) result out.old out.new }
{
    match verdict {
        Ok(()) => 0,
        Err(x) => put_refusal(x, out),
    }
}

// Ids in the order of their release.
pub fn put_releases(ids: &[u32], out: &mut [u8]) -> usize
    requires { 13 * length ids.now ≤ length out.old }
    ensures { Written (release_lines ids.now) result out.old out.new }
{
    let mut at: usize = 0;
    for id in ids {
        at += put_id(b'r', *id, &mut out[at..]);
    }
    at
}

// What a plan prints: each active leaf with its share, by rising number. 63 lines of 16 bytes fit in 1,008.
// Kept (point 2): as `put_releases` line behind line; a loop for both would be lent a closure that writes, of which the
// contract could not say which bytes (`Written`).
pub fn put_shares(active: u64, shares: &[u32; 64], out: &mut [u8]) -> usize
    requires { shares_room ≤ length out.old }
    ensures { Written (share_lines_of active shares.now) result out.old out.new }
{
    let mut at: usize = 0;
    // Kept (point 3): n is the number of a node, asked of the set and printed; enumerate would begin at the root.
    for n in 1..shares.len() {
        at += put_leaf(active, n, shares[n], &mut out[at..]);
    }
    at
}
