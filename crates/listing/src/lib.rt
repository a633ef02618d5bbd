// The lines of a comparison: one for each record that differs, and three that close it, at the front of a buffer that the
// caller lends. A caller that can hold only parts of two long traces lends those, with the places at which they begin, and goes
// on with others where these end. What a line says is decided below, and which bytes are held above.
// Kept (point 4): no Display and no `write!`, as in `lines`: a buffer with room gives every line without an error.
// Kept (point 5): the room is asked of the lent buffer, as in `text`: the buffer is the caller's, who writes out its front.
#![tactic(auto)]

ghost use Rattle.std.specs.Prelude.{◌≡◌, Ok, ◌≤◌, length};
ghost use Rattle.rules.specs.Buffers.{Written};
ghost use Rattle.comparison.specs.Compare.{step_at};
ghost use Rattle.text.specs.Lines.{differs_room, short_room};
ghost use Rattle.rules.proofs.Laws.Trace.{record_at};
ghost use Rattle.listing.specs.Listing.{WholeHere, Holds, line_by, Lists, rest_line_by, closing_by, closing_room};

use comparison::answer::{ends_by, likeness_by, longer_of};
use comparison::both::step;
use comparison::{Error, Pair, Reach, Side, Sides, Step};
use rules::trace::Record;
use text::{put_differs, put_ends, put_likeness, put_rest};
use trace::decoder;
use trace::kind::Kind;

// What a line takes at the most.
const ROOM: usize = 337;

// How far they came, and how many bytes of lines were written.
#[derive(Clone, Copy)]
pub struct Listed {
    pub reach: Reach,
    pub count: usize,
}

// The whole record at a place.
#[tactic(auto, unfolding(rules::specs::Trace::behind))]
fn record_in(part: &[u8], at: usize, kind: Kind) -> Record
    requires { WholeHere part.now at kind }
    ensures { result ≡ record_at part.now at }
{
    decoder::record_at(part, at + 1, kind)
}

// What a pair prints: the line of two records that differ, and nothing where they are the same.
#[tactic(auto, unfolding(crate::specs::Listing::line_by, crate::specs::Listing::differs_at))]
fn put_pair(
    begins: Sides<u64>,
    here: &[u8],
    there: &[u8],
    r: Reach,
    pair: Pair,
    out: &mut [u8],
) -> usize
    requires held { Holds begins here.now there.now r }
    requires stands { step_at here.now r.first there.now r.second ≡ Ok (Step.Pair pair) }
    requires room { differs_room ≤ length out.old }
    ensures { Written (line_by begins here.now there.now (Ok (Step.Pair pair)) r) result out.old out.new × (result ≤ differs_room) }
{
    if pair.same {
        return 0;
    }
    put_differs(
        r.number as u64,
        begins.first + r.first as u64,
        begins.second + r.second as u64,
        record_in(here, r.first, pair.first.kind),
        record_in(there, r.second, pair.second.kind),
        out,
    )
}

// The lines of two parts of traces that are held, which begin at these places of them, from where the lines have come on: for
// as long as both parts have a whole record and there is room for a line.
// Kept (point 5): docs/entries.md names `list` and what it is lent, and it hands parts, places and reach to one function alone.
pub fn list(begins: Sides<u64>, here: &[u8], there: &[u8], from: Reach, out: &mut [u8]) -> Listed
    requires { Holds begins here.now there.now from }
    ensures { Lists begins here.now there.now from result out.old out.new }
{
    // Kept (point 2): this loop and that of comparison's `walk` share the step and `Reach::past`. The walk looks for a
    // difference and this one for room, so one loop for both would be lent what to do with a pair, and its contract would say
    // less.
    let mut reach = from;
    // Kept (point 6): nothing here is on a heap: the lines fill a buffer that is lent, as far as `count`.
    let mut count = 0;
    loop {
        match step(here, reach.first, there, reach.second) {
            Ok(Step::Pair(pair)) => {
                if out.len() - count < ROOM {
                    return Listed { reach, count };
                }
                count += put_pair(begins, here, there, reach, pair, &mut out[count..]);
                reach = reach.past(pair);
            }
            Ok(Step::Over(_)) => return Listed { reach, count },
            Err(_) => return Listed { reach, count },
        }
    }
}

// The rest of the longer trace, where the other is a prefix of it; in every other case the empty rest of the first.
#[tactic(auto, unfolding(crate::specs::Listing::rest_line_by))]
fn put_rest_of(longer: Option<Side>, left: Sides<u64>, out: &mut [u8]) -> usize
    requires { short_room ≤ length out.old }
    ensures { Written (rest_line_by longer left.first left.second) result out.old out.new × (result ≤ short_room) }
{
    match longer {
        Some(Side::First) => put_rest(Side::First, left.first, out),
        Some(Side::Second) => put_rest(Side::Second, left.second, out),
        None => put_rest(Side::First, 0, out),
    }
}

// The lines behind the last pair, where so many bytes of each trace are left behind it.
#[tactic(auto, using(rules::proofs::Laws::Buffers::stands_more), unfolding(crate::specs::Listing::closing_lines))]
pub fn close(s: Result<Step, Error>, r: Reach, left: Sides<u64>, out: &mut [u8]) -> usize
    requires { closing_room ≤ length out.old }
    ensures { Written (closing_by s r.number r.alike left.first left.second) result out.old out.new × (result ≤ closing_room) }
{
    let ends = ends_by(s, r.number);
    let likeness = likeness_by(s, r.alike);
    let one = put_ends(ends, out);
    let two = one + put_rest_of(longer_of(likeness, ends), left, &mut out[one..]);
    two + put_likeness(likeness, &mut out[two..])
}
