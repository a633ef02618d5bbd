// The second walk: both sides together, part by part, and the lines of the records that differ. All lines of a round are
// written before more is read.
//
// What is proved of each round (`specs/Rounds`): which lines stand at the front of the line buffer, that the walk goes on only
// where the writes took as many bytes as these lines have, and where it then stands. No contract can say which bytes a write
// takes or a read brings.
ghost use Rattle.std.specs.Prelude.{◌≡◌, ◌^◌, ◌≤◌, ◌<◌, length};
ghost use Rattle.rules.specs.Buffers.{Written};
ghost use Rattle.listing.specs.Listing.{closing_room};
ghost use Rattle.compare.specs.Rounds.{Stands, begins_of, reach_of, places_of, passed_by, step_held, Told, Onward, OneRound, Fresh, is_unchanged, closing_held, Closes};

use crate::Failure;
use crate::side::Held;
use crate::watch::Watch;
use comparison::answer::likeness_by;
use comparison::both::{is_pair, step};
use comparison::{Error, Likeness, Reach, Side, Sides, Step};
use host::descriptor::{TRIES, write};
use listing::{Listed, close, list};
use std::io::Write;
use std::os::unix::fs::FileExt;

// Where a walk stands: what is held of each side, how many pairs are passed, whether all of them were the same, and how many
// bytes the writes of the last round took.
#[derive(Clone, Copy)]
pub(crate) struct Standing {
    pub first: Held,
    pub second: Held,
    pub number: usize,
    pub alike: bool,
    pub put: usize,
}

impl Standing {
    // Nothing is read yet.
    fn fresh() -> Standing
        ensures { Fresh result }
    {
        Standing {
            first: Held::default(),
            second: Held::default(),
            number: 0,
            alike: true,
            put: 0,
        }
    }

    // Where the parts that are held begin in their traces.
    fn begins(&self) -> Sides<u64>
        ensures { result ≡ begins_of self.now }
    {
        Sides {
            first: self.first.base as u64,
            second: self.second.base as u64,
        }
    }

    fn reach(&self) -> Reach
        ensures { result ≡ reach_of self.now }
    {
        Reach {
            number: self.number,
            first: self.first.place,
            second: self.second.place,
            alike: self.alike,
        }
    }

    // Where each side is in its trace.
    fn places(&self) -> Sides<usize>
        requires { ((places_of self.now).first < 2 ^ 64) × ((places_of self.now).second < 2 ^ 64) }
        ensures { result ≡ places_of self.now }
    {
        Sides {
            first: self.first.at(),
            second: self.second.at(),
        }
    }

    // The pairs up to here are passed.
    fn pass(&mut self, r: Reach)
        ensures { self.new ≡ passed_by r self.old }
    {
        self.first.place = r.first;
        self.second.place = r.second;
        self.number = r.number;
        self.alike = r.alike;
    }

    // How many bytes this walk has read so far.
    fn read(&self) -> u64 {
        (self.first.base as u64).wrapping_add(self.second.base as u64)
    }
}

// The lines of what is held.
fn told(s: &Standing, a: &[u8], b: &[u8], out: &mut [u8]) -> Listed
    requires { Stands s.now (length a.now) (length b.now) }
    ensures { Told s.now a.now b.now result out.old out.new }
{
    let here = &a[..s.first.filled];
    let there = &b[..s.second.filled];
    list(s.begins(), here, there, s.reach(), out)
}

// What stands at both places.
fn step_at(s: &Standing, a: &[u8], b: &[u8]) -> Result<Step, Error>
    requires { Stands s.now (length a.now) (length b.now) }
    ensures { result ≡ step_held s.now a.now b.now }
{
    let here = &a[..s.first.filled];
    let there = &b[..s.second.filled];
    step(here, s.first.place, there, s.second.place)
}

// Kept (point 7): the side that wants bytes decides what is held, which file and which buffer go on, so a closure for each
// would be no plainer.
// More of a side whose next record is not whole; where both have one there was no room for a line, and elsewhere the walk is
// over. Is it?
#[tactic(auto, using(crate::proofs::Walk::first_stays, crate::proofs::Walk::second_stays))]
fn onward<F: FileExt>(
    s: &mut Standing,
    files: Sides<&F>,
    a: &mut [u8],
    b: &mut [u8],
) -> Result<bool, Failure>
    requires { Stands s.old (length a.old) (length b.old) }
    ensures { Onward s.old a.old b.old result s.new a.new b.new }
{
    if s.first.wants(a) {
        s.first
            .refill(files.first, a)
            .map_err(|why| Failure::Unread(Side::First, why))?;
        return Ok(false);
    }
    if s.second.wants(b) {
        s.second
            .refill(files.second, b)
            .map_err(|why| Failure::Unread(Side::Second, why))?;
        return Ok(false);
    }
    Ok(!is_pair(step_at(s, a, b)))
}

// One round: the lines of what is held are written, and more is read. Is the walk over then?
// Kept (point 5): the buffers stay parameters, so `Stands` is asked of a walk with its two, since the clauses speak of each by
// itself, before and after, and a struct of borrowed slices would have to be lent anew at each call.
fn round<F: FileExt, W: Write>(
    s: &mut Standing,
    watch: Watch,
    files: Sides<&F>,
    to: &mut W,
    a: &mut [u8],
    b: &mut [u8],
    out: &mut [u8],
) -> Result<bool, Failure>
    requires { Stands s.old (length a.old) (length b.old) }
    ensures { OneRound s.old a.old b.old (length out.old) result s.new a.new b.new }
{
    // Kept (point 6): the lines are the front of an array with their count, since the project has no heap.
    let listed = told(s, a, b, out);
    let count = listed.count;
    watch.clear_before(count, s.read());
    let put = write(to, &out[..count]);
    s.pass(listed.reach);
    s.put = put.map_err(|short| Failure::Unwritten(short.why))?;
    onward(s, files, a, b)
}

// Round by round, up to the end of the walk.
// Kept (point 2): this loop, that of the other walk and that of `replay` were tried as one that is lent the round as a closure.
// What a round requires of what the closure holds, and what holds of it behind the loop, didn't close.
fn run<F: FileExt, W: Write>(
    s: &mut Standing,
    watch: Watch,
    files: Sides<&F>,
    to: &mut W,
    a: &mut [u8],
    b: &mut [u8],
    out: &mut [u8],
) -> Result<(), Failure>
    requires { Stands s.old (length a.old) (length b.old) }
    ensures { Stands s.new (length a.new) (length b.new) }
{
    for _ in 0..TRIES {
        let over = round(s, watch, files, to, a, b, out);
        watch.show(s.read());
        if over? {
            return Ok(());
        }
    }
    Ok(())
}

// Does the walk end where the first walk did? A trace that was written to meanwhile may end elsewhere, or have an error.
fn is_unchanged(at: Result<Step, Error>, places: Sides<usize>, lengths: Sides<usize>) -> bool
    ensures { result ≡ is_unchanged at places lengths }
{
    if lengths.first < places.first || lengths.second < places.second {
        return false;
    }
    match at {
        Ok(Step::Over(Some(Side::First))) => places.first == lengths.first,
        Ok(Step::Over(Some(Side::Second))) => places.second == lengths.second,
        Ok(Step::Over(None)) => places.first == lengths.first && places.second == lengths.second,
        _ => false,
    }
}

// The lines that close a walk, with what is left of each trace.
// Kept (points 4 and 5): no `write!` and no writer, as in `listing`: the contract says which bytes stand in front (`Written`).
fn put_closing(
    at: Result<Step, Error>,
    s: &Standing,
    lengths: Sides<usize>,
    out: &mut [u8],
) -> usize
    requires { ((places_of s.now).first ≤ lengths.first) × (((places_of s.now).second ≤ lengths.second) × (closing_room ≤ length out.old)) }
    ensures { Written (closing_held at s.now lengths) result out.old out.new × (result ≤ closing_room) }
{
    let places = s.places();
    let left = Sides {
        first: (lengths.first - places.first) as u64,
        second: (lengths.second - places.second) as u64,
    };
    close(at, s.reach(), left, out)
}

// The end of a walk: its lines, unless a trace changed.
fn closed<W: Write>(
    s: &Standing,
    lengths: Sides<usize>,
    to: &mut W,
    a: &[u8],
    b: &[u8],
    out: &mut [u8],
) -> Result<Likeness, Failure>
    requires { Stands s.now (length a.now) (length b.now) × (closing_room ≤ length out.old) }
    ensures { Closes s.now lengths a.now b.now result }
{
    let at = step_at(s, a, b);
    let places = s.places();
    if !is_unchanged(at, places, lengths) {
        return Err(Failure::Changed);
    }
    let count = put_closing(at, s, lengths, out);
    write(to, &out[..count]).map_err(|short| Failure::Unwritten(short.why))?;
    likeness_by(at, s.alike).ok_or(Failure::Changed)
}

// Both traces from their beginnings on, of which the first walk found no error.
pub(crate) fn differences<F: FileExt, W: Write>(
    files: Sides<&F>,
    to: &mut W,
    lengths: Sides<usize>,
    watch: Watch,
) -> Result<Likeness, Failure> {
    let mut a = [0u8; 65536];
    let mut b = [0u8; 65536];
    let mut out = [0u8; 65536];
    let mut s = Standing::fresh();
    let end = run(&mut s, watch, files, to, &mut a, &mut b, &mut out);
    watch.clear(s.read());
    end?;
    closed(&s, lengths, to, &a, &b, &mut out)
}
