// Both traces: one step over a place in each, and the walk from step to step.
ghost use Rattle.std.specs.Prelude.{◌≡◌, Ok, Some, ◌+◌, ◌^◌, ◌≤◌, ◌<◌, length};
ghost use Rattle.trace.specs.Extents.{extent_at};
ghost use Rattle.comparison.specs.Compare.{found_by, same_bytes, pair_at, step_at, is_pair, advanced, noted, passed, reach_at_start, at_start, walked};

use crate::one::extent;
use crate::{Difference, Error, Pair, Reach, Side, Step, Walk, Whole};

// What stands at a place of this trace, or its error.
// Kept (point 2): as `error_by`, which hands on no record; one function under both would have a contract for each use.
fn found(side: Side, trace: &[u8], at: usize) -> Result<Option<Whole>, Error>
    ensures { result ≡ found_by side at (extent_at trace.now at) }
{
    extent(trace, at).map_err(|refusal| Error {
        side,
        refusal,
        place: at,
    })
}

// Bodies of one width, as arrays of it: where the compiler knows how many bytes there are, it needs no loop and no call.
fn same_in<const WIDTH: usize>(first: &[u8], second: &[u8]) -> bool
    requires { (length first.now ≡ WIDTH) × (length second.now ≡ WIDTH) }
    ensures { result ≡ same_bytes first.now second.now }
{
    <[u8; WIDTH]>::try_from(first).unwrap() == <[u8; WIDTH]>::try_from(second).unwrap()
}

// Are two bodies the same? The widths named are those that short records have, since a trace may have very many of them; any
// other is compared as well, so no layout is told here again.
#[inline(always)]
fn same_body(first: &[u8], second: &[u8]) -> bool
    ensures { result ≡ same_bytes first.now second.now }
{
    if first.len() != second.len() {
        return false;
    }
    match first.len() {
        0 => true,
        2 => same_in::<2>(first, second),
        3 => same_in::<3>(first, second),
        8 => same_in::<8>(first, second),
        _ => first == second,
    }
}

// One step over both places. An error of the first trace is told before one of the second. Of two records the first bytes,
// which are their kinds, are compared before the bodies.
// Inlined in each walk, always: what it answers is large, and would be written and read again at each record.
#[inline(always)]
#[tactic(auto, unfolding(crate::specs::Compare::step_at, crate::specs::Compare::step_by))]
pub fn step(first: &[u8], p: usize, second: &[u8], q: usize) -> Result<Step, Error>
    ensures { result ≡ step_at first.now p second.now q }
{
    let here = found(Side::First, first, p)?;
    let there = found(Side::Second, second, q)?;
    match (here, there) {
        (Some(one), Some(other)) => Ok(Step::Pair(Pair {
            first: one,
            second: other,
            same: first[p] == second[q]
                && same_body(&first[p + 1..one.next], &second[q + 1..other.next]),
        })),
        (Some(_), None) => Ok(Step::Over(Some(Side::Second))),
        (None, Some(_)) => Ok(Step::Over(Some(Side::First))),
        (None, None) => Ok(Step::Over(None)),
    }
}

pub fn is_pair(s: Result<Step, Error>) -> bool
    ensures { result ≡ is_pair s }
{
    matches!(s, Ok(Step::Pair(_)))
}

impl Reach {
    // The beginning of both.
    pub fn start() -> Reach
        ensures { result ≡ reach_at_start }
    {
        Reach {
            number: 0,
            first: 0,
            second: 0,
            alike: true,
        }
    }

    // Behind a pair.
    #[tactic(auto, unfolding(crate::specs::Compare::advanced))]
    pub fn past(self, pair: Pair) -> Reach
        requires { self.number + 1 < 2 ^ 64 }
        ensures { result ≡ advanced (Ok (Step.Pair pair)) self }
    {
        Reach {
            number: self.number + 1,
            first: pair.first.next,
            second: pair.second.next,
            alike: self.alike && pair.same,
        }
    }
}

impl Walk {
    // The first difference from the number asked on: one that was found before stays.
    fn noted(self, from: usize, pair: Pair) -> Option<Difference>
        ensures { result ≡ noted from pair self }
    {
        let number = self.reach.number;
        if pair.same || number < from {
            return self.difference;
        }
        self.difference.or(Some(Difference {
            number,
            first: u8::from(pair.first.kind),
            second: u8::from(pair.second.kind),
        }))
    }

    // Behind a pair.
    #[tactic(auto, unfolding(crate::specs::Compare::passed))]
    fn past(self, from: usize, pair: Pair) -> Walk
        requires { self.reach.number + 1 < 2 ^ 64 }
        ensures { result ≡ passed from (Ok (Step.Pair pair)) self }
    {
        Walk {
            reach: self.reach.past(pair),
            difference: self.noted(from, pair),
        }
    }
}

// From the beginning of both to where one has no record any more.
#[tactic(auto, using(crate::proofs::Laws::Steps::walk_here, crate::proofs::Laws::Steps::walk_on_lem, crate::proofs::Laws::Steps::a_pair_goes_on), unfolding(crate::specs::Compare::walked))]
pub fn walk(first: &[u8], second: &[u8], from: usize) -> Walk
    ensures { result ≡ walked first.now second.now from }
{
    let mut w = Walk {
        reach: Reach::start(),
        difference: None,
    };
    loop {
        match step(first, w.reach.first, second, w.reach.second) {
            Ok(Step::Pair(pair)) => w = w.past(from, pair),
            Ok(Step::Over(_)) => return w,
            Err(_) => return w,
        }
    }
}
