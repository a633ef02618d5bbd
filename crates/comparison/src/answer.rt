// The answer: an error of either trace, or else the first difference, who ends first and how alike they are; and the rest of
// the longer trace where one is a prefix of the other.
ghost use Rattle.std.specs.Prelude.{◌≡◌};
ghost use Rattle.comparison.specs.Paper.{comparison_paper, compared_paper};
ghost use Rattle.comparison.specs.Compare.{other_side, ends_by, likeness_if, likeness_by, concluded, compared, longer_by, longer_of, rest_of};

use crate::both::{step, walk};
use crate::one::error_in;
use crate::{Comparison, Ends, Error, Likeness, Side, Step, Walk};

impl Side {
    fn other(self) -> Side
        ensures { result ≡ other_side self }
    {
        match self {
            Side::First => Side::Second,
            Side::Second => Side::First,
        }
    }
}

// Which trace ends first, by the step at which the walk ended; nothing is told of a step at which no trace ends.
// Kept (point 2): a function under this and `likeness_by` would answer an `Option<Option<Side>>`, and say less.
// Kept (point 4): a step that may be an error is a `Result`, and a crate can give std's type no methods.
pub fn ends_by(s: Result<Step, Error>, number: usize) -> Option<Ends>
    ensures { result ≡ ends_by s number }
{
    match s {
        Ok(Step::Over(side)) => Some(Ends {
            side,
            records: number,
        }),
        _ => None,
    }
}

// Traces that are alike as far as both have records: neither has more of them, or one has.
fn likeness_if(alike: bool, ends_first: Option<Side>) -> Likeness
    ensures { result ≡ likeness_if alike ends_first }
{
    match (alike, ends_first) {
        (false, _) => Likeness::Different,
        (true, Some(_)) => Likeness::Prefix,
        (true, None) => Likeness::Equal,
    }
}

// Kept (point 4): as `ends_by`.
pub fn likeness_by(s: Result<Step, Error>, alike: bool) -> Option<Likeness>
    ensures { result ≡ likeness_by s alike }
{
    match s {
        Ok(Step::Over(side)) => Some(likeness_if(alike, side)),
        _ => None,
    }
}

// Without an error the last step of a walk is one at which a trace ends, and both are told.
#[tactic(auto, unfolding(crate::specs::Compare::concluded))]
fn concluded(s: Result<Step, Error>, w: Walk) -> Comparison
    ensures { result ≡ concluded s w }
{
    let records = w.reach.number;
    let alike = w.reach.alike;
    Comparison {
        difference: w.difference,
        ends: ends_by(s, records).unwrap_or(Ends {
            side: None,
            records,
        }),
        likeness: likeness_by(s, alike).unwrap_or(likeness_if(alike, None)),
    }
}

// Any two traces and any number have an answer. The first trace's error comes before the second's.
// Kept (point 5): the entries lend two slices (docs/entries.md: `compare`, `rest`, `step`), and a struct of both would be taken
// apart again for `error_in` and `step`.
#[tactic(auto, using(crate::proofs::Paper::compared_on_paper), unfolding(crate::specs::Compare::compared, crate::specs::Compare::error_of, crate::specs::Compare::compared_from))]
pub fn compare(first: &[u8], second: &[u8], from: usize) -> Result<Comparison, Error>
    ensures value { result ≡ compared first.now second.now from }
    ensures number { comparison_paper result ≡ compared_paper first.now second.now from }
{
    error_in(Side::First, first)?;
    error_in(Side::Second, second)?;
    let w = walk(first, second, from);
    Ok(concluded(step(first, w.reach.first, second, w.reach.second), w))
}

// The trace that ends first is the prefix, so the other one is longer.
// Kept (point 4): what a walk tells of likeness and ends are two `Option`s, and a crate can give std's type no methods.
pub fn longer_of(likeness: Option<Likeness>, ends: Option<Ends>) -> Option<Side>
    ensures { result ≡ longer_by likeness ends }
{
    match (likeness, ends) {
        (Some(Likeness::Prefix), Some(ends)) => ends.side.map(Side::other),
        _ => None,
    }
}

// Beside an error no trace has a rest.
fn longer(told: Result<Comparison, Error>) -> Option<Side>
    ensures { result ≡ longer_of told }
{
    match told {
        Ok(c) => longer_of(Some(c.likeness), Some(c.ends)),
        Err(_) => None,
    }
}

// The remaining records of the longer trace, as a part of it; in every other case the empty rest of the first.
#[tactic(auto, using(crate::proofs::Theorems::the_longer_is_longer), unfolding(crate::specs::Compare::rest_of))]
pub fn rest<'a>(first: &'a [u8], second: &'a [u8]) -> &'a [u8]
    ensures { result.now ≡ rest_of first.now second.now }
{
    match longer(compare(first, second, 0)) {
        Some(Side::First) => &first[second.len()..],
        Some(Side::Second) => &second[first.len()..],
        None => &first[first.len()..],
    }
}
