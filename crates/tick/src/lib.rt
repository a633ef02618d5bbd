// The tick: what document 01 does when a new time comes. The clock alone decides refusals 9 to 12 and the growth; the
// queues decide 13. Then each active leaf has its turn, which is the crate leaf's, and writes its released ids behind those
// of the leaves before it, into the rest of the lent buffer.
#![tactic(auto)]

ghost use Rattle.std.specs.Prelude.{◌≡◌, ◌^◌, ◌<◌, [], ◌∷◌, length, ltb, sum_by};
ghost use Rattle.rules.specs.Tick.{growth, releases, waiting_all};
ghost use Rattle.rules.specs.Refusals.{count_paper, paper_of, tick_checks};
ghost use Rattle.rules.specs.Entries.{ticked, lent_of};
ghost use Rattle.rules.specs.Invariant.{Sound};
ghost use Rattle.tick.specs.Passing.{waiting, Passes};

use rules::budget::{Controller, Outcome, Queue};
use rules::refusals::Refusal;

pub mod clock;
mod turns;

// How many bios wait at some leaves.
fn waiting_in(queues: &[Queue]) -> usize
    requires { sum_by waiting queues.now < 2 ^ 64 }
    ensures { result ≡ sum_by waiting queues.now }
{
    queues.iter().map(|queue| usize::from(queue.len)).sum()
}

// No more bios than these can wait.
const WAITING_MOST: usize = 504;

// Are there fewer places than bios wait? With a place for each that can wait, none is counted.
fn has_few_places(c: &Controller, places: usize) -> bool
    requires { Sound c.now }
    ensures { result ≡ ltb places (waiting_all c.now) }
{
    places < WAITING_MOST && places < waiting_in(&c.queues[1..])
}

// A tick of a state where it stands: how many ids were written. A refused time leaves all as it was.
pub fn pass(c: &mut Controller, time: u64, out: &mut [u32]) -> Result<usize, Refusal>
    requires { Sound c.old }
    ensures { Passes result c.new out.new time out.old c.old }
{
    clock::verdict(c.clock, time)?;
    if has_few_places(c, out.len()) {
        return Err(Refusal::FewPlaces);
    }
    Ok(turns::accepted(c, time, out))
}

// A refused tick hands the state back as it came, the last time too.
#[tactic(auto, using(rules::proofs::Laws::Refusals::tick_on_paper))]
pub fn tick(mut c: Controller, time: u64, out: &mut [u32]) -> Outcome<usize>
    requires { Sound c }
    ensures value { (result ≡ ticked time out.old c) × (out.new ≡ lent_of time out.old c) }
    ensures number { count_paper result.answer ≡ paper_of (tick_checks time (length out.old) c) (length (releases (growth c.clock time) c) ∷ []) }
{
    let answer = pass(&mut c, time, out);
    Outcome { answer, state: c }
}
