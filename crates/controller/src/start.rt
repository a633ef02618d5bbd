// Where a controller begins, and its pace: start and vrate.
ghost use Rattle.std.specs.Prelude.{◌≡◌, []};
ghost use Rattle.rules.specs.Refusals.{first_of, verdict_paper, paper_of, start_checks, vrate_checks};
ghost use Rattle.rules.specs.Entries.{pricing_by, started, slowest_model, no_tree, vrated as vrated_of};
ghost use Rattle.rules.specs.Budget.{fresh, with_rate};
ghost use Rattle.rules.specs.Plan.{vrate_in_range};
ghost use Rattle.controller.specs.Begun.{Unstarted};

use rules::budget::{Clock, Controller, Outcome};
use rules::cost::{Model, Price, Rates};
use rules::refusals::Refusal;
use rules::tree::Tree;
use rules::units::Abs;

const VRATE_MOST: u16 = 400;

fn slowest() -> Model
    ensures { result ≡ slowest_model }
{
    let price = Price {
        page: Abs(1000000000),
        sequential: Abs(0),
        random: Abs(0),
    };
    Model {
        read: price,
        write: price,
    }
}

// What a refused start hands out: a fresh state with no node, which refuses every bio.
fn leafless() -> Controller
    ensures { result ≡ fresh no_tree slowest_model 0 }
{
    let tree = Tree {
        count: 0,
        parents: [0u8; 64],
        weights: [0u16; 64],
    };
    Controller::new(tree, 0, slowest(), 0)
}

// Kept (point 1): on refusal too `started` of the rules gives a state, and `start` promises it.
fn refused(x: Refusal) -> Outcome<()>
    ensures { Unstarted x result }
{
    Outcome {
        answer: Err(x),
        state: leafless(),
    }
}

// Refusals 20 to 23, 2 and 3 in that order, else what the rates are priced at.
fn judged(tree: Tree, rates: Rates) -> Result<Model, Refusal>
    ensures { result ≡ pricing_by (first_of (start_checks tree rates)) rates }
{
    tree::check(tree)?;
    cost::price(rates)
}

// Start: refused, or the fresh state.
pub fn start(tree: Tree, rates: Rates, time: u64) -> Outcome<()>
    ensures value { result ≡ started tree rates time }
    ensures number { verdict_paper result.answer ≡ paper_of (start_checks tree rates) [] }
{
    match judged(tree, rates) {
        Err(x) => refused(x),
        Ok(model) => {
            let leaves = tree::nodes::leaves(&tree);
            Outcome {
                answer: Ok(()),
                state: Controller::new(tree, leaves, model, time),
            }
        }
    }
}

fn in_range(v: u16) -> bool
    ensures { result ≡ vrate_in_range v }
{
    (1..=VRATE_MOST).contains(&v)
}

// "vrate is set ..": refusal 15 ..
pub fn vrate_verdict(v: u16) -> Result<(), Refusal>
    ensures { result ≡ first_of (vrate_checks v) }
{
    if in_range(v) {
        Ok(())
    } else {
        Err(Refusal::BadVrate)
    }
}

// .. or the new vrate holds for later ticks.
pub fn with_rate(mut clock: Clock, v: u16) -> Clock
    ensures { result ≡ with_rate v clock }
{
    clock.vrate = v;
    clock
}

// Refusal 15, else the vrate from now on, in a state that is lent. A refused one leaves it as it was.
pub fn pace(c: &mut Controller, v: u16) -> Result<(), Refusal>
    ensures { (result ≡ (vrated_of v c.old).answer) × (c.new ≡ (vrated_of v c.old).state) }
{
    vrate_verdict(v)?;
    c.clock = with_rate(c.clock, v);
    Ok(())
}

// Both together, for a caller that hands the state over; a caller that holds it changes its clock where it stands.
pub fn vrate(mut c: Controller, v: u16) -> Outcome<()>
    ensures value { result ≡ vrated_of v c }
    ensures number { verdict_paper result.answer ≡ paper_of (vrate_checks v) [] }
{
    let answer = pace(&mut c, v);
    Outcome { answer, state: c }
}
