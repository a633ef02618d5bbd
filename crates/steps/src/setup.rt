// The records of setup: a node, the model, start. One that is refused leaves the replay as it was.
ghost use Rattle.std.specs.Prelude.{◌≡◌, ◌<◌, OnErr};
ghost use Rattle.rules.specs.Replay.{grown as grown_of, record_step};
ghost use Rattle.rules.specs.Invariant.{Playing};
ghost use Rattle.steps.specs.OneStep.{taken};

use rules::cost::Rates;
use rules::refusals::Refusal;
use rules::replay::{Phase, Replay};
use rules::trace::Record;
use rules::tree::{Fault, Tree};

const NODES_MOST: usize = 64;

// The tree with one node more.
fn grown(mut tree: Tree, parent: u8, weight: u16) -> Tree
    requires { tree.count < 64 }
    ensures { result ≡ grown_of parent weight tree }
{
    let node = tree.count;
    tree.parents[node] = parent;
    tree.weights[node] = weight;
    tree.count += 1;
    tree
}

// "In a trace a node record is checked for its own faults": those that start would find in the tree so far.
pub(crate) fn node(parent: u8, weight: u16, s: &mut Replay) -> Result<(), Refusal>
    requires { Playing s.old }
    ensures takes { record_step (Record.Node parent weight) s.old ≡ taken result s.new }
    ensures kept { OnErr result (s.new ≡ s.old) }
{
    if NODES_MOST <= s.tree.count {
        return Err(Refusal::BadTree(Fault::Count));
    }
    let next = grown(s.tree, parent, weight);
    tree::faults::newest(next)?;
    s.tree = next;
    Ok(())
}

pub(crate) fn model(rates: Rates, s: &mut Replay) -> Result<(), Refusal>
    ensures takes { record_step (Record.Model rates) s.old ≡ taken result s.new }
    ensures kept { OnErr result (s.new ≡ s.old) }
{
    cost::price(rates)?;
    s.phase = Phase::Priced;
    s.rates = rates;
    Ok(())
}

pub(crate) fn start(time: u64, s: &mut Replay) -> Result<(), Refusal>
    ensures takes { record_step (Record.Start time) s.old ≡ taken result s.new }
    ensures kept { OnErr result (s.new ≡ s.old) }
{
    let begun = controller::start::start(s.tree, s.rates, time);
    begun.answer?;
    s.phase = Phase::Running;
    s.state = begun.state;
    Ok(())
}
