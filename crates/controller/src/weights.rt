// One node's weight in flight: the tree moves, and with it the base shares of all active leaves.
ghost use Rattle.std.specs.Prelude.{◌≡◌, []};
ghost use Rattle.rules.specs.Refusals.{verdict_paper, paper_of, weight_checks};
ghost use Rattle.rules.specs.Entries.{weighted};
ghost use Rattle.rules.specs.Invariant.{Sound};

use crate::shares::rebase;
use rules::budget::{Controller, Outcome};
use rules::refusals::Refusal;
use tree::weights::{verdict, with_weight};

// Refusals 19, 22 and 2 in that order, else any donation ends, base shares are worked out anew in the tree with the weight, and
// budgets follow them, in a state that is lent. A refused weight leaves it as it was.
pub fn reweigh(c: &mut Controller, node: u8, weight: u16) -> Result<(), Refusal>
    requires { Sound c.old }
    ensures { (result ≡ (weighted node weight c.old).answer) × (c.new ≡ (weighted node weight c.old).state) }
{
    verdict(c.tree, node, weight)?;
    c.tree = with_weight(c.tree, node, weight);
    rebase(c, c.active);
    Ok(())
}

// The same of a state by value.
pub fn weight(mut c: Controller, node: u8, weight: u16) -> Outcome<()>
    requires { Sound c }
    ensures value { result ≡ weighted node weight c }
    ensures number { verdict_paper result.answer ≡ paper_of (weight_checks node weight c.tree) [] }
{
    let answer = reweigh(&mut c, node, weight);
    Outcome { answer, state: c }
}
