// The weight tree: what is wrong with it, which nodes are its leaves and which are active, and the base share of each
// active leaf. A tree comes in by value; the work is done on a tree that is lent, so that no call copies it.
// Kept (point 5): that a tree is sound is asked by clauses, and is no invariant of a type: any tree may come in to be judged,
// and the state holds a plain `Tree`, of which `Sound.tree` says it.
#![tactic(auto)]

ghost use Rattle.std.specs.Prelude.{◌≡◌, []};
ghost use Rattle.rules.specs.Refusals.{verdict_paper, paper_of, tree_checks};
ghost use Rattle.rules.specs.Entries.{tree_verdict};

use rules::refusals::Refusal;
use rules::tree::Tree;

mod active;
pub mod faults;
pub mod nodes;
pub mod shares;
pub mod weights;

// Check a tree: 20 to 23 say what is wrong, and at which node, and 2 is for one that is thin.
pub fn check(tree: Tree) -> Result<(), Refusal>
    ensures value { result ≡ tree_verdict tree }
    ensures number { verdict_paper result ≡ paper_of (tree_checks tree) [] }
{
    faults::fault(&tree)?;
    if shares::thin(&tree) {
        return Err(Refusal::ThinTree);
    }
    Ok(())
}
