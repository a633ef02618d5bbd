// Another weight at one node of a sound tree: whether it may have it, and the tree with it. Parents and levels stay, so of
// what a tree must keep only the weight itself and the shares are judged.
ghost use Rattle.std.specs.Prelude.{◌≡◌, ◌<◌};
ghost use Rattle.rules.specs.Tree.{with_weight};
ghost use Rattle.rules.specs.Refusals.{first_of, weight_checks};
ghost use Rattle.rules.specs.Invariant.{SoundTree};

use crate::faults::weight_in_range;
use crate::shares::thin_in_flight;
use rules::refusals::Refusal;
use rules::tree::{Fault, Tree};

// Kept (point 5): node and weight come apart, as the rules' `with_weight` and `weight_checks` have them and a trace's record
// gives them.
pub fn with_weight(mut tree: Tree, node: u8, weight: u16) -> Tree
    requires { node < 64 }
    ensures { result ≡ with_weight node weight tree }
{
    tree.weights[usize::from(node)] = weight;
    tree
}

// Refusal 19 for the root and for a node that is not there, then 22 for the weight, then 2 where the tree with it is thin.
pub fn verdict(tree: Tree, node: u8, weight: u16) -> Result<(), Refusal>
    requires { SoundTree tree }
    ensures { result ≡ first_of (weight_checks node weight tree) }
{
    let at = usize::from(node);
    // Kept (point 2): the two tests of `is_below_root`, as the rules have them.
    if !((0 < at) & (at < tree.count)) {
        return Err(Refusal::NotBelowRoot);
    }
    if !weight_in_range(weight) {
        return Err(Refusal::BadTree(Fault::Weight(at)));
    }
    if thin_in_flight(with_weight(tree, node, weight)) {
        return Err(Refusal::ThinTree);
    }
    Ok(())
}
