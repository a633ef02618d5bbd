// Base shares: what each active leaf of a sound tree is worth, and whether a tree is so thin that some leaf could starve. The
// shares of all leaves come from one pass over the nodes; one share by itself, as at start, from a call on the parent.
ghost use Rattle.std.specs.Prelude.{◌≡◌, cond, ◌^◌, ◌<◌};
ghost use Rattle.rules.specs.Words.{has as member};
ghost use Rattle.rules.specs.Tree.{base_shares, is_thin};
ghost use Rattle.rules.specs.Invariant.{SoundTree, Within};

use crate::active::{ActiveTree, portion};
use crate::nodes::leaves;
use rules::budget::Controller;
use rules::tree::Tree;
use sets::{Members, has};

// What an active node has of the shares that are handed out: a leaf its own, an inner node nothing.
fn base_share(active: u64, node: usize, share: u64) -> u32
    requires { (node < 64) × (share < 2 ^ 32) }
    ensures { result ≡ cond (member active node) share 0 }
{
    if has(active, node) { share as u32 } else { 0 }
}

// Kept (point 3): the walk reads a table at a node's parent's number and writes two at its own, so it goes over the numbers.
// Kept (point 6): shares of inner nodes are left behind in the walk, and base shares are handed out: two tables, and not one of
// pairs.
// The base share of each active leaf; every other place is 0. One pass over the nodes by rising number: a parent's number is
// smaller, so its share is there when a child needs it.
pub fn base_shares(tree: Tree, active: u64) -> [u32; 64]
    requires { SoundTree tree × Within tree active }
    ensures { result ≡ base_shares tree active }
{
    let lit = ActiveTree::of(&tree, active);
    let mut held = [0u64; 64];
    held[0] = Controller::WHOLE;
    let mut shares = [0u32; 64];
    for n in 1..tree.count {
        if has(lit.nodes, n) {
            let parent = usize::from(tree.parents[n]);
            let share = portion(held[parent], tree.weights[n], lit.sums[parent]);
            held[n] = share;
            shares[n] = base_share(active, n, share);
        }
    }
    shares
}

// With all leaves active, is some leaf's share below the floor? At start each leaf is asked by itself, up to the first that is.
pub(crate) fn thin(tree: &Tree) -> bool
    requires { SoundTree tree.now }
    ensures { result ≡ is_thin tree.now }
{
    let all = leaves(tree);
    let lit = ActiveTree::of(tree, all);
    Members(all).any(|leaf| lit.share_of(leaf) < Controller::SHARE_FLOOR)
}

// The same of a tree in flight, where a weight changes: by the pass, as the shares anew are.
// Kept (point 2): `thin` has the form that document 01 names, a call on the parent; in flight one pass gives all shares.
pub(crate) fn thin_in_flight(tree: Tree) -> bool
    requires { SoundTree tree }
    ensures { result ≡ is_thin tree }
{
    let all = leaves(&tree);
    let shares = base_shares(tree, all);
    Members(all).any(|leaf| u64::from(shares[leaf]) < Controller::SHARE_FLOOR)
}
