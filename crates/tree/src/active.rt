// A sound tree with the set of its nodes that are active with some of its leaves, and for each node the sum of its active
// children's weights, by which their shares go.
ghost use Rattle.std.specs.Prelude.{◌≡◌, true, ℕ, ◌*◌, ◌^◌, ◌<◌, get_or};
ghost use Rattle.rules.specs.Units.{floor_of};
ghost use Rattle.rules.specs.Words.{has as member, set_of};
ghost use Rattle.rules.specs.Tree.{is_active};
ghost use Rattle.rules.specs.Invariant.{SoundTree, Within};
ghost use Rattle.tree.specs.View.{Lit, child_sum_in, share_among};

use crate::nodes::active_nodes;
use rules::budget::Controller;
use rules::tree::Tree;
use sets::has;

#[derive(Clone, Copy)]
pub(crate) struct ActiveTree<'a> {
    pub(crate) tree: &'a Tree,
    pub(crate) nodes: u64,
    pub(crate) sums: [u64; 64],
    ghost lit: { Lit tree.now nodes },
    ghost summed: { (p : ℕ) → p < 64 → get_or sums p 0 ≡ child_sum_in tree.now nodes p },
}

// What a child with this weight has of its parent's share.
pub(crate) fn portion(above: u64, weight: u16, sum: u64) -> u64
    requires { (above * weight < 2 ^ 64) × (0 < sum) }
    ensures { result ≡ floor_of (above * weight) sum }
{
    above * u64::from(weight) / sum
}

// The sums of the weights of all nodes' active children, in one walk from the last node down.
fn child_sums(tree: &Tree, nodes: u64) -> [u64; 64]
    requires { Lit tree.now nodes }
    ensures { (p : ℕ) → p < 64 → get_or result p 0 ≡ child_sum_in tree.now nodes p }
{
    let mut sums = [0u64; 64];
    for node in (1..tree.count).rev() {
        if has(nodes, node) {
            sums[usize::from(tree.parents[node])] += u64::from(tree.weights[node]);
        }
    }
    sums
}

impl<'a> ActiveTree<'a> {
    pub(crate) fn of(tree: &'a Tree, active: u64) -> ActiveTree<'a>
        requires { SoundTree tree.now × Within tree.now active }
        ensures { (result.tree.now ≡ tree.now) × (result.nodes ≡ set_of (is_active tree.now active)) }
    {
        let nodes = active_nodes(tree, active);
        let sums = child_sums(tree, nodes);
        ActiveTree { tree, nodes, sums }
    }

    // The share of an active node, by a call on its parent, whose number is smaller.
    pub(crate) fn share_of(&self, node: usize) -> u64
        requires { member self.now.nodes node ≡ true }
        ensures { result ≡ share_among self.now.tree.now self.now.nodes node }
    {
        if node == 0 {
            return Controller::WHOLE;
        }
        let parent = usize::from(self.tree.parents[node]);
        portion(
            self.share_of(parent),
            self.tree.weights[node],
            self.sums[parent],
        )
    }
}
