// Sets of nodes of a tree: its leaves, and the nodes that are active with some of them.
ghost use Rattle.std.specs.Prelude.{◌≡◌};
ghost use Rattle.rules.specs.Words.{set_of};
ghost use Rattle.rules.specs.Tree.{leaves_of, is_active};
ghost use Rattle.rules.specs.Invariant.{SoundTree, Within};

use rules::tree::Tree;
use sets::{has, insert, remove};

// Each node is a leaf until a later one names it as its parent.
pub fn leaves(tree: &Tree) -> u64
    requires { SoundTree tree.now }
    ensures { result ≡ leaves_of tree.now }
{
    let mut found: u64 = 0;
    for node in 1..tree.count {
        found = remove(insert(found, node), usize::from(tree.parents[node]));
    }
    found
}

// A parent's number is smaller, so one pass from the last node down finds every node that has an active leaf below it.
pub(crate) fn active_nodes(tree: &Tree, active: u64) -> u64
    requires { SoundTree tree.now × Within tree.now active }
    ensures { result ≡ set_of (is_active tree.now active) }
{
    let mut nodes = active;
    for node in (1..tree.count).rev() {
        if has(nodes, node) {
            nodes = insert(nodes, usize::from(tree.parents[node]));
        }
    }
    nodes
}
