// The rules that a tree must keep, node by node: the first one that is broken is the tree's fault.
ghost use Rattle.std.specs.Prelude.{◌≡◌, ◌-◌, ◌<◌, ◌≤◌};
ghost use Rattle.rules.specs.Tree.{last, level, weight_in_range, node_fault, tree_fault, newest_fault};
ghost use Rattle.tree.specs.View.{Climbs, first_fault};

use rules::tree::{Fault, Tree};

const NODES_LEAST: usize = 2;

const NODES_MOST: usize = 64;

const WEIGHT_LEAST: u16 = 1;

const WEIGHT_MOST: u16 = 10000;

const LEVEL_MOST: usize = 8;

// Kept (point 5): that nodes climb is known up to the node at hand, which is another at each call, so that no type of trees
// holds it.
// How many levels a node lies below the root, by a call on its parent.
fn level_of(tree: &Tree, node: usize) -> usize
    requires { Climbs tree.now.parents node × (node < 64) }
    ensures { (result ≡ level tree.now node) × (result ≤ node) }
{
    if node == 0 {
        return 0;
    }
    level_of(tree, usize::from(tree.parents[node])) + 1
}

pub(crate) fn weight_in_range(weight: u16) -> bool
    ensures { result ≡ weight_in_range weight }
{
    (WEIGHT_LEAST..=WEIGHT_MOST).contains(&weight)
}

// The parent is judged first: a node has a level only where its parent's number is smaller.
fn node_fault(tree: &Tree, node: usize) -> Result<(), Fault>
    requires { Climbs tree.now.parents (node - 1) × (0 < node) × (node < 64) }
    ensures { result ≡ node_fault tree.now node }
{
    if node <= usize::from(tree.parents[node]) {
        return Err(Fault::Parent(node));
    }
    if !weight_in_range(tree.weights[node]) {
        return Err(Fault::Weight(node));
    }
    if LEVEL_MOST < level_of(tree, node) {
        return Err(Fault::Level(node));
    }
    Ok(())
}

// The first fault of the nodes, each of which is judged once those before it are found sound.
fn first_fault(tree: &Tree) -> Result<(), Fault>
    requires { (0 < tree.now.count) × (tree.now.count ≤ 64) }
    ensures { result ≡ first_fault tree.now }
{
    for node in 1..tree.count {
        node_fault(tree, node)?;
    }
    Ok(())
}

// What is wrong with a tree: any count, parents and weights may be handed in.
pub(crate) fn fault(tree: &Tree) -> Result<(), Fault>
    ensures { result ≡ tree_fault tree.now }
{
    // Kept (point 2): each limit of the count is a test of its own, by which the proof goes.
    if tree.count < NODES_LEAST {
        return Err(Fault::Count);
    }
    if NODES_MOST < tree.count {
        return Err(Fault::Count);
    }
    first_fault(tree)
}

// The fault of the newest node, as nodes come one by one: those before it are known to climb.
pub fn newest(tree: Tree) -> Result<(), Fault>
    requires { (1 < tree.count) × (tree.count ≤ 64) × Climbs tree.parents (last tree - 1) }
    ensures { result ≡ newest_fault tree }
{
    node_fault(&tree, tree.count - 1)
}
