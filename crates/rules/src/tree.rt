// Tree and base shares: the weight tree as it is handed in, and what can be wrong with it.

// Nodes 0 to count - 1. Node 0 is the root, whose own parent and weight mean nothing; nor do places from count on.
// Kept (point 5): that a tree is sound is asked where it counts (`SoundTree`), since any count, parents and weights may be
// handed in, and the check of a tree says what is wrong with them.
// Kept (point 6): nothing here is on a heap, so a node names its parent by a number. Parents and weights lie apart, since what
// is said of parents alone (`Climbs`, `up` of `SoundTree`) stays when a weight changes.
#[derive(Clone, Copy)]
pub struct Tree {
    pub count: usize,
    pub parents: [u8; 64],
    pub weights: [u16; 64],
}

// The first thing that is wrong with a tree, by the number of its node.
#[derive(Clone, Copy, PartialEq, Eq)]
pub enum Fault {
    Count,
    Parent(usize),
    Weight(usize),
    Level(usize),
}
