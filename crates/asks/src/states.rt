// The state that the runs begin with.
ghost use Rattle.rules.specs.Invariant.{Sound};

use rules::budget::Controller;
use rules::cost::Rates;
use rules::tree::Tree;

// A group of two leaves, 2 and 3, and beside it the leaves 4 and 5.
fn four_leaves() -> Tree {
    let mut parents = [0u8; 64];
    parents[2] = 1;
    parents[3] = 1;
    let mut weights = [0u16; 64];
    weights[1] = 300;
    weights[2] = 100;
    weights[3] = 200;
    weights[4] = 100;
    weights[5] = 50;
    Tree {
        count: 6,
        parents,
        weights,
    }
}

// Reads of model M, and the slowest writes: a page is a second, three are too dear, and debts come to their limit soon.
fn slow_writes() -> Rates {
    Rates {
        rbps: 409600000,
        rseqiops: 50000,
        rrandiops: 10000,
        wbps: 4096,
        wseqiops: 1,
        wrandiops: 1,
    }
}

pub(crate) fn fresh() -> Controller
    ensures { Sound result }
{
    controller::start::start(four_leaves(), slow_writes(), 0).state
}
