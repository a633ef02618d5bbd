// The states that the cases begin with: a fresh one, and one of an age that no trace of a bearable length brings about.
ghost use Rattle.std.specs.Prelude.{◌≡◌, ◌≤◌};
ghost use Rattle.rules.specs.Numbers.{vtime_most};
ghost use Rattle.rules.specs.Invariant.{Sound};
ghost use Rattle.rules.specs.Bench.Run.{aged as aged_to};

use crate::say::{Answered, Given, line};
use rules::budget::Controller;
use rules::cost::Rates;
use rules::tree::Tree;
use rules::units::Virt;

// Leaves of weights 100 and 300.
fn two_leaves() -> Tree {
    let mut weights = [0u16; 64];
    weights[1] = 100;
    weights[2] = 300;
    Tree {
        count: 3,
        parents: [0u8; 64],
        weights,
    }
}

fn model_m() -> Rates {
    Rates {
        rbps: 409600000,
        rseqiops: 50000,
        rrandiops: 10000,
        wbps: 204800000,
        wseqiops: 25000,
        wrandiops: 5000,
    }
}

pub(crate) fn fresh(rt: &impl Print) -> Controller
    ensures { Sound result }
{
    let done = controller::start::start(two_leaves(), model_m(), 0);
    let answered = Answered(done.answer.map(|_| Given::Nothing));
    line(rt, "start with two leaves", &answered);
    done.state
}

// The same state at another virtual time, which may be any up to the limit.
pub(crate) fn age(c: &mut Controller, vtime: u64)
    requires { Sound c.old × (vtime ≤ vtime_most) }
    ensures { (c.new ≡ aged_to vtime c.old) × Sound c.new }
{
    c.clock.vtime = Virt(vtime);
}
