// A leaf's turn in a tick: it gains, repays, releases and is capped, in this order. Released ids go to the front of the
// buffer that is lent to the leaf; places behind the last stay.
ghost use Rattle.std.specs.Prelude.{◌≡◌, true, ◌+◌, ◌*◌, ◌^◌, ◌≤◌, ◌<◌, length};
ghost use Rattle.rules.specs.Budget.{owes as owes_of};
ghost use Rattle.rules.specs.Tick.{gained as gained_of, repayment as repayment_of, repaid as repaid_of, release_in, and_capped};
ghost use Rattle.leaf.specs.Fit.{FitRow, CanRepay, CanRelease, gain_most};
ghost use Rattle.leaf.specs.Turns.{Releases, is_due, settled_of};
ghost use Rattle.leaf.specs.Alone.{capped_with};

use crate::{queue, row};
use rules::budget::{Queue, Row};
use rules::units::{Abs, Virt};

// The most that a leaf saves if it owes nothing and has no waiter.
const IDLE_CAP: u64 = 134217728;

// A leaf before anything is released: its row, what it repaid, and whether bios that wait are due. With none due, its turn
// is over.
// Kept (point 1): the row stands whether bios are due or not, so that an `Option` of it would say nothing of a turn that is
// over.
#[derive(Clone, Copy)]
pub struct Settled {
    pub row: Row,
    pub repaid: Abs,
    pub due: bool,
}

// What a release leaves: the row, where the queue begins now and how many wait there, and how many ids were written. The
// places of the queue keep what they had, so that no queue is moved.
#[derive(Clone, Copy)]
pub struct Left {
    pub row: Row,
    pub head: u8,
    pub len: u8,
    pub count: usize,
}

// "the budget gains that .."
fn gained(gain: Virt, row: Row) -> Row
    requires { row.budget.0 + gain.0 < 2 ^ 64 }
    ensures { result ≡ gained_of gain row }
{
    Row {
        budget: Virt(row.budget.0 + gain.0),
        ..row
    }
}

// "p = the smaller .."
#[tactic(auto, unfolding(rules::specs::Tick::repayment))]
fn repayment(share: u64, row: Row) -> Abs
    requires { CanRepay share row }
    ensures { result ≡ repayment_of share row }
{
    Abs(row.debt.0.min(units::repayable(row.budget, share).0))
}

// "if it owes, it repays p, and the budget falls by ..": the caller asks whether it owes.
#[tactic(auto, using(rules::proofs::Laws::Rows::repayment_most, crate::specs::Fit::repayment_is_payable), unfolding(rules::specs::Tick::repaid))]
fn repaid(p: Abs, share: u64, row: Row) -> Row
    requires { CanRepay share row × (p ≡ repayment_of share row) × (owes_of row ≡ true) }
    ensures { result ≡ repaid_of share row }
{
    Row {
        debt: Abs(row.debt.0 - p.0),
        ..row::charged(p, share, row)
    }
}

// "waiting bios are released .."
fn release_fitting(share: u64, mut row: Row, queue: &Queue, out: &mut [u32]) -> Left
    requires { CanRelease share row queue.now × (queue.now.len ≤ length out.old) }
    ensures { Releases (release_in queue.now.len share row queue.now) out.old result out.new }
{
    let mut head = queue.head;
    for count in 0..queue.len {
        let oldest = usize::from(head);
        let cost = queue.costs[oldest];
        if !row::fits(cost, share, row) {
            return Left {
                row,
                head,
                len: queue.len - count,
                count: usize::from(count),
            };
        }
        out[usize::from(count)] = queue.ids[oldest];
        row = row::charged(cost, share, row);
        head = queue::behind(head);
    }
    Left {
        row,
        head,
        len: 0,
        count: usize::from(queue.len),
    }
}

// "last, if it owes nothing and nothing waits, a budget above 2^27 .."
#[tactic(auto, unfolding(rules::specs::Tick::capped))]
fn capped(row: Row, waiting: u8) -> Row
    ensures { result ≡ capped_with row waiting }
{
    if row::owes(row) || 0 < waiting {
        return row;
    }
    Row {
        budget: Virt(row.budget.0.min(IDLE_CAP)),
        ..row
    }
}

// "if it now owes nothing, ..": whether bios that wait may be released.
fn is_due(row: Row, waiting: u8) -> bool
    ensures { result ≡ is_due row waiting }
{
    !row::owes(row) && 0 < waiting
}

// "Then for each active leaf, ..", as far as it concerns the row: the queue of a leaf with nothing due is not looked at.
#[tactic(auto, using(crate::specs::Fit::gain_fits, crate::specs::Fit::gained_can_repay, crate::proofs::Release::nothing_owed))]
pub fn settle(gain: Virt, share: u64, row: Row, waiting: u8) -> Settled
    requires { FitRow share row × (gain.0 ≤ gain_most) }
    ensures { result ≡ settled_of gain share row waiting }
{
    let mut row = gained(gain, row);
    // Most leaves owe nothing: they repay 0, and nothing is worked out for it.
    let mut p = Abs(0);
    if row::owes(row) {
        p = repayment(share, row);
        row = repaid(p, share, row);
    }
    Settled {
        row: capped(row, waiting),
        repaid: p,
        due: is_due(row, waiting),
    }
}

// The rest of a leaf's turn, where bios are due. The queue is lent: to copy it takes longer than most turns.
#[tactic(auto, unfolding(rules::specs::Tick::capped))]
pub fn released(share: u64, row: Row, queue: &Queue, out: &mut [u32]) -> Left
    requires { CanRelease share row queue.now × (queue.now.len ≤ length out.old) }
    ensures { Releases (and_capped (release_in queue.now.len share row queue.now)) out.old result out.new }
{
    let mut left = release_fitting(share, row, queue, out);
    left.row = capped(left.row, left.len);
    left
}
