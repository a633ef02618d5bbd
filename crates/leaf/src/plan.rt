// What a plan does to one leaf: its debt is forgiven in part, its budget rests if it goes inactive, its usage starts at
// 0; and whether it stays active, what share it used, and whether it can give.
ghost use Rattle.std.specs.Prelude.{◌≡◌, ◌≤◌, ◌<◌};
ghost use Rattle.rules.specs.Numbers.{since_most};
ghost use Rattle.rules.specs.Plan.{forgiveness as forgiveness_of, forgiven as forgiven_of, rested as rested_of, restarted, used_share, target_of};
ghost use Rattle.leaf.specs.Alone.{stays_with, is_donor_with};

use crate::row;
use rules::budget::{Controller, Row};
use rules::units::{Abs, Virt};

// "FLOOR(d / 2) is .."
#[tactic(auto, unfolding(rules::specs::Plan::forgiveness))]
fn forgiveness(quiet: bool, debt: Abs) -> Abs
    ensures { result ≡ forgiveness_of quiet debt }
{
    if quiet { Abs(debt.0 / 2) } else { Abs(0) }
}

// "each debt d becomes .."
// Kept (point 5): `quiet` is one word for a whole plan, and `stay` is worked out of a row once this was done to it.
#[tactic(auto, unfolding(rules::specs::Plan::forgiveness))]
pub fn forgiven(quiet: bool, row: Row) -> Row
    ensures { result ≡ forgiven_of quiet row }
{
    Row {
        debt: Abs(row.debt.0 - forgiveness(quiet, row.debt).0),
        ..row
    }
}

// A leaf that does not stay active loses its budget.
fn rested(stay: bool, row: Row) -> Row
    ensures { result ≡ rested_of stay row }
{
    if stay {
        row
    } else {
        Row {
            budget: Virt(0),
            ..row
        }
    }
}

// The row when the plan is over, except that its budget does not yet follow the new share.
pub fn plan_row(quiet: bool, stay: bool, row: Row) -> Row
    ensures { result ≡ restarted (rested_of stay (forgiven_of quiet row)) }
{
    Row {
        usage: Abs(0),
        accepted: false,
        ..rested(stay, forgiven(quiet, row))
    }
}

// "A leaf with no ..": any other stays.
pub fn stays(row: Row, waiting: u8) -> bool
    ensures { result ≡ stays_with row waiting }
{
    row.accepted || 0 < waiting || row::owes(row)
}

// E, the virtual time since the last plan, where a plan is due: what a leaf used is held against it.
#[derive(Clone, Copy)]
pub struct Elapsed {
    pub since: Virt,
    ghost some: { 0 < since.0 },
    ghost most: { since.0 ≤ since_most },
}

impl Elapsed {
    // "let u = CEIL(min(usage .."
    #[tactic(auto, unfolding(rules::specs::Plan::used_share))]
    fn used_share(self, usage: Abs) -> u64
        ensures { result ≡ used_share self.since usage }
    {
        let counted = units::at_whole(usage).0.min(self.since.0);
        units::ceil_div(counted * Controller::WHOLE, self.since.0)
    }

    // "target = max(1,024, u .."
    #[tactic(auto, unfolding(rules::specs::Plan::target_of, rules::specs::Plan::used_share))]
    pub fn target_of(self, usage: Abs) -> u64
        ensures { result ≡ target_of self.since usage }
    {
        // Of no usage u is 0, so that nothing is divided.
        if usage.0 == 0 {
            return Controller::SHARE_FLOOR;
        }
        let used = self.used_share(usage);
        (used + used / 4).max(Controller::SHARE_FLOOR)
    }
}

// "It is a donor if .."
#[tactic(auto, unfolding(rules::specs::Plan::is_donor))]
pub fn is_donor(target: u64, base: u64, row: Row, waiting: u8) -> bool
    ensures { result ≡ is_donor_with target base row waiting }
{
    !row::owes(row) && waiting == 0 && target < base
}
