// A leaf's own books: whether it owes, whether a cost fits its budget, and what charging, debt and noting a bio leave.
ghost use Rattle.std.specs.Prelude.{◌≡◌, true, ◌<◌};
ghost use Rattle.rules.specs.Budget.{with_accepted, charged as charged_of, owes as owes_of, fits as fits_of};
ghost use Rattle.leaf.specs.Fit.{Priced, Payable};
ghost use Rattle.leaf.specs.Alone.{ended_at};

use rules::budget::Row;
use rules::units::Abs;

pub(crate) fn owes(row: Row) -> bool
    ensures { result ≡ owes_of row }
{
    0 < row.debt.0
}

// "relative cost <= budget"
// Kept (point 5): a share stands beside a row, as in the rules: each step changes the row alone, and the state has both in
// arrays of their own, so a struct of the two would be put together before each call and taken apart after it.
pub(crate) fn fits(cost: Abs, share: u64, row: Row) -> bool
    requires { Priced cost share }
    ensures { result ≡ fits_of cost share row }
{
    units::rel_cost(cost, share).0 <= row.budget.0
}

// Charged: the budget falls by the relative cost, the usage grows by the absolute one.
pub(crate) fn charged(cost: Abs, share: u64, row: Row) -> Row
    requires { Payable cost share row }
    ensures { result ≡ charged_of cost share row }
{
    Row {
        budget: units::spend(row.budget, units::rel_cost(cost, share)),
        usage: Abs(row.usage.0 + cost.0),
        ..row
    }
}

// An accepted bio counts since the last plan. A flush does no more.
pub fn counted(row: Row) -> Row
    ensures { result ≡ with_accepted true row }
{
    Row {
        accepted: true,
        ..row
    }
}

// An accepted bio that is no flush also moves the leaf's end, and is its first if it had none.
pub fn ended(end: u64, row: Row) -> Row
    ensures { result ≡ ended_at end row }
{
    Row {
        end,
        begun: true,
        accepted: true,
        ..row
    }
}
