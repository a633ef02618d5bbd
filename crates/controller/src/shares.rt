// Other shares for all leaves: each budget follows its share by the rule for rising shares.
ghost use Rattle.std.specs.Prelude.{◌≡◌, ℕ, ◌*◌, ◌≤◌, get_or};
ghost use Rattle.rules.specs.Budget.{empty_row, row_at, share_at, rebased as rebased_of};
ghost use Rattle.rules.specs.Invariant.{worth_most, SoundTree, Within};
ghost use Rattle.controller.specs.Rows.{rebudgeted_rows, base_anew};

use rules::budget::{Controller, Row};
use rules::tree::Tree;

// Kept (point 5): that each budget times its share has room is asked by clauses: the state has rows and shares in two arrays,
// and `Sound.worth_at_most` says it of both.
// The rows with each budget scaled from the share before to the share after.
fn rebudgeted(mut rows: [Row; 64], before: &[u32; 64], after: &[u32; 64]) -> [Row; 64]
    requires { (n : ℕ) → (get_or rows n empty_row).budget.0 * get_or before.now n 0 ≤ worth_most }
    ensures { result ≡ rebudgeted_rows rows before.now after.now }
{
    for (n, row) in rows.iter_mut().enumerate() {
        row.budget = units::rebudget(u64::from(before[n]), u64::from(after[n]), row.budget);
    }
    rows
}

// Kept (point 6): `Controller` has shares and rows in two arrays, by which the theorems of the rules read them.
// Base shares of all leaves, and the rows with the budgets that follow them.
#[derive(Clone, Copy)]
pub struct Anew {
    pub shares: [u32; 64],
    pub rows: [Row; 64],
}

// "any donation ends and all base shares are worked out anew", for a caller that holds the state and puts them in.
pub fn base_anew(tree: Tree, active: u64, rows: [Row; 64], before: &[u32; 64]) -> Anew
    requires { SoundTree tree × Within tree active × ((n : ℕ) → (get_or rows n empty_row).budget.0 * get_or before.now n 0 ≤ worth_most) }
    ensures { result ≡ base_anew tree active rows before.now }
{
    let shares = tree::shares::base_shares(tree, active);
    let rows = rebudgeted(rows, before, &shares);
    Anew { shares, rows }
}

// The state with no donor, and base shares among the active leaves, where it stands.
pub fn rebase(c: &mut Controller, active: u64)
    requires { SoundTree c.old.tree × Within c.old.tree active × ((n : ℕ) → (row_at c.old n).budget.0 * share_at c.old n ≤ worth_most) }
    ensures { c.new ≡ rebased_of active c.old }
{
    let Anew { shares, rows } = base_anew(c.tree, active, c.rows, &c.shares);
    c.active = active;
    c.donors = 0;
    c.shares = shares;
    c.rows = rows;
}

// The same of a state by value.
pub fn rebased(mut c: Controller, active: u64) -> Controller
    requires { SoundTree c.tree × Within c.tree active × ((n : ℕ) → (row_at c n).budget.0 * share_at c n ≤ worth_most) }
    ensures { result ≡ rebased_of active c }
{
    rebase(&mut c, active);
    c
}
