// The entry plan: debts are forgiven, idle leaves go inactive, base shares are worked out anew and donated, and usage
// and E start at 0. `replan` has the steps in order, on a state where it stands, and `parts` takes them for a caller that shows
// parts of one; each step over the leaves is one loop, lent their rows and queues, and what it does to one leaf is a function
// here or in the crate leaf.
#![tactic(auto)]

ghost use Rattle.std.specs.Prelude.{◌≡◌, [], ◌*◌, ◌^◌, ◌≤◌, ◌<◌, ltb, sum_by};
ghost use Rattle.rules.specs.Plan.{is_quiet, restarted_clock, plan as plan_of};
ghost use Rattle.rules.specs.Refusals.{verdict_paper, paper_of, plan_checks};
ghost use Rattle.rules.specs.Entries.{planned};
ghost use Rattle.rules.specs.Invariant.{worth_most, Sound};
ghost use Rattle.leaf.specs.Fit.{usage_most};
ghost use Rattle.rules.specs.declared.budget.Controller.{Controller};
ghost use Rattle.plan.specs.Sharing.{CanShare, sharing_of, Shown, put_plan};
ghost use Rattle.plan.specs.Steps.{usage, usage_of, staying_of, targets_of, donors_of, closed_row, planned_row, planned_rows, CanFollow, bare_queues};

use donation::Giving;
use leaf::plan::{Elapsed, forgiven, is_donor, plan_row, stays};
use rules::budget::{Clock, Controller, Outcome, Queue, Row};
use rules::refusals::Refusal;
use rules::tree::Tree;
use rules::units::{Abs, Virt};
use sets::{has, insert, remove};
use tree::shares::base_shares;

// What the leaves of some rows were charged since the last plan.
fn charged(rows: &[Row]) -> u64
    requires { sum_by usage rows.now < 2 ^ 64 }
    ensures { result ≡ sum_by usage rows.now }
{
    rows.iter().map(|row| row.usage.0).sum()
}

// The usage of all leaves.
#[tactic(auto, using(crate::proofs::Turns::usage_sums))]
fn usage_all(rows: &[Row; 64]) -> Abs
    requires { (usage_of rows.now).0 ≤ usage_most }
    ensures { result ≡ usage_of rows.now }
{
    Abs(charged(&rows[1..]))
}

// "If twice the usage of all leaves is below E".
#[tactic(auto, unfolding(rules::specs::Plan::is_quiet))]
fn is_quiet(usage: Abs, since: Virt) -> bool
    requires { usage.0 ≤ usage_most }
    ensures { result ≡ is_quiet usage since }
{
    2 * units::at_whole(usage).0 < since.0
}

// The active leaves but those that become inactive, each judged with its debt forgiven.
fn staying(active: u64, quiet: bool, rows: &[Row; 64], queues: &[Queue; 64]) -> u64
    ensures { result ≡ staying_of active quiet rows.now queues.now }
{
    let mut staying = active;
    for (n, row) in rows.iter().enumerate() {
        if !stays(forgiven(quiet, *row), queues[n].len) {
            staying = remove(staying, n);
        }
    }
    staying
}

// The same by how many wait at each leaf.
// Kept (point 2): the loop of `staying`. `parts` is shown no queues, and would spend a third of its time on an array of them;
// one loop for both would be lent a closure that says how many wait.
fn staying_counted(active: u64, quiet: bool, rows: &[Row; 64], waiting: &[u8; 64]) -> u64
    ensures { result ≡ staying_of active quiet rows.now (bare_queues waiting.now) }
{
    let mut staying = active;
    for (n, row) in rows.iter().enumerate() {
        if !stays(forgiven(quiet, *row), waiting[n]) {
            staying = remove(staying, n);
        }
    }
    staying
}

// The target of each leaf, by its usage since the last plan.
fn targets_in(elapsed: Elapsed, rows: &[Row; 64]) -> [u32; 64]
    ensures { result ≡ targets_of elapsed.since rows.now }
{
    let mut targets = [0u32; 64];
    for (n, target) in targets.iter_mut().enumerate() {
        *target = elapsed.target_of(rows[n].usage) as u32;
    }
    targets
}

// The active leaves that can give, each judged with its debt forgiven.
// Kept (point 5): each step is lent what it reads of a state that `replan` holds; a struct would lend it all twice.
// Kept (point 6): bases come as one array (`base_shares`), `Giving` lends targets as one, and the state has its rows and queues
// in arrays of their own: pairs of them would be put together for one loop.
fn donors_in(
    active: u64,
    quiet: bool,
    bases: &[u32; 64],
    targets: &[u32; 64],
    rows: &[Row; 64],
    queues: &[Queue; 64],
) -> u64
    ensures { result ≡ donors_of active quiet bases.now targets.now rows.now queues.now }
{
    let mut donors: u64 = 0;
    // Kept (point 3): n is the number of a node, asked of one set and put into another; four tables are read at it.
    for n in 0..64usize {
        let target = u64::from(targets[n]);
        let base = u64::from(bases[n]);
        if has(active, n) && is_donor(target, base, forgiven(quiet, rows[n]), queues[n].len) {
            donors = insert(donors, n);
        }
    }
    donors
}

// The same by how many wait at each leaf.
// Kept (points 2, 3, 5 and 6): as `staying_counted` and `donors_in`.
fn donors_counted(
    active: u64,
    quiet: bool,
    bases: &[u32; 64],
    targets: &[u32; 64],
    rows: &[Row; 64],
    waiting: &[u8; 64],
) -> u64
    ensures { result ≡ donors_of active quiet bases.now targets.now rows.now (bare_queues waiting.now) }
{
    let mut donors: u64 = 0;
    for n in 0..64usize {
        let target = u64::from(targets[n]);
        let base = u64::from(bases[n]);
        if has(active, n) && is_donor(target, base, forgiven(quiet, rows[n]), waiting[n]) {
            donors = insert(donors, n);
        }
    }
    donors
}

// "With no donor or no active non-donor, ..": who gives, and the share of each.
#[derive(Clone, Copy)]
struct Sharing {
    donors: u64,
    shares: [u32; 64],
}

fn shared(giving: &Giving<'_>) -> Sharing
    requires { CanShare giving.now.active giving.now.donors giving.now.bases.now giving.now.targets.now }
    ensures { result ≡ sharing_of giving.now.active giving.now.donors giving.now.bases.now giving.now.targets.now }
{
    if giving.is_donation() {
        Sharing {
            donors: giving.donors,
            shares: giving.donated(),
        }
    } else {
        Sharing {
            donors: 0,
            shares: *giving.bases,
        }
    }
}

// A row once the plan is over: its budget follows its share from the one before to the one after.
// Kept (point 5): what its budget is worth is asked of the row and the share before: the state has them in two arrays.
fn planned_row(quiet: bool, stay: bool, before: u32, after: u32, row: Row) -> Row
    requires { (closed_row quiet stay row).budget.0 * before ≤ worth_most }
    ensures { result ≡ planned_row quiet stay before after row }
{
    let closed = plan_row(quiet, stay, row);
    Row {
        budget: units::rebudget(u64::from(before), u64::from(after), closed.budget),
        ..closed
    }
}

// "Budgets follow" their shares, and usages start at 0.
fn follow(quiet: bool, active: u64, before: &[u32; 64], after: &[u32; 64], rows: &mut [Row; 64])
    requires { CanFollow quiet active before.now rows.old }
    ensures { rows.new ≡ planned_rows quiet active before.now after.now rows.old }
{
    for (n, row) in rows.iter_mut().enumerate() {
        *row = planned_row(quiet, has(active, n), before[n], after[n], *row);
    }
}

// What a plan leaves of the state, but for E, which starts at 0.
#[derive(Clone, Copy)]
pub struct Planned {
    pub active: u64,
    pub donors: u64,
    pub shares: [u32; 64],
    pub rows: [Row; 64],
}

// A plan that is not refused, shown what it needs of the state: it answers what changes, and its caller puts this into the
// state that it holds. Its steps are those of `carry_out`, which says what each does.
// Kept (point 5): docs/entries.md names it with what it is shown, and no other function is lent just these.
pub fn parts(
    tree: Tree,
    since: Virt,
    was: u64,
    before: &[u32; 64],
    mut rows: [Row; 64],
    waiting: &[u8; 64],
) -> Planned
    requires { (c : Controller) × Shown c tree since was before.now rows waiting.now }
    ensures { (c : Controller) → Shown c tree since was before.now rows waiting.now → put_plan result c ≡ plan_of c }
{
    let elapsed = Elapsed { since };
    let quiet = is_quiet(usage_all(&rows), since);
    let active = staying_counted(was, quiet, &rows, waiting);
    let bases = base_shares(tree, active);
    let targets = targets_in(elapsed, &rows);
    let donors = donors_counted(active, quiet, &bases, &targets, &rows, waiting);
    let sharing = shared(&Giving {
        active,
        donors,
        bases: &bases,
        targets: &targets,
    });
    follow(quiet, active, before, &sharing.shares, &mut rows);
    Planned {
        active,
        donors: sharing.donors,
        shares: sharing.shares,
        rows,
    }
}

// A plan is refused exactly when no virtual time has passed since the last one.
pub fn is_due(clock: Clock) -> bool
    ensures { result ≡ ltb 0 clock.since.0 }
{
    0 < clock.since.0
}

// "E and usages start at 0".
pub fn restarted(clock: Clock) -> Clock
    ensures { result ≡ restarted_clock clock }
{
    Clock {
        since: Virt(0),
        ..clock
    }
}

// The steps of a plan that is due, in order. They are a function of their own, since a function pays for its tables where it
// begins, and a refused plan has no use for them.
fn carry_out(c: &mut Controller)
    requires { Sound c.old × (0 < c.old.clock.since.0) }
    ensures { c.new ≡ plan_of c.old }
{
    let elapsed = Elapsed {
        since: c.clock.since,
    };
    // 1. "If twice the usage of all leaves is below E, ..". Debts stay in the rows until 5, so that each row is stored once;
    // 2 and 3 judge a row with its debt forgiven.
    let quiet = is_quiet(usage_all(&c.rows), elapsed.since);
    // 2. "A leaf with no accepted bio .. becomes inactive".
    let active = staying(c.active, quiet, &c.rows, &c.queues);
    // 3. "Base shares anew", targets, and who is a donor.
    let bases = base_shares(c.tree, active);
    let targets = targets_in(elapsed, &c.rows);
    let donors = donors_in(active, quiet, &bases, &targets, &c.rows, &c.queues);
    // 4. "With no donor or no active non-donor, ..".
    let sharing = shared(&Giving {
        active,
        donors,
        bases: &bases,
        targets: &targets,
    });
    // 5. "Budgets follow" their shares, and E and usages start at 0.
    follow(quiet, active, &c.shares, &sharing.shares, &mut c.rows);
    c.clock = restarted(c.clock);
    c.active = active;
    c.donors = sharing.donors;
    c.shares = sharing.shares;
}

// A plan of a state where it stands. A refused one leaves all as it was.
pub fn replan(c: &mut Controller) -> Result<(), Refusal>
    requires { Sound c.old }
    ensures { (result ≡ (planned c.old).answer) × (c.new ≡ (planned c.old).state) }
{
    if !is_due(c.clock) {
        return Err(Refusal::NothingPassed);
    }
    carry_out(c);
    Ok(())
}

// A refused plan hands the state back as it came.
#[tactic(auto, using(rules::proofs::Laws::Refusals::plan_on_paper))]
pub fn plan(mut c: Controller) -> Outcome<()>
    requires { Sound c }
    ensures value { result ≡ planned c }
    ensures number { verdict_paper result.answer ≡ paper_of (plan_checks c) [] }
{
    let answer = replan(&mut c);
    Outcome { answer, state: c }
}
