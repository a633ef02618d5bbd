// Units: the crossings between absolute cost and virtual time, the quotients behind them, and the rule for rising
// shares. Nothing above makes one kind of number from the other in any other way; charging takes virtual time alone.
#![tactic(auto)]

ghost use Rattle.std.specs.Prelude.{◌≡◌, ◌+◌, ◌-◌, ◌*◌, ◌^◌, ◌≤◌, ◌<◌};
ghost use Rattle.rules.specs.Units.{virt, ceil_of, relative, repayable as repayable_of, at_whole};
ghost use Rattle.rules.specs.Budget.{rebudget as rebudget_of};

use rules::budget::Controller;
use rules::units::{Abs, Virt};

// "CEIL rounds a quotient .."
pub fn ceil_div(a: u64, b: u64) -> u64
    requires { (a + b ≤ 2 ^ 64) × (0 < b) }
    ensures { result ≡ ceil_of a b }
{
    a.div_ceil(b)
}

// "Relative cost = CEIL(cost .."
pub fn rel_cost(cost: Abs, share: u64) -> Virt
    requires { (cost.0 * 2 ^ 30 + share ≤ 2 ^ 64) × (0 < share) }
    ensures { result ≡ relative cost share }
{
    let relative = ceil_div(cost.0 * Controller::WHOLE, share);
    Virt(relative)
}

// Kept (point 5): that a budget times its share has room is asked of each call: the state has budgets and shares in two arrays,
// of which `Sound.worth_at_most` says it.
// What a budget can repay at a share: "FLOOR(budget x share / WHOLE)".
pub fn repayable(budget: Virt, share: u64) -> Abs
    requires { budget.0 * share < 2 ^ 64 }
    ensures { result ≡ repayable_of budget share }
{
    Abs(budget.0 * share / Controller::WHOLE)
}

// Plan holds usage against E: at the whole share an absolute nanosecond is one of virtual time.
pub fn at_whole(cost: Abs) -> Virt
    ensures { result ≡ at_whole cost }
{
    Virt(cost.0)
}

// Charging: "the budget falls by it".
pub fn spend(budget: Virt, cost: Virt) -> Virt
    requires { cost.0 ≤ budget.0 }
    ensures { result ≡ virt (budget.0 - cost.0) }
{
    Virt(budget.0 - cost.0)
}

// "Whenever a share rises .."
pub fn rebudget(h: u64, k: u64, b: Virt) -> Virt
    requires { b.0 * h < 2 ^ 64 }
    ensures { result ≡ rebudget_of h k b }
{
    if h < k {
        let rescaled = b.0 * h / k;
        Virt(rescaled)
    } else {
        b
    }
}
