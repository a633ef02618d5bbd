// Submitting a bio to an active leaf: first the decision, which looks at one row, its share and how many wait there,
// then what the answer does to the row and to the queue.
ghost use Rattle.std.specs.Prelude.{◌≡◌, IfOk, OnErr};
ghost use Rattle.rules.specs.Budget.{row_after, queue_after};
ghost use Rattle.leaf.specs.Fit.{Priced, CanTake, HasRoom};
ghost use Rattle.leaf.specs.Alone.{answer_with};

use crate::{queue, row};
use rules::budget::{Queue, Row};
use rules::refusals::{Answer, Refusal};
use rules::units::Abs;

// "2. Unforced: .." and "3. Forced: ..": a forced bio goes on debt where any other waits, and passes those that wait.
// Kept (point 5): how many wait stands beside a row: it is the queue's length, and a row is handed to callees that ask for
// none.
#[tactic(auto, unfolding(rules::specs::Budget::answer_to))]
pub fn answer_to(forced: bool, cost: Abs, share: u64, row: Row, waiting: u8) -> Answer
    requires { Priced cost share }
    ensures { result ≡ answer_with forced cost share row waiting }
{
    let behind = row::owes(row) || (!forced && 0 < waiting);
    if !behind && row::fits(cost, share, row) {
        Answer::Issued
    } else if forced {
        Answer::OnDebt
    } else {
        Answer::Waits
    }
}

// What an answer leaves in the row: a refused bio leaves it as it was.
// Kept (point 5): an answer and a cost and no `Ruling`: who joins a queue has no ruling any more (`submit::joined`).
#[tactic(auto, using(crate::specs::Fit::issued_is_payable), unfolding(rules::specs::Budget::row_after))]
pub fn row_after(answer: Result<Answer, Refusal>, cost: Abs, share: u64, row: Row) -> Row
    requires { CanTake answer cost share row }
    ensures ok { IfOk answer (λ a. result ≡ row_after a cost share row) }
    ensures err { OnErr answer (result ≡ row) }
{
    match answer {
        Ok(Answer::Issued) => row::charged(cost, share, row),
        Ok(Answer::OnDebt) => Row {
            debt: Abs(row.debt.0 + cost.0),
            ..row
        },
        Ok(Answer::Waits) | Err(_) => row,
    }
}

// What an answer leaves in the queue: who waits joins it, and a refused bio leaves it as it was.
#[tactic(auto, unfolding(rules::specs::Budget::queue_after))]
pub fn queue_after(answer: Result<Answer, Refusal>, id: u32, cost: Abs, queue: Queue) -> Queue
    requires { HasRoom answer queue }
    ensures ok { IfOk answer (λ a. result ≡ queue_after a id cost queue) }
    ensures err { OnErr answer (result ≡ queue) }
{
    match answer {
        Ok(Answer::Waits) => queue::pushed(id, cost, queue),
        Ok(Answer::Issued | Answer::OnDebt) | Err(_) => queue,
    }
}
