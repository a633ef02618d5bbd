// Submitting a bio: refusals 4 to 8 in their order, an inactive leaf's activation, the answer, and what it does to the
// leaf and to a donation. What happens inside one row and one queue is the crate leaf's. No node but the bio's is touched
// unless shares change. `rule` is the one decision, by what is the node's own; a question goes by it too. `decide` adds what
// the answer does to that leaf and to the shares, from what it is shown of one leaf. `submit_to` carries this out where the
// state stands, for `submit` and for a run of calls.
#![tactic(auto)]

ghost use Rattle.std.specs.Prelude.{◌≡◌, ◌^◌, ◌≤◌, ◌<◌};
ghost use Rattle.rules.specs.Numbers.{cost_most, debt_most, nodes_most, queue_room};
ghost use Rattle.rules.specs.Budget.{pushed, noted as noted_of, ends_donation, would_be};
ghost use Rattle.rules.specs.Refusals.{first_of, room_checks, answer_paper, letters_of, paper_of, submit_checks};
ghost use Rattle.rules.specs.Entries.{submitted};
ghost use Rattle.rules.specs.Invariant.{Sound, SoundQueue};
ghost use Rattle.leaf.specs.Alone.{length_only};
ghost use Rattle.rules.specs.Question.{when_active, own_of, refused_by, ruling};
ghost use Rattle.submit.specs.OnLeaf.{CanAnswer, CanRule, CanBook, queueing, booked_by};
ghost use Rattle.submit.specs.Decision.{place_of, view_at, own_in, CanDecide, shares_after, decision};

use controller::shares::rebase;
use rules::budget::{Controller, Outcome, Own, Queue, Row};
use rules::cost::{Bio, Model};
use rules::refusals::{Answer, Refusal, Ruling};
use rules::units::Abs;

// Refusals 7 and 8: "its leaf has 8 waiting", "debt + cost > 2^40".
const ROOM: u8 = Controller::QUEUE_ROOM as u8;

const DEBT_MOST: u64 = 1099511627776;

// Where the books of a bio's node stand. A bio may name a node that no tree has: the root, which is no leaf, stands for it.
// Kept (point 1): the contract gives every bio a place, and with the root's one look at the set of leaves gives refusal 4.
#[tactic(auto, unfolding(crate::specs::Decision::place_of))]
pub fn place_of(bio: Bio) -> usize
    ensures { result ≡ place_of bio }
{
    let node = usize::from(bio.node);
    if node < 64 { node } else { 0 }
}

// Refusals 7 and 8: by the answer, how many wait, and what is owed.
#[tactic(auto, unfolding(rules::specs::Refusals::room_checks))]
fn room(answer: Answer, cost: Abs, row: Row, waiting: u8) -> Result<(), Refusal>
    requires { (row.debt.0 ≤ debt_most) × (cost.0 ≤ cost_most) }
    ensures { result ≡ first_of (room_checks answer cost row (length_only waiting)) }
{
    match answer {
        Answer::Issued => Ok(()),
        Answer::Waits if ROOM <= waiting => Err(Refusal::QueueFull),
        Answer::OnDebt if DEBT_MOST < row.debt.0 + cost.0 => Err(Refusal::DebtFull),
        Answer::Waits | Answer::OnDebt => Ok(()),
    }
}

// "4. If the bio waited or went on debt .."
fn ends_donation(answer: Answer) -> bool
    ensures { result ≡ ends_donation answer }
{
    matches!(answer, Answer::Waits | Answer::OnDebt)
}

// "Else it waits.": the cost at which a bio joins its leaf's queue, if it does.
#[tactic(auto, unfolding(crate::specs::OnLeaf::queueing))]
fn queueing_of(answer: Answer, cost: Abs) -> Option<Abs>
    ensures { result ≡ queueing answer cost }
{
    (answer == Answer::Waits).then_some(cost)
}

// A queue with a bio that joins it.
#[tactic(auto, unfolding(rules::specs::Budget::queue_after))]
pub fn joined(id: u32, cost: Abs, queue: Queue) -> Queue
    requires { SoundQueue queue × (queue.len < queue_room) }
    ensures { result ≡ pushed id cost queue }
{
    leaf::submission::queue_after(Ok(Answer::Waits), id, cost, queue)
}

// What an accepted bio leaves in its leaf's row. Request Four: a flush "does not move the leaf's last end nor count as its
// first bio".
fn noted(bio: Bio, row: Row) -> Row
    requires { bio.sector ≤ 2 ^ 48 }
    ensures { result ≡ noted_of bio row }
{
    if cost::is_flush(bio) {
        leaf::row::counted(row)
    } else {
        leaf::row::ended(cost::end_of(bio), row)
    }
}

// Refusals 7 and 8, then the answer, on a leaf that is active.
#[tactic(auto, unfolding(rules::specs::Question::when_active, rules::specs::Question::unless_refused))]
fn when_active(
    forced: bool,
    cost: Abs,
    share: u64,
    row: Row,
    waiting: u8,
) -> Result<Answer, Refusal>
    requires { CanAnswer cost share row }
    ensures { result ≡ when_active forced cost share row waiting }
{
    let answer = leaf::submission::answer_to(forced, cost, share, row, waiting);
    room(answer, cost, row, waiting)?;
    Ok(answer)
}

// What a bio is shown of the state: the sets, the model, and of the books at its place the share, the row and how many wait.
// A queue is not handed about: to copy it takes longer than to judge the bio.
// Kept (point 2): `Own` says of each set whether the node is in it and no more, since nothing else may decide a question
// (`nothing_else_decides`); `own` makes it of what is shown here.
#[derive(Clone, Copy)]
pub struct View {
    pub leaves: u64,
    pub active: u64,
    pub donors: u64,
    pub model: Model,
    pub share: u32,
    pub row: Row,
    pub waiting: u8,
}

impl View {
    pub fn at(c: &Controller, node: usize) -> View
        requires { Sound c.now × (node < nodes_most) }
        ensures { result ≡ view_at node c.now }
    {
        View {
            leaves: c.leaves,
            active: c.active,
            donors: c.donors,
            model: c.model,
            share: c.shares[node],
            row: c.rows[node],
            waiting: c.queues[node].len,
        }
    }

    // What is the node's own of what is shown at its place.
    fn own(self, node: usize) -> Own
        requires { node < nodes_most }
        ensures { result ≡ own_in node self }
    {
        own_of(
            node,
            self.leaves,
            self.active,
            self.model,
            self.share,
            self.row,
            self.waiting,
        )
    }
}

// What is the node's own, by the sets, the model and its books.
pub fn own_of(
    node: usize,
    leaves: u64,
    active: u64,
    model: Model,
    share: u32,
    row: Row,
    waiting: u8,
) -> Own
    requires { node < nodes_most }
    ensures { result ≡ own_of node leaves active model share row waiting }
{
    Own {
        leaf: sets::has(leaves, node),
        active: sets::has(active, node),
        model,
        share,
        row,
        waiting,
    }
}

// Refusals 4 to 6, which come before a bio has a cost.
fn refused(x: Refusal) -> Ruling
    ensures { result ≡ refused_by x }
{
    Ruling {
        answer: Err(x),
        cost: Abs(0),
    }
}

// The decision on a bio, by which submission and question go: refusals 4 to 8 in their order, or the answer. It sees nothing
// but what is the node's own.
// Kept (point 1): what is ruled on a refused bio is a `Ruling` too, whose cost `Bench.Questions` states, so `?` has no error
// to hand on here.
// Inlined, always: what is the node's own is large, and would be written and read again for each question.
#[inline(always)]
pub fn rule(bio: Bio, own: Own) -> Ruling
    requires { CanRule own }
    ensures { result ≡ ruling bio own }
{
    if !own.leaf {
        return refused(Refusal::NoLeaf);
    }
    match cost::cost_of(own.model, own.row, bio) {
        Err(x) => refused(x),
        Ok(cost) => {
            let forced = cost::is_forced(bio);
            // Kept (point 2): the same two arms as in `answer_to`, which asks for a leaf's share; one that sleeps has none.
            // Request Six: "For any other node it is .. otherwise waits or on debt, by the forced flag."
            let answer = if own.active {
                when_active(forced, cost, u64::from(own.share), own.row, own.waiting)
            } else if forced {
                Ok(Answer::OnDebt)
            } else {
                Ok(Answer::Waits)
            };
            Ruling { answer, cost }
        }
    }
}

// What an accepted bio leaves in the row of a leaf that is active.
fn booked(bio: Bio, answer: Answer, cost: Abs, share: u64, row: Row) -> Row
    requires { CanBook bio answer cost share row }
    ensures { result ≡ booked_by answer bio cost share row }
{
    let taken = leaf::submission::row_after(Ok(answer), cost, share, row);
    noted(bio, taken)
}

// What an accepted bio may do to the shares of all: its leaf is to become active before the bio is judged, or all return to
// base shares.
#[derive(Clone, Copy, PartialEq, Eq)]
pub enum Shares {
    Activate,
    Return,
}

// What an accepted bio comes to: the answer, what it does to the shares, if anything, the row at its place after it, and the
// cost at which it joins the queue there, if it does.
// Kept (point 1): every field stands in every case: with `Activate` the row is as it was and nothing joins (`decision`).
#[derive(Clone, Copy)]
pub struct Decision {
    pub answer: Answer,
    pub shares: Option<Shares>,
    pub row: Row,
    pub queue: Option<Abs>,
}

// "4. If the bio waited or went on debt and the leaf is a donor, .."
#[tactic(auto, unfolding(crate::specs::Decision::shares_after))]
fn shares_after(answer: Answer, donors: u64, node: usize) -> Option<Shares>
    requires { node < nodes_most }
    ensures { result ≡ shares_after answer donors node }
{
    (ends_donation(answer) && sets::has(donors, node)).then_some(Shares::Return)
}

// Refusals 4 to 8 in their order, and steps 1 to 4 as far as they touch the bio's own leaf. It is shown a part of the state,
// so that its caller need not hand over all of it; a refused bio leaves the leaf as it was.
pub fn decide(bio: Bio, node: usize, view: View) -> Result<Decision, Refusal>
    requires { CanDecide node view }
    ensures { result ≡ decision bio node view }
{
    let own = view.own(node);
    let ruled = rule(bio, own);
    let answer = ruled.answer?;
    let cost = ruled.cost;
    let row = view.row;
    // "1. An inactive leaf becomes active .." first; until then nothing is booked.
    if !own.active {
        return Ok(Decision {
            answer,
            shares: Some(Shares::Activate),
            row,
            queue: None,
        });
    }
    Ok(Decision {
        answer,
        shares: shares_after(answer, view.donors, node),
        row: booked(bio, answer, cost, u64::from(view.share), row),
        queue: queueing_of(answer, cost),
    })
}

// What a bio comes to in a state as it stands.
fn decide_in(c: &Controller, node: usize, bio: Bio) -> Result<Decision, Refusal>
    requires { Sound c.now × (node ≡ place_of bio) }
    ensures { result ≡ decision bio node (view_at node c.now) }
{
    decide(bio, node, View::at(c, node))
}

// Submit a bio to a state that is lent, which is changed where it stands: to copy it takes longer than all that is worked out
// here. A refused bio leaves it as it was.
#[tactic(auto, using(crate::proofs::Decisions::place_inside))]
pub fn submit_to(c: &mut Controller, bio: Bio) -> Result<Answer, Refusal>
    requires { Sound c.old }
    ensures { (result ≡ (submitted bio c.old).answer) × (c.new ≡ (submitted bio c.old).state) }
{
    let node = place_of(bio);
    let mut decided = decide_in(c, node, bio)?;
    // "1. An inactive leaf becomes active .."
    if decided.shares == Some(Shares::Activate) {
        rebase(c, sets::insert(c.active, node));
        decided = decide_in(c, node, bio)?;
    }
    c.rows[node] = decided.row;
    if let Some(cost) = decided.queue {
        c.queues[node] = joined(bio.id, cost, c.queues[node]);
    }
    // "4. .. the donation ends: all return to base shares."
    if decided.shares == Some(Shares::Return) {
        rebase(c, c.active);
    }
    Ok(decided.answer)
}

// Submit a bio.
pub fn submit(mut c: Controller, bio: Bio) -> Outcome<Answer>
    requires { Sound c }
    ensures value { result ≡ submitted bio c }
    ensures number { answer_paper result.answer ≡ paper_of (submit_checks bio c) (letters_of (would_be c bio)) }
{
    let answer = submit_to(&mut c, bio);
    Outcome { answer, state: c }
}
