// How often each answer came, how often the leaf slept, gave or had had no bio yet, and how often question and submission
// differed.
use rules::budget::Controller;
use rules::cost::Bio;
use rules::refusals::{Answer, Refusal};
use std::fmt;

#[derive(Clone, Copy, Default)]
pub(crate) struct Tally {
    issued: u64,
    waits: u64,
    on_debt: u64,
    no_leaf: u64,
    bad_bio: u64,
    too_dear: u64,
    queue_full: u64,
    debt_full: u64,
    other: u64,
    asleep: u64,
    gives: u64,
    first: u64,
    differ: u64,
}

fn add_one(n: &mut u64) {
    *n = n.saturating_add(1);
}

impl Tally {
    // What was told, and whether the same was answered then.
    pub(crate) fn count(
        &mut self,
        told: Result<Answer, Refusal>,
        answered: Result<Answer, Refusal>,
    ) {
        add_one(match told {
            Ok(Answer::Issued) => &mut self.issued,
            Ok(Answer::Waits) => &mut self.waits,
            Ok(Answer::OnDebt) => &mut self.on_debt,
            Err(Refusal::NoLeaf) => &mut self.no_leaf,
            Err(Refusal::BadBio) => &mut self.bad_bio,
            Err(Refusal::TooDear) => &mut self.too_dear,
            Err(Refusal::QueueFull) => &mut self.queue_full,
            Err(Refusal::DebtFull) => &mut self.debt_full,
            Err(_) => &mut self.other,
        });
        if told != answered {
            add_one(&mut self.differ);
        }
    }

    // What is special of the leaf that is asked.
    pub(crate) fn notice(&mut self, c: &Controller, bio: Bio) {
        let node = usize::from(bio.node);
        if 64 <= node || !sets::has(c.leaves, node) {
            return;
        }
        if !sets::has(c.active, node) {
            add_one(&mut self.asleep);
            return;
        }
        if sets::has(c.donors, node) {
            add_one(&mut self.gives);
        }
        if !c.rows[node].begun {
            add_one(&mut self.first);
        }
    }
}

impl fmt::Display for Tally {
    fn fmt<W: fmt::Write>(&self, f: &mut fmt::Formatter<W>) -> fmt::Result {
        writeln!(f, "issued {}", self.issued)?;
        writeln!(f, "waits {}", self.waits)?;
        writeln!(f, "on debt {}", self.on_debt)?;
        writeln!(f, "refused 4 {}", self.no_leaf)?;
        writeln!(f, "refused 5 {}", self.bad_bio)?;
        writeln!(f, "refused 6 {}", self.too_dear)?;
        writeln!(f, "refused 7 {}", self.queue_full)?;
        writeln!(f, "refused 8 {}", self.debt_full)?;
        writeln!(f, "any other {}", self.other)?;
        writeln!(f, "of a leaf that sleeps {}", self.asleep)?;
        writeln!(f, "of a donor {}", self.gives)?;
        writeln!(f, "of a leaf that had no bio but a flush {}", self.first)?;
        writeln!(f, "answered otherwise than asked {}", self.differ)
    }
}
