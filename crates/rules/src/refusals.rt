// Refusals and answers. What number each refusal has in the documents is said once, in specs/Refusals.antt.
// Kept (point 5): each entry promises its answer on paper too, as docs/entries.md says: one lemma for each in Laws/Refusals.
ghost use Rattle.std.specs.Prelude.{◌≡◌};
ghost use Rattle.rules.specs.declared.refusals.Refusal.TheVariants.{BadTree};

use crate::tree::Fault;
use crate::units::Abs;

#[derive(Clone, Copy, PartialEq, Eq)]
pub enum Refusal {
    BadTree(Fault),
    ThinTree,
    BadRate,
    NoLeaf,
    BadBio,
    TooDear,
    QueueFull,
    DebtFull,
    TimeBack,
    TimeFar,
    ClockFull,
    PlanDue,
    FewPlaces,
    NothingPassed,
    BadVrate,
    UnknownKind,
    CutShort,
    WrongPhase,
    NotBelowRoot,
    ShortBuffer,
}

// What becomes of a bio that is accepted.
#[derive(Clone, Copy, PartialEq, Eq)]
pub enum Answer {
    Issued,
    Waits,
    OnDebt,
}

// The decision on a bio: the answer, and what the bio costs where it was priced.
// Kept (point 1): the cost of a bio that is priced and then refused stands in the numbers of Bench.Questions.
#[derive(Clone, Copy)]
pub struct Ruling {
    pub answer: Result<Answer, Refusal>,
    pub cost: Abs,
}

// A tree that has a fault is refused for it.
impl From<Fault> for Refusal {
    ghost from_gives = { λ f x. x ≡ BadTree f };

    fn from(f: Fault) -> Refusal {
        Refusal::BadTree(f)
    }
}
