// For the benchmark: nothing but questions of one state, and nothing but submissions.
ghost use Rattle.std.specs.Prelude.{◌≡◌};
ghost use Rattle.rules.specs.Invariant.{Sound};
ghost use Rattle.asks.specs.Often.{step_of, varied_by, asked_often};

use crate::states;
use rules::budget::Controller;
use rules::cost::Bio;
use rules::refusals::{Answer, Refusal};

// Kept (point 4): what stands for an answer here means nothing but to this measurement.
fn step_of(answer: Result<Answer, Refusal>) -> u64
    ensures { result ≡ step_of answer }
{
    match answer {
        Ok(Answer::Issued) => 8,
        Ok(Answer::Waits) => 16,
        Ok(Answer::OnDebt) => 32,
        Err(_) => 64,
    }
}

// Each bio hangs on the answer before, so that no two calls are one.
fn varied(bio: Bio, answer: Result<Answer, Refusal>) -> Bio
    ensures { result ≡ varied_by bio answer }
{
    Bio {
        sector: bio.sector ^ step_of(answer),
        ..bio
    }
}

// Questions one after the other, of one state.
// Kept (point 2): the contract says which questions are asked, and a call by a closure would leave that unsaid.
fn asked_often(c: &Controller, bio: Bio, times: u64) -> Bio
    requires { Sound c.now }
    ensures { result ≡ asked_often times c.now bio }
{
    let mut next = bio;
    for _ in 0..times {
        next = varied(next, question::ask(c, next));
    }
    next
}

// Submissions by the entry one after the other, each of the state that the one before handed back.
fn sent_often(mut c: Controller, bio: Bio, times: u64) -> Bio
    requires { Sound c }
{
    let mut next = bio;
    for _ in 0..times {
        let done = submit::submit(c, next);
        next = varied(next, done.answer);
        c = done.state;
    }
    next
}

pub(crate) const QUESTIONS: u64 = 20000000;

pub(crate) const SUBMISSIONS: u64 = 1000000;

// A forced read of a page.
fn read() -> Bio {
    Bio {
        node: 4,
        flags: 2,
        id: 7,
        sector: 0,
        bytes: 4096,
    }
}

// A state in which leaf 4 owes, and each such read goes on debt: a million of them come to a fiftieth of what it may owe.
fn in_debt() -> Controller
    ensures { Sound result }
{
    submit::submit(states::fresh(), read()).state
}

// One in which it has repaid that and saved, and the read would be issued.
fn saved() -> Controller
    ensures { Sound result }
{
    let mut lent = [0u32; 32];
    tick::tick(in_debt(), 1000000000, &mut lent).state
}

// The sector at which the last bio would have come.
pub(crate) fn issued() -> u64 {
    asked_often(&saved(), read(), QUESTIONS).sector
}

pub(crate) fn owing() -> u64 {
    asked_often(&in_debt(), read(), QUESTIONS).sector
}

pub(crate) fn submissions() -> u64 {
    sent_often(in_debt(), read(), SUBMISSIONS).sector
}
