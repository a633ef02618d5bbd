// Request Six, the question: what a bio would be answered, asked before it is sent. "The state stays": a question is lent it,
// copies out what is the bio's node's own, and hands that on. Nothing is written, and no state is handed back.
#![tactic(auto)]

ghost use Rattle.std.specs.Prelude.{◌≡◌};
ghost use Rattle.rules.specs.Budget.{would_be};
ghost use Rattle.rules.specs.Refusals.{answer_paper, letters_of, paper_of, submit_checks};
ghost use Rattle.rules.specs.Question.{asked, question};
ghost use Rattle.rules.specs.Invariant.{Sound};
ghost use Rattle.submit.specs.OnLeaf.{CanRule};

use rules::budget::{Controller, Own};
use rules::cost::Bio;
use rules::refusals::{Answer, Refusal};

// What a bio would be answered, by what is its node's own. This is all that is looked at: no other leaf is to be seen from
// here. It is the answer of the decision by which submission goes too.
#[tactic(auto, unfolding(rules::specs::Question::asked))]
pub fn answer(bio: Bio, own: Own) -> Result<Answer, Refusal>
    requires { CanRule own }
    ensures { result ≡ asked bio own }
{
    submit::rule(bio, own).answer
}

// The question to a state that is lent.
#[tactic(auto, using(submit::proofs::Decisions::place_inside))]
pub fn ask(c: &Controller, bio: Bio) -> Result<Answer, Refusal>
    requires { Sound c.now }
    ensures { (result ≡ question bio c.now) × (answer_paper result ≡ paper_of (submit_checks bio c.now) (letters_of (would_be c.now bio))) }
{
    let node = submit::place_of(bio);
    let own = submit::own_of(
        node,
        c.leaves,
        c.active,
        c.model,
        c.shares[node],
        c.rows[node],
        c.queues[node].len,
    );
    answer(bio, own)
}
