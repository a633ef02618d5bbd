// The generated run: before each submission the same is asked, of the same state.
ghost use Rattle.rules.specs.Invariant.{Sound};

use crate::draws::Move;
use crate::tally::Tally;
use crate::{draws, states};
use rules::budget::Controller;
use rules::cost::Bio;

// How many moves a run has.
const MOVES: usize = 60000;

fn sent(c: &mut Controller, bio: Bio, tally: &mut Tally)
    requires { Sound c.old }
    ensures { Sound c.new }
{
    tally.notice(c, bio);
    let told = question::ask(c, bio);
    let answered = submit::submit_to(c, bio);
    tally.count(told, answered);
}

// Kept (point 7): a move is drawn as a value before it is made.
fn moved(c: &mut Controller, next: Move, tally: &mut Tally)
    requires { Sound c.old }
    ensures { Sound c.new }
{
    match next {
        Move::Send(bio) => sent(c, bio, tally),
        Move::Tick(elapsed) => {
            let time = c.clock.time.saturating_add(elapsed);
            let mut lent = [0u32; 32];
            let _ = tick::pass(c, time, &mut lent);
        }
        Move::Plan => {
            let _ = plan::replan(c);
        }
    }
}

pub(crate) fn counts() -> Tally {
    let mut c = states::fresh();
    let mut draw = draws::FIRST;
    let mut tally = Tally::default();
    for i in 0..MOVES {
        draw = draws::next(draw);
        moved(&mut c, draws::drawn(draw, i), &mut tally);
    }
    tally
}
