// One call on a state that is lent, which stays sound, and what its line says.
ghost use Rattle.rules.specs.Invariant.{Sound};

use crate::say::{Answered, Given, Ticked, Written};
use rules::budget::Controller;
use rules::cost::Bio;
use rules::trace::Record;

pub(crate) fn vrate(c: &mut Controller, v: u16) -> Answered
    requires { Sound c.old }
    ensures { Sound c.new }
{
    Answered(controller::start::pace(c, v).map(|_| Given::Nothing))
}

pub(crate) fn submit(c: &mut Controller, bio: Bio) -> Answered
    requires { Sound c.old }
    ensures { Sound c.new }
{
    Answered(submit::submit_to(c, bio).map(Given::Submitted))
}

pub(crate) fn tick<'a>(c: &mut Controller, time: u64, lent: &'a mut [u32]) -> Ticked<'a>
    requires { Sound c.old }
    ensures { Sound c.new }
{
    let answered = Answered(tick::pass(c, time, lent).map(Given::Released));
    Ticked {
        answered,
        clock: c.clock,
        lent,
    }
}

pub(crate) fn write(r: Record, lent: &mut [u8]) -> Written<'_> {
    let answered = Answered(trace::encoder::write_to(r, lent).map(Given::Wrote));
    Written { answered, lent }
}
