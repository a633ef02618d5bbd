// What a line says of a call: what the call answered, and what it left. Nothing here knows which answer is due.
use rules::budget::Clock;
use rules::refusals::{Answer, Refusal};
use std::fmt;

// What a call gives where it is accepted.
#[derive(Clone, Copy)]
pub(crate) enum Given {
    Nothing,
    Submitted(Answer),
    Released(usize),
    Wrote(usize),
}

impl fmt::Display for Given {
    fn fmt<W: fmt::Write>(&self, f: &mut fmt::Formatter<W>) -> fmt::Result {
        match self {
            Given::Nothing => write!(f, "accepted"),
            Given::Submitted(Answer::Issued) => write!(f, "issued"),
            Given::Submitted(Answer::Waits) => write!(f, "waits"),
            Given::Submitted(Answer::OnDebt) => write!(f, "on debt"),
            Given::Released(count) => write!(f, "accepted, released {count}"),
            Given::Wrote(count) => write!(f, "wrote {count}"),
        }
    }
}

// That, or the number of the refusal.
#[derive(Clone, Copy)]
pub(crate) struct Answered(pub(crate) Result<Given, Refusal>);

impl fmt::Display for Answered {
    fn fmt<W: fmt::Write>(&self, f: &mut fmt::Formatter<W>) -> fmt::Result {
        match self.0 {
            Ok(given) => write!(f, "{given}"),
            Err(x) => write!(f, "R {}", lines::number_of(x)),
        }
    }
}

// A lent buffer, place by place.
#[derive(Drop)]
struct Buffer<'a, T>(&'a [T]);

impl<T: fmt::Display> fmt::Display for Buffer<'_, T> {
    fn fmt<W: fmt::Write>(&self, f: &mut fmt::Formatter<W>) -> fmt::Result {
        write!(f, "buffer")?;
        for x in self.0 {
            write!(f, " {x}")?;
        }
        Ok(())
    }
}

// A tick, the clock that it leaves, and the buffer that it was lent.
#[derive(Drop)]
pub(crate) struct Ticked<'a> {
    pub(crate) answered: Answered,
    pub(crate) clock: Clock,
    pub(crate) lent: &'a [u32],
}

impl fmt::Display for Ticked<'_> {
    fn fmt<W: fmt::Write>(&self, f: &mut fmt::Formatter<W>) -> fmt::Result {
        // Kept (point 4): a text's braces take a name and no field.
        let time = self.clock.time;
        let vtime = self.clock.vtime.0;
        let buffer = Buffer(self.lent);
        write!(
            f,
            "{}; time {time}, virtual time {vtime}; {buffer}",
            self.answered
        )
    }
}

// A record that is written, and the buffer that is lent for it.
#[derive(Drop)]
pub(crate) struct Written<'a> {
    pub(crate) answered: Answered,
    pub(crate) lent: &'a [u8],
}

impl fmt::Display for Written<'_> {
    fn fmt<W: fmt::Write>(&self, f: &mut fmt::Formatter<W>) -> fmt::Result {
        write!(f, "{}; {}", self.answered, Buffer(self.lent))
    }
}

// The line of a case, on standard output.
pub(crate) fn line(rt: &impl Print, case: &str, said: &impl fmt::Display) {
    let _ = println!(rt; "{case}: {said}");
}
