// The reader: a trace and a place in it, kept together; thin over the decoder. A caller that holds no reader, such as
// the replay, reads by `read_from`: it takes a plain slice and a place, and makes a reader of them.
ghost use Rattle.std.specs.Prelude.{◌≡◌};
ghost use Rattle.rules.specs.Trace.{read_at};
ghost use Rattle.trace.specs.Answers.{ReadOnPaper};

use crate::decoder;
use rules::refusals::Refusal;
use rules::trace::Found;

// "The reader keeps the .."
// Kept (point 6): it goes to any place, also back, and answers for a place behind the end; the rest of a slice would only go
// on.
#[derive(Clone, Copy)]
pub struct Reader<'a> {
    pub trace: &'a [u8],
    pub at: usize,
}

impl<'a> Reader<'a> {
    // A reader at the start of a trace.
    pub fn new(trace: &'a [u8]) -> Self
        ensures { (result.trace ≡ trace.entry) × (result.at ≡ 0) }
    {
        Self { trace, at: 0 }
    }

    // What stands at its place.
    pub fn next(self) -> Result<Option<Found>, Refusal>
        ensures value { result ≡ read_at self.entry.trace.now self.entry.at }
        ensures number { ReadOnPaper self.entry.trace.now self.entry.at result }
    {
        decoder::read_at(self.trace, self.at)
    }

    // The same trace at another place: behind the record that was found, or anywhere.
    pub fn moved(self, at: usize) -> Self
        ensures { (result.trace ≡ self.entry.trace) × (result.at ≡ at) }
    {
        Self { at, ..self }
    }
}

// The record at a place, for a caller that holds no reader.
// Kept (point 2): entries.md names it beside `read_at` and the Reader's `next`, with the promise of both.
pub fn read_from(trace: &[u8], at: usize) -> Result<Option<Found>, Refusal>
    ensures value { result ≡ read_at trace.now at }
    ensures number { ReadOnPaper trace.now at result }
{
    Reader::new(trace).moved(at).next()
}
