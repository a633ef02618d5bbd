// One side of a comparison: the part of a file that is held. A part is read anew from the first byte that is not passed
// yet, so nothing has to be moved in its buffer, and what is read twice is less than a record.
ghost use Rattle.std.specs.Prelude.{◌≡◌, ◌+◌, ◌^◌, ◌<◌, length};
ghost use Rattle.compare.specs.Parts.{Inside, Refilled, is_cut, wants_bytes, wants_more};

use comparison::Whole;
use comparison::one::extent;
use host::descriptor::fill_at;
use rules::refusals::Refusal;
use std::io::{Error, ErrorKind, Result as IoResult};
use std::os::unix::fs::FileExt;

// No file is longer than an offset can say. So the sum of a place and a buffer's length always fits.
const FARTHEST: usize = 0x7fff_ffff_0000_0000;

// The part that is held begins at `base`, has `filled` bytes, and is passed up to `place`; behind it comes nothing more where
// it is `last`.
// Kept (point 5): that it is inside its buffer (`Inside`) is no invariant: `passed_to` (specs/Parts) makes one of any place,
// and the buffer's length is part of what is said.
// Kept (point 6): the counts stand beside the buffer since the project has no heap: what is held is the front of an array.
#[derive(Clone, Copy, Default)]
pub(crate) struct Held {
    pub base: usize,
    pub filled: usize,
    pub place: usize,
    pub last: bool,
}

impl Held {
    // Where the side is in its trace.
    pub(crate) fn at(self) -> usize
        requires { self.base + self.place < 2 ^ 64 }
        ensures { result ≡ self.base + self.place }
    {
        self.base + self.place
    }

    // Where the last read began: one that failed left what is held, and was of the bytes behind what is passed.
    pub(crate) fn read_from(self, failed: bool) -> usize
        requires { self.base + self.place < 2 ^ 64 }
    {
        if failed { self.at() } else { self.base }
    }

    // The part that begins at the first byte that is not passed yet. Where it cannot be read, what is held stays.
    pub(crate) fn refill<F: FileExt>(&mut self, file: &F, buf: &mut [u8]) -> IoResult<()>
        requires { Inside self.old (length buf.old) }
        ensures { Refilled self.old result self.new (length buf.new) }
    {
        let from = self.at();
        if from > FARTHEST {
            return Err(Error::from(ErrorKind::Other));
        }
        let filled = fill_at(file, from, buf)?;
        self.base = from;
        self.filled = filled;
        self.place = 0;
        self.last = filled < buf.len();
        Ok(())
    }

    // Could more bytes make the next record whole?
    pub(crate) fn wants(self, buf: &[u8]) -> bool
        requires { Inside self (length buf.now) }
        ensures { result ≡ wants_more self buf.now }
    {
        wants_bytes(extent(&buf[..self.filled], self.place), self.last)
    }
}

// Could more bytes make a record whole that is not?
// Kept (point 2): one pattern, as in `steps::chunk` over records; neither crate stands on the other, and one below both would
// hold no more than this line.
fn is_cut(found: Result<Option<Whole>, Refusal>) -> bool
    ensures { result ≡ is_cut found }
{
    matches!(found, Ok(None) | Err(Refusal::CutShort))
}

pub(crate) fn wants_bytes(found: Result<Option<Whole>, Refusal>, last: bool) -> bool
    ensures { result ≡ wants_bytes found last }
{
    is_cut(found) && !last
}
