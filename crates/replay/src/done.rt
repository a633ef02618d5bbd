// The mark of a run that ended well.
ghost use Rattle.std.specs.Prelude.{IsOk};

use host::report::{Failed, mark};
use std::rt::Files;

// Writes the mark, for a run that ended well and no other.
pub(crate) fn tell(rt: &impl Files, end: Result<(), Failed>)
    requires { IsOk end }
{
    let _ = mark(rt, b"done\n");
}
