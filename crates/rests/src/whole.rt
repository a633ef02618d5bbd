// A trace that is held whole, in a buffer that is lent: a file is read to its end, or refused where it is longer. What goes wrong
// is said here, and no part of a trace is handed on.
ghost use Rattle.std.specs.Prelude.{◌≤◌, length, IfOk, IfSome};

use crate::said;
use host::arguments::word;
use host::descriptor::{fill, open, read};
use std::io::{Error, Read};

// Why a trace is not held.
#[derive(Clone, Copy)]
enum Unheld {
    TooLong,
    Unread(Error),
}

impl From<Error> for Unheld {
    fn from(why: Error) -> Unheld {
        Unheld::Unread(why)
    }
}

// All bytes up to the end. What a full buffer holds is all of a trace only where no byte follows.
fn whole<'a, R: Read>(from: &mut R, out: &'a mut [u8]) -> Result<&'a [u8], Unheld>
    ensures { IfOk result (λ held. length held.now ≤ length out.old) }
{
    let count = fill(from, out).map_err(Error::from)?;
    let mut more = [0u8; 1];
    if count == out.len() && read(from, &mut more)? > 0 {
        return Err(Unheld::TooLong);
    }
    Ok(&out[..count])
}

// The file of this name. A file that cannot be closed was read all the same.
fn file<'a>(rt: &HostRuntime, name: &[u8], out: &'a mut [u8]) -> Result<&'a [u8], Unheld>
    ensures { IfOk result (λ held. length held.now ≤ length out.old) }
{
    let mut from = open(rt, name)?;
    whole(&mut from, out)
}

// The file that the argument at a place names.
pub(crate) fn hold<'a>(rt: &HostRuntime, place: usize, out: &'a mut [u8]) -> Option<&'a [u8]>
    ensures { IfSome result (λ held. length held.now ≤ length out.old) }
{
    let speaker = said::speaker(rt);
    let mut buf = [0u8; 4096];
    let name = word(rt, place, &mut buf)
        .map_err(|why| said::argument_unread(speaker, why))
        .ok()?;
    match file(rt, name, out) {
        Ok(bytes) => Some(bytes),
        Err(Unheld::TooLong) => {
            said::too_long(speaker, name);
            None
        }
        Err(Unheld::Unread(why)) => {
            speaker.file_unread(name, why);
            None
        }
    }
}
