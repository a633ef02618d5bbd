// The words that a program was started with, of which the first is its own name. A word is bytes, and need not be text.
ghost use Rattle.std.specs.Prelude.{◌≡◌, ◌≤◌, ◌↔◌, true, [], ◌∷◌, length, IfOk};

use crate::failure::Trouble;
use std::env::{Env, FillError};
use std::io::Result;

pub fn count(rt: &impl Env) -> usize {
    let mut first = [0u8; 1];
    for place in 0..usize::MAX {
        if let Err(FillError::NotPresent) = rt.arg(place, &mut first) {
            return place;
        }
    }
    usize::MAX
}

// The word at a place, which is put at the front of the buffer.
pub fn word<'a>(rt: &impl Env, place: usize, buf: &'a mut [u8]) -> Result<&'a mut [u8]>
    ensures { IfOk result (λ w. length w.now ≤ length buf.old) }
{
    let count = rt.arg(place, buf).map_err(Trouble::from)?;
    Ok(&mut buf[..count])
}

// Does this word name standard input?
pub fn is_input(name: &[u8]) -> bool
    ensures { (result ≡ true) ↔ (name.now ≡ 45 ∷ []) }
{
    name == b"-".as_slice()
}
