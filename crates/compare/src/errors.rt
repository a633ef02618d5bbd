// The first walk: one side from its beginning to its end, or to the record that is an error. Nothing is printed here.
ghost use Rattle.std.specs.Prelude.{◌≡◌, ◌+◌, ◌-◌, ◌^◌, ◌<◌, length};
ghost use Rattle.compare.specs.Parts.{Inside, Scans, OneScan, Finds, walked_as};

use crate::Failure;
use crate::side::{Held, wants_bytes};
use crate::watch::Watch;
use comparison::one::{error_by, extent, records_end};
use comparison::{Side, Whole};
use host::descriptor::TRIES;
use rules::refusals::Refusal;
use std::io;
use std::os::unix::fs::FileExt;

// Passes the whole records that are held, and answers what stands where they end, unless more bytes could make it whole.
fn scanned(held: &mut Held, buf: &[u8]) -> Option<Result<Option<Whole>, Refusal>>
    requires { Inside held.old (length buf.now) }
    ensures { Scans held.old buf.now result held.new }
{
    let part = &buf[..held.filled];
    held.place = records_end(part, held.place);
    let found = extent(part, held.place);
    if wants_bytes(found, held.last) {
        return None;
    }
    Some(found)
}

// One round: a part is read, and its whole records are passed.
fn round<F: FileExt>(
    held: &mut Held,
    file: &F,
    buf: &mut [u8],
) -> io::Result<Option<Result<Option<Whole>, Refusal>>>
    requires { Inside held.old (length buf.old) }
    ensures { OneScan held.old result held.new buf.new }
{
    held.refill(file, buf)?;
    Ok(scanned(held, buf))
}

// Round by round, up to where the whole records end.
// Kept (point 2): this loop, that of the other walk and that of `replay` were tried as one that is lent the round as a closure.
// What a round requires of what the closure holds, and what holds of it behind the loop, didn't close.
#[tactic(auto, using(crate::proofs::Scan::tries_on, crate::proofs::Scan::tries_found, crate::proofs::Scan::tries_failed, crate::proofs::Scan::tries_end))]
fn run<F: FileExt>(
    held: &mut Held,
    file: &F,
    watch: Watch,
    buf: &mut [u8],
) -> io::Result<Result<Option<Whole>, Refusal>>
    requires { Inside held.old (length buf.old) }
    ensures inside { Inside held.new (length buf.new) }
    ensures finds { Finds (2 ^ 64 - 1) held.old result held.new }
{
    for _tries in 0..TRIES {
        let scanned = round(held, file, buf);
        watch.show(held.read_from(scanned.is_err()) as u64);
        match scanned? {
            Some(found) => return Ok(found),
            None => {}
        }
    }
    Err(io::Error::from(io::ErrorKind::Other))
}

// How a walk over one side ended: its length, its error where it has one, or that it could not be read.
fn ended(
    side: Side,
    found: io::Result<Result<Option<Whole>, Refusal>>,
    held: Held,
) -> Result<usize, Failure>
    requires { held.base + held.place < 2 ^ 64 }
    ensures { result ≡ walked_as side found held }
{
    let found = found.map_err(|why| Failure::Unread(side, why))?;
    let length = held.at();
    error_by(side, found, length).map_err(Failure::Erred)?;
    Ok(length)
}

// The walk over one side.
pub(crate) fn walk<F: FileExt>(side: Side, file: &F, watch: Watch) -> Result<usize, Failure> {
    let mut buf = [0u8; 65536];
    let mut held = Held::default();
    let found = run(&mut held, file, watch, &mut buf);
    watch.clear(held.read_from(found.is_err()) as u64);
    ended(side, found, held)
}
