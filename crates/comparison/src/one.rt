// One trace: what stands at a place of it, by its kind and its length alone, and how far its whole records go.
ghost use Rattle.std.specs.Prelude.{◌≡◌, ◌≤◌, length};
ghost use Rattle.trace.specs.Extents.{extent_at};
ghost use Rattle.comparison.specs.Compare.{records_end, error_by, error_in};

use crate::{Error, Side, Whole};
use rules::refusals::Refusal;
use trace::decoder;

// What stands at a place, as the decoder finds it without the record's numbers, which a comparison has no use for.
pub fn extent(trace: &[u8], at: usize) -> Result<Option<Whole>, Refusal>
    ensures { result ≡ extent_at trace.now at }
{
    decoder::extent(trace, at)
}

// Where the whole records from a place on end.
#[tactic(auto, using(crate::proofs::Laws::Steps::whole_at, crate::proofs::Laws::Steps::records_end_on, crate::proofs::Laws::Steps::records_end_stops))]
pub fn records_end(trace: &[u8], from: usize) -> usize
    requires { from ≤ length trace.now }
    ensures { (result ≡ records_end trace.now from) × (result ≤ length trace.now) }
{
    let mut at = from;
    loop {
        match extent(trace, at) {
            Ok(Some(whole)) => at = whole.next,
            Ok(None) => return at,
            Err(_) => return at,
        }
    }
}

pub fn error_by(
    side: Side,
    found: Result<Option<Whole>, Refusal>,
    place: usize,
) -> Result<(), Error>
    ensures { result ≡ error_by side found place }
{
    found.map(|_| ()).map_err(|refusal| Error {
        side,
        refusal,
        place,
    })
}

#[tactic(auto, unfolding(crate::specs::Compare::error_in))]
pub fn error_in(side: Side, trace: &[u8]) -> Result<(), Error>
    ensures { result ≡ error_in side trace.now }
{
    let at = records_end(trace, 0);
    error_by(side, extent(trace, at), at)
}
