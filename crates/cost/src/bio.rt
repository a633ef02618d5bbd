// From a bio to its cost, or refusals 5 and 6.
ghost use Rattle.std.specs.Prelude.{◌≡◌, cond, [], ◌∷◌, ◌^◌, ◌≤◌};
ghost use Rattle.rules.specs.Numbers.{page_bytes};
ghost use Rattle.rules.specs.Units.{abs, ceil_of};
ghost use Rattle.rules.specs.Cost.{is_write, is_forced, is_flush, bytes_in_range, bio_in_range, is_near, is_sequential, end_of, cost_at, cost_of};
ghost use Rattle.rules.specs.Refusals.{costing_paper, paper_of, cost_checks};
ghost use Rattle.rules.specs.Entries.{costing};
ghost use Rattle.rules.specs.Invariant.{SoundPrice, SoundModel};

use crate::PAGE_BYTES;
use rules::budget::Row;
use rules::cost::{Bio, Model, Price};
use rules::refusals::Refusal;
use rules::units::Abs;
use units::ceil_div;

// "Bytes are 512 to .."
const SECTOR_BYTES: u32 = 512;

const BYTES_MOST: u32 = 1048576;

const SECTOR_MOST: u64 = 281474976710656;

// "flags have only bit ..": they are below this.
const FLAGS_END: u8 = 4;

// "at most 32,768 sectors .."
const NEAR_MOST: u64 = 32768;

// "Cost .. at most 2^31".
const COST_MOST: u64 = 2147483648;

// Kept (point 1): flags are one byte, as a trace's record has it: `Cost.bio_in_range` judges its number, and `record_bytes`
// writes it.
// Kept (point 2): each of the two bits has the rules' word for it, and one line; a const parameter for the bit would say
// neither.
fn is_write(bio: Bio) -> bool
    ensures { result ≡ is_write bio }
{
    bio.flags % 2 == 1
}

pub fn is_forced(bio: Bio) -> bool
    ensures { result ≡ is_forced bio }
{
    bio.flags / 2 % 2 == 1
}

// Request Four: "A bio with the write flag and 0 bytes .."
pub fn is_flush(bio: Bio) -> bool
    ensures { result ≡ is_flush bio }
{
    is_write(bio) & (bio.bytes == 0)
}

fn bytes_in_range(bytes: u32) -> bool
    ensures { result ≡ bytes_in_range bytes }
{
    (SECTOR_BYTES..=BYTES_MOST).contains(&bytes) & (bytes % SECTOR_BYTES == 0)
}

// A flush "is no longer refused for its bytes".
fn in_range(bio: Bio) -> bool
    ensures { result ≡ bio_in_range bio }
{
    (is_flush(bio) | bytes_in_range(bio.bytes))
        & (bio.sector <= SECTOR_MOST)
        & (bio.flags < FLAGS_END)
}

// "on either side": by the difference of the two, for which no sector or end is too large.
fn is_near(sector: u64, end: u64) -> bool
    ensures { result ≡ is_near sector end }
{
    sector.abs_diff(end) <= NEAR_MOST
}

// "A leaf's first is .."
fn is_sequential(row: Row, bio: Bio) -> bool
    ensures { result ≡ is_sequential row bio }
{
    row.begun & is_near(bio.sector, row.end)
}

// "The end is sector .."
pub fn end_of(bio: Bio) -> u64
    requires { bio.sector ≤ 2 ^ 48 }
    ensures { result ≡ end_of bio }
{
    bio.sector + u64::from(bio.bytes / SECTOR_BYTES)
}

fn pages(bytes: u32) -> u64
    ensures { result ≡ ceil_of bytes page_bytes }
{
    ceil_div(u64::from(bytes), PAGE_BYTES)
}

fn base_of(price: Price, sequential: bool) -> Abs
    ensures { result ≡ abs (cond sequential price.sequential.0 price.random.0) }
{
    if sequential {
        price.sequential
    } else {
        price.random
    }
}

fn price_for(model: Model, bio: Bio) -> Price
    ensures { result ≡ cond (is_write bio) model.write model.read }
{
    if is_write(bio) {
        model.write
    } else {
        model.read
    }
}

// "Cost = base + .."
fn cost_at(price: Price, sequential: bool, bytes: u32) -> Abs
    requires { SoundPrice price × (bytes ≤ 2 ^ 20) }
    ensures { result ≡ cost_at price sequential bytes }
{
    let base = base_of(price, sequential);
    Abs(base.0 + price.page.0 * pages(bytes))
}

// Kept (point 5): model, row and bio are what the rules' `cost_of` and `costing` take; a struct of them would be made for each
// bio, and opened in the next line.
// The cost, before anything is refused. Request Four: a flush "costs one write page, with no base", wherever its leaf's
// last bio ended.
fn cost_by_rule(model: Model, row: Row, bio: Bio) -> Abs
    requires { SoundModel model × (bio.bytes ≤ 2 ^ 20) }
    ensures { result ≡ cost_of model row bio }
{
    if is_flush(bio) {
        model.write.page
    } else {
        let price = price_for(model, bio);
        cost_at(price, is_sequential(row, bio), bio.bytes)
    }
}

// The cost of a bio of a leaf whose books are `row`, in constant time.
pub fn cost_of(model: Model, row: Row, bio: Bio) -> Result<Abs, Refusal>
    requires { SoundModel model }
    ensures value { result ≡ costing model row bio }
    ensures number { costing_paper result ≡ paper_of (cost_checks model row bio) ((cost_of model row bio).0 ∷ []) }
{
    if !in_range(bio) {
        return Err(Refusal::BadBio);
    }
    let cost = cost_by_rule(model, row, bio);
    if COST_MOST < cost.0 {
        return Err(Refusal::TooDear);
    }
    Ok(cost)
}
