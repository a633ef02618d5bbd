// From six rates to a priced model, or refusal 3.
ghost use Rattle.std.specs.Prelude.{◌≡◌, ◌-◌, ◌^◌, ◌≤◌, ◌<◌};
ghost use Rattle.rules.specs.Numbers.{second};
ghost use Rattle.rules.specs.Units.{abs, ceil_of};
ghost use Rattle.rules.specs.Cost.{bps_in_range, iops_in_range, rates_in_range, page_cost, price_of, priced};
ghost use Rattle.rules.specs.Refusals.{pricing_paper, paper_of, rate_checks, model_values};
ghost use Rattle.rules.specs.Entries.{pricing};

use crate::PAGE_BYTES;
use rules::cost::{Model, Price, Rates};
use rules::refusals::Refusal;
use rules::units::Abs;
use units::ceil_div;

// A second in nanoseconds.
const SECOND: u64 = 1000000000;

// "bps is 4,096 to .."
const BPS_LEAST: u64 = 4096;

const BPS_MOST: u64 = 1099511627776;

const IOPS_LEAST: u64 = 1;

const IOPS_MOST: u64 = 1000000000;

fn bps_in_range(bps: u64) -> bool
    ensures { result ≡ bps_in_range bps }
{
    (BPS_LEAST..=BPS_MOST).contains(&bps)
}

fn iops_in_range(iops: u64) -> bool
    ensures { result ≡ iops_in_range iops }
{
    (IOPS_LEAST..=IOPS_MOST).contains(&iops)
}

fn rates_in_range(rates: Rates) -> bool
    ensures { result ≡ rates_in_range rates }
{
    bps_in_range(rates.rbps)
        & iops_in_range(rates.rseqiops)
        & iops_in_range(rates.rrandiops)
        & bps_in_range(rates.wbps)
        & iops_in_range(rates.wseqiops)
        & iops_in_range(rates.wrandiops)
}

// Kept (point 5): a type of rates in range would hold one number, be made at six places of `price` and be opened at once;
// `rates_in_range` says all six.
// "Page cost = CEIL(10^9 .."
fn page_cost(bps: u64) -> Abs
    requires { (0 < bps) × (bps ≤ 2 ^ 40) }
    ensures { result ≡ page_cost bps }
{
    Abs(ceil_div(SECOND * PAGE_BYTES, bps))
}

// "Base = CEIL(10^9 / .."
fn base_cost(page: Abs, iops: u64) -> Abs
    requires { (0 < iops) × (iops ≤ 2 ^ 40) }
    ensures { result ≡ abs (ceil_of second iops - page.0) }
{
    let each = ceil_div(SECOND, iops);
    Abs(each.saturating_sub(page.0))
}

// One direction's price: the page cost is worked out once for both bases.
fn price_of(bps: u64, seqiops: u64, randiops: u64) -> Price
    requires { (0 < bps) × (bps ≤ 2 ^ 40) × (0 < seqiops) × (seqiops ≤ 2 ^ 40) × (0 < randiops) × (randiops ≤ 2 ^ 40) }
    ensures { result ≡ price_of bps seqiops randiops }
{
    let page = page_cost(bps);
    Price {
        page,
        sequential: base_cost(page, seqiops),
        random: base_cost(page, randiops),
    }
}

// Price a model.
pub fn price(rates: Rates) -> Result<Model, Refusal>
    ensures value { result ≡ pricing rates }
    ensures number { pricing_paper result ≡ paper_of (rate_checks rates) (model_values (priced rates)) }
{
    if !rates_in_range(rates) {
        return Err(Refusal::BadRate);
    }
    let read = price_of(rates.rbps, rates.rseqiops, rates.rrandiops);
    let write = price_of(rates.wbps, rates.wseqiops, rates.wrandiops);
    Ok(Model { read, write })
}
