// The decoder: what stands at a place of a trace, by the layouts of the rules.
ghost use Rattle.std.specs.Prelude.{◌≡◌, ◌+◌, ◌≤◌, length, take, drop};
ghost use Rattle.rules.specs.Trace.{layout, total, fields_from, record_of, rates_of, bio_of, read_at};
ghost use Rattle.trace.specs.Answers.{ReadOnPaper};
ghost use Rattle.trace.specs.Extents.{extent_at};
ghost use Rattle.trace.specs.Fields.{fields_at};
ghost use Rattle.trace.specs.Kinds.{code};

use crate::kind::Kind;
use crate::layout;
use rules::cost::{Bio, Rates};
use rules::refusals::Refusal;
use rules::trace::{Found, Record};

// A record that is all there: its kind, and the place behind it.
// Kept (point 2): no `Found` of a kind: `Found` is the rules' word for a record that was read, and its contracts say so.
#[derive(Clone, Copy, Debug, PartialEq, Eq)]
pub struct Whole {
    pub kind: Kind,
    pub next: usize,
}

// The bytes of a number, as many as its type has.
fn field<const WIDTH: usize>(body: &[u8], at: usize) -> [u8; WIDTH]
    requires { at + WIDTH ≤ length body.now }
    ensures { result ≡ take WIDTH (drop at body.now) }
{
    <[u8; WIDTH]>::try_from(&body[at..at + WIDTH]).unwrap()
}

// "2 model (six 8-byte .."; "numbers little-endian"
#[tactic(auto, unfolding(rules::specs::Trace::layout))]
fn rates_at(body: &[u8]) -> Rates
    requires { total (layout 2) ≤ length body.now }
    ensures { result ≡ rates_of (fields_from (layout 2) body.now) }
{
    Rates {
        rbps: u64::from_le_bytes(field(body, 0)),
        rseqiops: u64::from_le_bytes(field(body, layout::MODEL_RSEQIOPS)),
        rrandiops: u64::from_le_bytes(field(body, layout::MODEL_RRANDIOPS)),
        wbps: u64::from_le_bytes(field(body, layout::MODEL_WBPS)),
        wseqiops: u64::from_le_bytes(field(body, layout::MODEL_WSEQIOPS)),
        wrandiops: u64::from_le_bytes(field(body, layout::MODEL_WRANDIOPS)),
    }
}

// "4 bio (node 1 .."
#[tactic(auto, unfolding(rules::specs::Trace::layout))]
fn bio_at(body: &[u8]) -> Bio
    requires { total (layout 4) ≤ length body.now }
    ensures { result ≡ bio_of (fields_from (layout 4) body.now) }
{
    Bio {
        node: body[0],
        flags: body[layout::BIO_FLAGS],
        id: u32::from_le_bytes(field(body, layout::BIO_ID)),
        sector: u64::from_le_bytes(field(body, layout::BIO_SECTOR)),
        bytes: u32::from_le_bytes(field(body, layout::BIO_BYTES)),
    }
}

// A record of a known kind by its body.
#[tactic(auto, unfolding(rules::specs::Trace::layout, rules::specs::Trace::fields_from, rules::specs::Trace::record_of))]
fn record_of(kind: Kind, body: &[u8]) -> Record
    requires { total (layout (code kind)) ≤ length body.now }
    ensures { result ≡ record_of (code kind) (fields_from (layout (code kind)) body.now) }
{
    match kind {
        Kind::Node => Record::Node(
            body[0],
            u16::from_le_bytes(field(body, layout::NODE_WEIGHT)),
        ),
        Kind::Model => Record::Model(rates_at(body)),
        Kind::Start => Record::Start(u64::from_le_bytes(field(body, 0))),
        Kind::Bio => Record::Bio(bio_at(body)),
        Kind::Tick => Record::Tick(u64::from_le_bytes(field(body, 0))),
        Kind::Plan => Record::Plan,
        Kind::Vrate => Record::Vrate(u16::from_le_bytes(field(body, 0))),
        Kind::Weight => Record::Weight(
            body[0],
            u16::from_le_bytes(field(body, layout::WEIGHT_WEIGHT)),
        ),
    }
}

// The record of a known kind whose body is whole.
pub fn record_at(trace: &[u8], body: usize, kind: Kind) -> Record
    requires { body + total (layout (code kind)) ≤ length trace.now }
    ensures { result ≡ record_of (code kind) (fields_at (code kind) body trace.now) }
{
    record_of(kind, &trace[body..])
}

// What stands at a place by its kind and its length alone. "At the end it ..": any trace and any place have an answer.
pub fn extent(trace: &[u8], at: usize) -> Result<Option<Whole>, Refusal>
    ensures { result ≡ extent_at trace.now at }
{
    if trace.len() < at {
        return Err(Refusal::CutShort);
    }
    if at == trace.len() {
        return Ok(None);
    }
    let kind = Kind::try_from(trace[at])?;
    let body = at + layout::BODY;
    let len = kind.body_len();
    if len <= trace.len() - body {
        let next = body + len;
        Ok(Some(Whole { kind, next }))
    } else {
        Err(Refusal::CutShort)
    }
}

// And with its numbers.
// Kept (point 5): a trace and a place in it are what this entry is given, as entries.md says; who keeps both has a `Reader`.
pub fn read_at(trace: &[u8], at: usize) -> Result<Option<Found>, Refusal>
    ensures value { result ≡ read_at trace.now at }
    ensures number { ReadOnPaper trace.now at result }
{
    let Some(whole) = extent(trace, at)? else {
        return Ok(None);
    };
    let item = record_at(trace, at + layout::BODY, whole.kind);
    let next = whole.next;
    Ok(Some(Found { item, next }))
}
