// The encoder: a record's bytes in front of a lent buffer, by the layouts of the rules.
ghost use Rattle.std.specs.Prelude.{◌≡◌, ◌+◌, ◌≤◌, ◌<◌, length};
ghost use Rattle.rules.specs.Trace.{bytes_of, layout, total, kind_of};
ghost use Rattle.trace.specs.Answers.{Writes, WriteOnPaper};
ghost use Rattle.trace.specs.Laid.{laid, body_laid};

use crate::kind::Kind;
use crate::layout;
use rules::cost::{Bio, Rates};
use rules::refusals::Refusal;
use rules::trace::Record;

// The bytes of a number at its place.
fn put(body: &mut [u8], at: usize, bytes: &[u8])
    requires { at + length bytes.now ≤ length body.old }
    ensures { body.new ≡ laid bytes.now at body.old }
{
    body[at..at + bytes.len()].copy_from_slice(bytes);
}

// A byte is a number of one byte.
fn put_byte(body: &mut [u8], at: usize, byte: u8)
    requires { at < length body.old }
    ensures { body.new ≡ laid (bytes_of 1 byte) at body.old }
{
    put(body, at, &[byte]);
}

// "2 model (six 8-byte .."; "numbers little-endian"
#[tactic(auto, unfolding(rules::specs::Trace::layout))]
fn put_rates(rates: Rates, body: &mut [u8])
    requires { total (layout 2) ≤ length body.old }
    ensures { body.new ≡ body_laid 2 (Record.Model rates) body.old }
{
    put(body, 0, &rates.rbps.to_le_bytes());
    put(body, layout::MODEL_RSEQIOPS, &rates.rseqiops.to_le_bytes());
    put(
        body,
        layout::MODEL_RRANDIOPS,
        &rates.rrandiops.to_le_bytes(),
    );
    put(body, layout::MODEL_WBPS, &rates.wbps.to_le_bytes());
    put(body, layout::MODEL_WSEQIOPS, &rates.wseqiops.to_le_bytes());
    put(
        body,
        layout::MODEL_WRANDIOPS,
        &rates.wrandiops.to_le_bytes(),
    );
}

// "4 bio (node 1 .."
#[tactic(auto, unfolding(rules::specs::Trace::layout))]
fn put_bio(bio: Bio, body: &mut [u8])
    requires { total (layout 4) ≤ length body.old }
    ensures { body.new ≡ body_laid 4 (Record.Bio bio) body.old }
{
    put_byte(body, 0, bio.node);
    put_byte(body, layout::BIO_FLAGS, bio.flags);
    put(body, layout::BIO_ID, &bio.id.to_le_bytes());
    put(body, layout::BIO_SECTOR, &bio.sector.to_le_bytes());
    put(body, layout::BIO_BYTES, &bio.bytes.to_le_bytes());
}

// "then a body whose .."
#[tactic(auto, unfolding(rules::specs::Trace::layout))]
fn put_body(r: Record, body: &mut [u8])
    requires { total (layout (kind_of r)) ≤ length body.old }
    ensures { body.new ≡ body_laid (kind_of r) r body.old }
{
    match r {
        Record::Node(parent, weight) => {
            put_byte(body, 0, parent);
            put(body, layout::NODE_WEIGHT, &weight.to_le_bytes());
        }
        Record::Model(rates) => put_rates(rates, body),
        Record::Start(time) | Record::Tick(time) => put(body, 0, &time.to_le_bytes()),
        Record::Bio(bio) => put_bio(bio, body),
        Record::Plan => {}
        Record::Vrate(vrate) => put(body, 0, &vrate.to_le_bytes()),
        Record::Weight(node, weight) => {
            put_byte(body, 0, node);
            put(body, layout::WEIGHT_WEIGHT, &weight.to_le_bytes());
        }
    }
}

// "The writer writes any record whose numbers fit ..": that is every record, by the types of its fields. So what is
// written reads back.
pub fn write_to(r: Record, lent: &mut [u8]) -> Result<usize, Refusal>
    ensures writes { Writes r result lent.old lent.new }
    ensures number { WriteOnPaper r lent.old result }
{
    let kind = Kind::of(r);
    let len = layout::BODY + kind.body_len();
    if lent.len() < len {
        return Err(Refusal::ShortBuffer);
    }
    lent[0] = u8::from(kind);
    put_body(r, &mut lent[layout::BODY..]);
    Ok(len)
}
