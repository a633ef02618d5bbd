// A chunk of a trace: the records that are whole in it are replayed while the lent buffer has room for any record's
// lines. What is cut at its end may be whole once more bytes come, so 17 is given at the trace's true end only.
ghost use Rattle.std.specs.Prelude.{◌≡◌, ◌≤◌, length};
ghost use Rattle.rules.specs.Replay.{beginning as beginning_of};
ghost use Rattle.rules.specs.Chunks.{is_cut, wants_bytes};
ghost use Rattle.rules.specs.Invariant.{Playing};
ghost use Rattle.steps.specs.Fed.{paused, Feeds, Prints, AtFront};

use crate::record::follow;
use calls::{LINE_ROOM, next_place, run, runs};
use rules::cost::Rates;
use rules::refusals::Refusal;
use rules::replay::{Fed, Pause, Phase, Replay};
use rules::trace::Found;
use rules::tree::Tree;

// Where every replay begins: the root alone, and no model yet.
pub fn beginning() -> Replay
    ensures { (result ≡ beginning_of) × Playing result }
{
    let rates = Rates {
        rbps: 4096,
        rseqiops: 1,
        rrandiops: 1,
        wbps: 4096,
        wseqiops: 1,
        wrandiops: 1,
    };
    let tree = Tree {
        count: 1,
        parents: [0u8; 64],
        weights: [0u16; 64],
    };
    Replay {
        phase: Phase::Setup,
        tree,
        rates,
        state: controller::start::start(tree, rates, 0).state,
    }
}

// Nothing of a record is here, or not all of it.
// Kept (point 2): `compare` asks the same of the kind and length that stand at a place, and each contract is by a definition
// of its own (`Chunks.is_cut`, `Parts.is_cut`).
#[tactic(auto, unfolding(rules::specs::Chunks::is_cut))]
fn is_cut(read: Result<Option<Found>, Refusal>) -> bool
    ensures { result ≡ is_cut read }
{
    matches!(read, Ok(None) | Err(Refusal::CutShort))
}

// More bytes may make a record whole, so 17 is given at the true end alone.
#[tactic(auto, unfolding(rules::specs::Chunks::wants_bytes))]
fn wants_bytes(last: bool, read: Result<Option<Found>, Refusal>) -> bool
    ensures { result ≡ wants_bytes last read }
{
    is_cut(read) && !last
}

// Why the replay stays where it is, if it does. `room` is what is left of the lent buffer.
// Kept (point 5): what was read goes beside the replay here and in `record`: no struct would hold both for longer than a call.
#[tactic(auto, unfolding(crate::specs::Fed::paused, rules::specs::Chunks::halts, rules::specs::Chunks::pause_of, rules::specs::Chunks::is_end))]
fn pause_at(
    last: bool,
    read: Result<Option<Found>, Refusal>,
    room: usize,
    s: &Replay,
) -> Option<Pause>
    ensures { result ≡ paused last read room s.now }
{
    if matches!(s.phase, Phase::Stopped) {
        Some(Pause::Over)
    } else if wants_bytes(last, read) {
        Some(Pause::Bytes)
    } else if matches!(read, Ok(None)) {
        Some(Pause::Over)
    } else if room < LINE_ROOM {
        Some(Pause::Room)
    } else {
        None
    }
}

// For as long as the next record is whole and any record's lines have room: calls go by the run, other records one by one.
// Kept (point 6): there is no heap, so the caller lends the buffer, and `count` is how much of it is written.
pub fn feed(mut s: Replay, trace: &[u8], place: usize, last: bool, out: &mut [u8]) -> Fed
    requires { Playing s }
    ensures { Feeds last trace.now place s result out.old out.new }
{
    let mut at = place;
    let mut count: usize = 0;
    loop {
        let read = trace::reader::read_from(trace, at);
        if let Some(pause) = pause_at(last, read, out.len() - count, &s) {
            return Fed {
                pause,
                place: at,
                count,
                replay: s,
            };
        }
        if runs(s.phase, read) {
            let ran = run(s.state, trace, at, trace.len(), &mut out[count..]);
            count += ran.count;
            at = ran.place;
            s.state = ran.state;
        } else {
            count += follow(read, &mut s, &mut out[count..]);
            at = next_place(read, at);
        }
    }
}

// A whole lent trace.
pub fn whole(trace: &[u8], out: &mut [u8]) -> Option<usize>
    ensures { Prints trace.now result out.old out.new }
{
    let fed = feed(beginning(), trace, 0, true, out);
    matches!(fed.pause, Pause::Over).then_some(fed.count)
}

// What is left of a chunk goes to its buffer's front, and the next bytes of the trace behind it.
pub fn carry(buf: &mut [u8], from: usize, to: usize) -> usize
    requires { (from ≤ to) × (to ≤ length buf.old) }
    ensures { AtFront from to result buf.old buf.new }
{
    buf.copy_within(from..to, 0);
    to - from
}
