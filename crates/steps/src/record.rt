// One record: 16 and 17 are found by the reader, 18 is decided here, and the record's own refusals where it is carried out.
ghost use Rattle.std.specs.Prelude.{◌≡◌, false, ◌≤◌, length, OnErr};
ghost use Rattle.rules.specs.Numbers.{refusal_room};
ghost use Rattle.rules.specs.Trace.{kind_of, read_at};
ghost use Rattle.rules.specs.Replay.{in_phase, read_step};
ghost use Rattle.rules.specs.Chunks.{runs};
ghost use Rattle.rules.specs.Invariant.{Playing};
ghost use Rattle.steps.specs.OneStep.{DoesStep, Steps, taken};

use crate::setup;
use calls::{LINE_ROOM, run, runs};
use rules::refusals::Refusal;
use rules::replay::{Phase, Replay, Stepped};
use rules::trace::{Found, Record};

// "Setup: 1 node .. After start: .."; "Exactly one model ..".
#[tactic(auto, unfolding(rules::specs::Replay::in_phase))]
fn in_phase(phase: Phase, r: Record) -> bool
    ensures { result ≡ in_phase phase (kind_of r) }
{
    match r {
        Record::Node(_, _) => matches!(phase, Phase::Setup | Phase::Priced),
        Record::Model(_) => matches!(phase, Phase::Setup),
        Record::Start(_) => matches!(phase, Phase::Priced),
        _ => matches!(phase, Phase::Running),
    }
}

// What is read at a place, in a replay that has not stopped, if it is no call in its phase, since such a call is run: why it
// is refused, if it is, or the replay as it is then.
// Kept (point 5): what is taken, and that a refused record changes nothing, is said of each kind, as `record_step` has it.
// Kept (point 7): a record is read from the trace as a value, and no caller has it as a closure.
fn take(read: Result<Option<Found>, Refusal>, s: &mut Replay) -> Result<(), Refusal>
    requires { Playing s.old × (runs s.old.phase read ≡ false) }
    ensures takes { read_step read s.old ≡ taken result s.new }
    ensures kept { OnErr result (s.new ≡ s.old) }
{
    let Some(found) = read? else {
        return Ok(());
    };
    if !in_phase(s.phase, found.item) {
        return Err(Refusal::WrongPhase);
    }
    match found.item {
        Record::Node(parent, weight) => setup::node(parent, weight, s),
        Record::Model(rates) => setup::model(rates, s),
        Record::Start(time) => setup::start(time, s),
        _ => unreachable!(),
    }
}

// The same with its line: "After R in setup, or 16 to 18, it stops".
pub(crate) fn follow(read: Result<Option<Found>, Refusal>, s: &mut Replay, out: &mut [u8]) -> usize
    requires { Playing s.old × (refusal_room ≤ length out.old) × (runs s.old.phase read ≡ false) }
    ensures { DoesStep (read_step read s.old) result s.new out.old out.new }
{
    match take(read, s) {
        Ok(()) => 0,
        Err(x) => {
            s.phase = Phase::Stopped;
            lines::put_refusal(x, out)
        }
    }
}

// One step, over what stands at a place of a trace: a replay that has stopped reads and prints no more.
// Kept (point 5): docs/entries.md names `step` and `feed` with a replay and a lent buffer, which come back apart.
pub fn step(mut s: Replay, trace: &[u8], at: usize, out: &mut [u8]) -> Stepped
    requires { Playing s }
    ensures { Steps (read_at trace.now at) s result out.old out.new }
{
    if out.len() < LINE_ROOM {
        return Stepped {
            printed: None,
            replay: s,
        };
    }
    if matches!(s.phase, Phase::Stopped) {
        return Stepped {
            printed: Some(0),
            replay: s,
        };
    }
    let read = trace::reader::read_from(trace, at);
    let count = if runs(s.phase, read) {
        let ran = run(s.state, trace, at, 1, out);
        s.state = ran.state;
        ran.count
    } else {
        follow(read, &mut s, out)
    };
    Stepped {
        printed: Some(count),
        replay: s,
    }
}
