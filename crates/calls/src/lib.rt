// The records after start: a bio, a tick, a plan, a vrate, a weight. Each is one call on the controller and the lines of its
// answer; a refused one changes nothing, and the replay goes on. The state is lent to each call, which changes it where it
// stands: to copy it takes longer than most calls.
#![tactic(auto)]

ghost use Rattle.std.specs.Prelude.{◌≡◌, ◌≤◌, length};
ghost use Rattle.rules.specs.Numbers.{line_room, shares_room, waiting_most};
ghost use Rattle.rules.specs.Replay.{tick_lines, next_place};
ghost use Rattle.rules.specs.Chunks.{call_of, runs as runs_of, run_from};
ghost use Rattle.rules.specs.Entries.{set_by};
ghost use Rattle.rules.specs.Buffers.{Written};
ghost use Rattle.rules.specs.Invariant.{Sound};
ghost use Rattle.calls.specs.Calls.{CanPrint, plan_lines_of, Answers, RanAs};

use controller::start::pace;
use controller::weights::reweigh;
use rules::budget::Controller;
use rules::refusals::Refusal;
use rules::replay::{Call, Phase, Ran, Setting};
use rules::trace::{Found, Record};

const WAITING_MOST: usize = 504;

// 504 releases of 13 bytes: the most that one record prints.
pub const LINE_ROOM: usize = 6552;

// The call that is asked of the controller by what was read, if it is one.
// Kept (point 4): both types are the rules', a crate with no code that decides, so no conversion of theirs can stand here.
#[tactic(auto, unfolding(rules::specs::Chunks::call_of, rules::specs::Chunks::call_by))]
fn call_of(read: Result<Option<Found>, Refusal>) -> Option<Call>
    ensures { result ≡ call_of read }
{
    let Ok(Some(found)) = read else {
        return None;
    };
    match found.item {
        Record::Node(_, _) | Record::Model(_) | Record::Start(_) => None,
        Record::Bio(bio) => Some(Call::Bio(bio)),
        Record::Tick(time) => Some(Call::Tick(time)),
        Record::Plan => Some(Call::Plan),
        Record::Vrate(v) => Some(Call::Set(Setting::Vrate(v))),
        Record::Weight(node, weight) => Some(Call::Set(Setting::Weight(node, weight))),
    }
}

// Is what was read a call in its phase?
#[tactic(auto, unfolding(rules::specs::Chunks::runs, rules::specs::Chunks::is_call))]
pub fn runs(phase: Phase, read: Result<Option<Found>, Refusal>) -> bool
    ensures { result ≡ runs_of phase read }
{
    matches!(phase, Phase::Running) && call_of(read).is_some()
}

// Where the next record begins.
// Kept (point 4): two arms say it as plainly as `ok`, `flatten` and `map_or` in a row.
pub fn next_place(read: Result<Option<Found>, Refusal>, place: usize) -> usize
    ensures { result ≡ next_place read place }
{
    match read {
        Ok(Some(found)) => found.next,
        Ok(None) | Err(_) => place,
    }
}

// What a tick prints: the ids that it released.
// Kept (points 2 and 4): the contract states each byte of a line, which a formatter would not; and one function for all answers
// would take what is given by a closure that holds the buffer which the refusal's line needs.
#[tactic(auto, unfolding(rules::specs::Replay::tick_lines))]
fn put_ticked(answer: Result<usize, Refusal>, ids: &[u32], out: &mut [u8]) -> usize
    requires { CanPrint answer (length ids.now) × (line_room ≤ length out.old) }
    ensures { Written (tick_lines answer ids.now) result out.old out.new }
{
    match answer {
        Ok(released) => lines::put_releases(&ids[..released], out),
        Err(x) => lines::put_refusal(x, out),
    }
}

// What a plan prints: each active leaf with its share.
#[tactic(auto, unfolding(crate::specs::Calls::plan_lines_of))]
fn put_planned(
    answer: Result<(), Refusal>,
    active: u64,
    shares: &[u32; 64],
    out: &mut [u8],
) -> usize
    requires { shares_room ≤ length out.old }
    ensures { Written (plan_lines_of answer active shares.now) result out.old out.new }
{
    match answer {
        Ok(()) => lines::put_shares(active, shares, out),
        Err(x) => lines::put_refusal(x, out),
    }
}

// What is set by a call that charges nothing.
// Kept (point 7): as `answer`.
#[tactic(auto, unfolding(rules::specs::Entries::set_by))]
fn set(c: &mut Controller, setting: Setting) -> Result<(), Refusal>
    requires { Sound c.old }
    ensures { (result ≡ (set_by setting c.old).answer) × (c.new ≡ (set_by setting c.old).state) }
{
    match setting {
        Setting::Vrate(v) => pace(c, v),
        Setting::Weight(node, weight) => reweigh(c, node, weight),
    }
}

// One call and its lines. `ids` is where a tick puts what it releases: nothing is read of it but what the tick at hand wrote.
// Kept (point 7): a call is read from the trace as a value, and no caller has it as a closure.
fn answer(c: &mut Controller, call: Call, ids: &mut [u32], out: &mut [u8]) -> usize
    requires { Sound c.old × (length ids.old ≡ waiting_most) × (line_room ≤ length out.old) }
    ensures { Answers call c.old result out.old out.new c.new }
{
    match call {
        Call::Bio(bio) => {
            let answer = submit::submit_to(c, bio);
            lines::put_answer(answer, bio.id, out)
        }
        Call::Tick(time) => {
            let answer = tick::pass(c, time, ids);
            put_ticked(answer, ids, out)
        }
        Call::Plan => {
            let answer = plan::replan(c);
            put_planned(answer, c.active, &c.shares, out)
        }
        Call::Set(setting) => {
            let answer = set(c, setting);
            lines::put_verdict(answer, out)
        }
    }
}

// Runs at most `most` calls in a row, from a place of the trace on, while the line buffer has room for any call's lines.
// Kept (point 6): there is no heap, so the caller lends the buffer, and `count` is how much of it is written.
pub fn run(mut c: Controller, trace: &[u8], place: usize, most: usize, out: &mut [u8]) -> Ran
    requires { Sound c }
    ensures { RanAs (run_from most trace.now (length out.old) place c) result out.old out.new }
{
    let mut ids = [0u32; WAITING_MOST];
    let mut at = place;
    let mut count: usize = 0;
    for _ in 0..most {
        if out.len() - count < LINE_ROOM {
            break;
        }
        let read = trace::reader::read_from(trace, at);
        let Some(call) = call_of(read) else {
            break;
        };
        count += answer(&mut c, call, &mut ids, &mut out[count..]);
        at = next_place(read, at);
    }
    Ran {
        count,
        place: at,
        state: c,
    }
}
