// The loop: bytes come in and lines go out, round by round, in two buffers of a fixed size, however long the trace is. All
// lines are written before the next read, which may wait.
//
// What is proved of each round (`specs/Rounds`): what it replays, which lines then stand at the front of the line buffer,
// that the loop goes on only where its writes took as many bytes as these lines have, what waits after it, and that a run
// ends well only behind rounds from the beginning on, by the last of which the replay is over. No contract can say which bytes
// a write takes or a read brings, and so not that the rounds are those of this trace. So four things are for a person to read:
// that `round` hands `write` the front of the line buffer, that `host::descriptor::write` and `read` hand the system what they
// are lent, that `replay_from` begins at the beginning and goes from round to round, and that it answers how its last round
// ended.
ghost use Rattle.std.specs.Prelude.{◌≡◌, ◌-◌, ◌^◌, ◌≤◌, true, length, OnOk, Ok};
ghost use Rattle.rules.specs.Invariant.{Playing};
ghost use Rattle.replay.specs.Rounds.{Stands, Replayed, LeftOver, Onward, OneRound, Ends, EndsBy, FromTheBeginning};

use host::descriptor::{TRIES, read, write};
use host::said::{Watcher, clear, clear_before, show};
use rules::replay::{Fed, Pause, Replay};
use std::io::{Error, ErrorKind, Read, Write};
use steps::chunk::{beginning, carry, feed};

// Why a run did not come to its end.
#[derive(Clone, Copy)]
pub(crate) enum Failure {
    Unread(Error),
    Unwritten(Error),
}

// Where a run stands. The first `filled` bytes of the chunk buffer wait to be replayed, and if `last`, no more will come
// after them; `total` bytes were read so far, and the writes of the last round took `put` bytes of its lines.
// Kept (point 6): the count stands beside the buffer since the project has no heap: what waits is the front of an array.
#[derive(Clone, Copy)]
pub(crate) struct Standing {
    pub replay: Replay,
    pub filled: usize,
    pub last: bool,
    pub total: u64,
    pub put: usize,
}

// One read, whose bytes go behind those that wait.
#[tactic(auto, using(crate::proofs::Round::stays_so))]
fn more<R: Read>(
    s: &mut Standing,
    from: &mut R,
    watcher: Option<Watcher>,
    chunk: &mut [u8],
) -> Result<(), Failure>
    requires { Stands s.old (length chunk.old) }
    ensures { Onward s.old chunk.old s.new chunk.new }
{
    let count = read(from, &mut chunk[s.filled..]).map_err(Failure::Unread)?;
    s.filled += count;
    s.last = count == 0;
    s.total = s.total.wrapping_add(count as u64);
    show(watcher, s.total);
    Ok(())
}

// What the pause asks for. Is the replay over?
fn onward<R: Read>(
    pause: Pause,
    s: &mut Standing,
    from: &mut R,
    watcher: Option<Watcher>,
    chunk: &mut [u8],
) -> Result<bool, Failure>
    requires { Stands s.old (length chunk.old) }
    ensures stands { Onward s.old chunk.old s.new chunk.new }
    ensures over { result ≡ Ok true → pause ≡ Pause.Over }
{
    if pause == Pause::Bytes {
        more(s, from, watcher, chunk)?;
    }
    Ok(pause == Pause::Over)
}

// Replays the bytes that wait, as far as they go.
fn replayed(s: &Standing, chunk: &[u8], out: &mut [u8]) -> Fed
    requires { Stands s.now (length chunk.now) }
    ensures { Replayed s.now chunk.now out.old out.new result }
{
    feed(s.replay, &chunk[..s.filled], 0, s.last, out)
}

// What is left of these bytes goes to the buffer's front.
#[tactic(auto, using(crate::proofs::Round::left_in_front))]
fn left_over(fed: Fed, s: &mut Standing, chunk: &mut [u8])
    requires { Playing fed.replay × (fed.place ≤ s.old.filled) × (s.old.filled ≤ length chunk.old) }
    ensures { LeftOver fed s.old chunk.old s.new chunk.new }
{
    s.replay = fed.replay;
    s.filled = carry(chunk, fed.place, s.filled);
}

// One round: what waits is replayed, its lines are written, and more is read if that is what the replay wants. Is the replay
// over then?
// Kept (point 5): the buffers stay parameters, so `Stands` is asked of a run with its chunk, since the clauses speak of each by
// itself, before and after, and a struct of borrowed slices would have to be lent anew at each call.
fn round<R: Read, W: Write>(
    s: &mut Standing,
    from: &mut R,
    to: &mut W,
    watcher: Option<Watcher>,
    chunk: &mut [u8],
    out: &mut [u8],
) -> Result<bool, Failure>
    requires { Stands s.old (length chunk.old) }
    ensures { OneRound s.old chunk.old (length out.old) result s.new chunk.new }
{
    let fed = replayed(s, chunk, out);
    let count = fed.count;
    clear_before(count, watcher, s.total);
    let put = write(to, &out[..count]);
    left_over(fed, s, chunk);
    s.put = put.map_err(|short| Failure::Unwritten(short.why))?;
    onward(fed.pause, s, from, watcher, chunk)
}

// Round by round, up to the one by which the replay is over. Where it could still go on, the rest of its trace is unread.
// Kept (point 2): this loop and those of the two walks of `compare` were tried as one that is lent the round as a closure. What
// a round requires of what the closure holds, and what holds of it behind the loop, didn't close.
#[tactic(auto, using(crate::proofs::Round::goes_on, crate::proofs::Round::is_over, crate::proofs::Round::tries_on, crate::proofs::Round::tries_well, crate::proofs::Round::tries_failed, crate::proofs::Round::tries_end))]
fn run<R: Read, W: Write>(
    s: &mut Standing,
    from: &mut R,
    to: &mut W,
    watcher: Option<Watcher>,
    chunk: &mut [u8],
    out: &mut [u8],
) -> Result<(), Failure>
    requires { Stands s.old (length chunk.old) }
    ensures over { OnOk result (Ends s.old chunk.old s.new chunk.new) }
    ensures ends { EndsBy (2 ^ 64 - 1) s.old chunk.old result }
{
    for _tries in 0..TRIES {
        if round(s, from, to, watcher, chunk, out)? {
            return Ok(());
        }
    }
    Err(Failure::Unread(Error::from(ErrorKind::Other)))
}

pub(crate) fn replay_from<R: Read, W: Write>(
    from: &mut R,
    to: &mut W,
    watcher: Option<Watcher>,
) -> Result<(), Failure>
    ensures { OnOk result FromTheBeginning }
{
    let mut chunk = [0u8; 65536];
    let mut out = [0u8; 65536];
    let mut s = Standing {
        replay: beginning(),
        filled: 0,
        last: false,
        total: 0,
        put: 0,
    };
    let end = run(&mut s, from, to, watcher, &mut chunk, &mut out);
    clear(watcher, s.total);
    end
}
