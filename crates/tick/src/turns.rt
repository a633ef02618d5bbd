// The leaves' turns in an accepted tick: active leaves by rising number, each lent the rest of the release buffer behind
// the ids already written. An inactive leaf's row and queue are not touched.
ghost use Rattle.std.specs.Prelude.{length};
ghost use Rattle.rules.specs.Invariant.{Sound, TickPasses};
ghost use Rattle.tick.specs.Passing.{Released};

use crate::clock::Passing;
use leaf::tick::{released, settle};
use rules::budget::Controller;
use sets::Members;

// "Then for each active ..": its turn, with the buffer lent from `at` on. `at` is how many ids were written so far, and at
// the end it is the answer.
// Kept (point 6): nothing here is on a heap: the ids stand at the front of a lent buffer, and their number beside it.
pub(crate) fn accepted(c: &mut Controller, time: u64, out: &mut [u32]) -> usize
    requires { Sound c.old × TickPasses time (length out.old) c.old }
    ensures { Released result c.new out.new time out.old c.old }
{
    let passing = Passing {
        clock: c.clock,
        time,
    };
    let gain = passing.growth();
    let mut at: usize = 0;
    for n in Members(c.active) {
        let share = u64::from(c.shares[n]);
        let settled = settle(gain, share, c.rows[n], c.queues[n].len);
        if settled.due {
            let left = released(share, settled.row, &c.queues[n], &mut out[at..]);
            c.rows[n] = left.row;
            c.queues[n].head = left.head;
            c.queues[n].len = left.len;
            at += left.count;
        } else {
            c.rows[n] = settled.row;
        }
    }
    c.clock = passing.advanced(gain);
    at
}
