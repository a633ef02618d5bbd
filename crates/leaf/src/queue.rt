// "Each leaf has room ..": a ring, so no bio moves. Places out of use keep what they had.
ghost use Rattle.std.specs.Prelude.{◌≡◌, ◌+◌, ◌%◌, ◌<◌};
ghost use Rattle.rules.specs.Numbers.{queue_room};
ghost use Rattle.rules.specs.Budget.{pushed as pushed_of};

use rules::budget::{Controller, Queue};
use rules::units::Abs;

// The room of a queue, in the width of its head.
const ROOM: u8 = Controller::QUEUE_ROOM as u8;

// Kept (point 5): a queue is a type of rules, and only rules can give it methods. That its head and its length are below its
// room is asked here: as an invariant of the type it would shut out `length_only`, by which the rules say a length.
pub(crate) fn pushed(id: u32, cost: Abs, mut queue: Queue) -> Queue
    requires { (queue.head < queue_room) × (queue.len < queue_room) }
    ensures { result ≡ pushed_of id cost queue }
{
    let at = (usize::from(queue.head) + usize::from(queue.len)) % Controller::QUEUE_ROOM;
    queue.ids[at] = id;
    queue.costs[at] = cost;
    queue.len = queue.len + 1;
    queue
}

// The place behind another.
pub(crate) fn behind(at: u8) -> u8
    requires { at < queue_room }
    ensures { result ≡ (at + 1) % queue_room }
{
    (at + 1) % ROOM
}
