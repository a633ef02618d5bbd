// Budget and submission: one leaf's row and queue, the clock, and the controller that holds them all by value.
ghost use Rattle.std.specs.Prelude.{◌≡◌};
ghost use Rattle.rules.specs.Numbers.{whole, queue_room, share_floor};
ghost use Rattle.rules.specs.Budget.{fresh_with, empty_queue, empty_row};

use crate::cost::Model;
use crate::refusals::Refusal;
use crate::tree::Tree;
use crate::units::{Abs, Virt};

// The waiting bios of one leaf, oldest first: a ring of which `len` places from `head` on are in use.
// Kept (point 6): document 01 asks for queues by value, each with its own arrays of eight ids and costs; nothing here is on a
// heap.
#[derive(Clone, Copy)]
pub struct Queue {
    pub ids: [u32; Controller::QUEUE_ROOM],
    pub costs: [Abs; Controller::QUEUE_ROOM],
    pub head: u8,
    pub len: u8,
}

// The books of one leaf. `end` is where its last accepted bio ended that was no flush, if `begun` says that there was one;
// `accepted` says whether any bio was accepted since the last plan; `usage` is what it was charged since then.
// Kept (point 1): `begun` beside `end`, since the numbers of Bench.Questions and the edit `question_priced_as_begun` speak of a
// row that has an end and has not begun, which an Option of the end does not have.
#[derive(Clone, Copy)]
pub struct Row {
    pub budget: Virt,
    pub debt: Abs,
    pub usage: Abs,
    pub end: u64,
    pub begun: bool,
    pub accepted: bool,
}

// The last accepted time, virtual time, E (virtual time since the last plan), vrate, and the hundredths of virtual time
// that are left over.
#[derive(Clone, Copy)]
pub struct Clock {
    pub time: u64,
    pub vtime: Virt,
    pub since: Virt,
    pub vrate: u16,
    pub remainder: u8,
}

// `leaves`, `active` and `donors` are sets of nodes: bit n is node n. An inactive leaf has share 0.
// Kept (point 5): that a state is sound is asked of each call (`Sound`) and is no invariant of the type, since the rules and
// their numbers (Bench.Edges, Bench.Questions) speak of states that no call gives.
// Kept (point 6): document 01 asks for sets that are bits of a u64. Shares, rows and queues are arrays of their own, since a
// plan and an activation give all shares at once (`base_shares`, `donated`), and theorems say so of `shares` as a whole.
#[derive(Clone, Copy)]
pub struct Controller {
    pub tree: Tree,
    pub model: Model,
    pub clock: Clock,
    pub leaves: u64,
    pub active: u64,
    pub donors: u64,
    pub shares: [u32; 64],
    pub rows: [Row; 64],
    pub queues: [Queue; 64],
}

// Request Six: what a question is shown, since it ".. looks only at that leaf's own row and the model": whether the node is
// a leaf and active, the model, and of the node's books the share, the row and how many wait.
// Kept (point 1): `leaf` and `active` are flags, since the numbers of Bench.Questions speak of books of a node that is neither.
#[derive(Clone, Copy)]
pub struct Own {
    pub leaf: bool,
    pub active: bool,
    pub model: Model,
    pub share: u32,
    pub row: Row,
    pub waiting: u8,
}

// The new state beside the answer: what a call gives where it is accepted, or why it is refused.
// Kept (point 1): a refused call hands a state back too, start a fresh one (`a_refused_start_has_no_leaf`) and any other the
// one that came.
#[derive(Clone, Copy)]
pub struct Outcome<T> {
    pub answer: Result<T, Refusal>,
    pub state: Controller,
}

impl Queue {
    // Kept (point 4): `empty_queue` and `empty_row` are what these two promise; a derived default promises nothing.
    pub fn empty() -> Self
        ensures { result ≡ empty_queue }
    {
        Self {
            ids: [0u32; Controller::QUEUE_ROOM],
            costs: [Abs(0); Controller::QUEUE_ROOM],
            head: 0,
            len: 0,
        }
    }
}

impl Row {
    pub fn empty() -> Self
        ensures { result ≡ empty_row }
    {
        Self {
            budget: Virt(0),
            debt: Abs(0),
            usage: Abs(0),
            end: 0,
            begun: false,
            accepted: false,
        }
    }
}

impl Controller {
    pub const WHOLE: u64 = 1073741824;

    pub const QUEUE_ROOM: usize = 8;

    pub const SHARE_FLOOR: u64 = 1024;

    // The fresh state over a tree and its set of leaves, which is worked out once.
    pub fn new(tree: Tree, leaves: u64, model: Model, time: u64) -> Self
        ensures value { result ≡ fresh_with leaves tree model time }
        ensures numbers { (Controller.WHOLE ≡ whole) × (Controller.QUEUE_ROOM ≡ queue_room) × (Controller.SHARE_FLOOR ≡ share_floor) }
    {
        Self {
            tree,
            model,
            clock: Clock {
                time,
                vtime: Virt(0),
                since: Virt(0),
                vrate: 100,
                remainder: 0,
            },
            leaves,
            active: 0,
            donors: 0,
            shares: [0u32; 64],
            rows: [Row::empty(); 64],
            queues: [Queue::empty(); 64],
        }
    }
}
