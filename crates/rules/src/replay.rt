// The replay of a trace: how far it has come, the nodes and the rates read so far, and from start on the controller; and
// what a step over one record and over a chunk of a trace answer.
use crate::budget::Controller;
use crate::cost::{Bio, Rates};
use crate::tree::Tree;

#[derive(Clone, Copy, PartialEq, Eq)]
pub enum Phase {
    Setup,
    Priced,
    Running,
    Stopped,
}

// Kept (point 5): that it may play is asked of each step (`Playing`), since `within` of the rules makes a replay of any tree
// and any state, and a theorem on a step says what it keeps (`record_step_plays`).
// Kept (point 1): every field stands in every phase, since a replay that stopped keeps all of them (`stops_at`).
#[derive(Clone, Copy)]
pub struct Replay {
    pub phase: Phase,
    pub tree: Tree,
    pub rates: Rates,
    pub state: Controller,
}

// How many bytes of lines were written, if the lent buffer had room for what one record may print.
// Kept (point 2): a step may lack room (`None`), `Fed` says why it paused, `Ran` has a state: the count alone is common.
#[derive(Clone, Copy)]
pub struct Stepped {
    pub printed: Option<usize>,
    pub replay: Replay,
}

// Why a replay goes no further in what it was lent: it is over, or it wants more bytes of the trace, or more room.
#[derive(Clone, Copy, PartialEq, Eq)]
pub enum Pause {
    Over,
    Bytes,
    Room,
}

// What is left of a chunk begins at `place`; `count` bytes of lines were written.
#[derive(Clone, Copy)]
pub struct Fed {
    pub pause: Pause,
    pub place: usize,
    pub count: usize,
    pub replay: Replay,
}

// What is set by a call that charges nothing: the vrate, or one node's weight.
#[derive(Clone, Copy)]
pub enum Setting {
    Vrate(u16),
    Weight(u8, u16),
}

// What a record asks of the controller that comes after start.
// Kept (point 2): not a `Record`, since a call is none of those before start, and vrate and weight are one case.
#[derive(Clone, Copy)]
pub enum Call {
    Bio(Bio),
    Tick(u64),
    Plan,
    Set(Setting),
}

// Calls in a row: how many bytes of lines they wrote, where the next record begins, and the state there.
#[derive(Clone, Copy)]
pub struct Ran {
    pub count: usize,
    pub place: usize,
    pub state: Controller,
}
