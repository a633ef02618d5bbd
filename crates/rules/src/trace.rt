// Trace records: a record of each kind, and what reading at a place of a trace finds.
use crate::cost::{Bio, Rates};

#[derive(Clone, Copy)]
pub enum Record {
    Node(u8, u16),
    Model(Rates),
    Start(u64),
    Bio(Bio),
    Tick(u64),
    Plan,
    Vrate(u16),
    Weight(u8, u16),
}

// What reading finds that is a record: it, and the place behind it.
#[derive(Clone, Copy)]
pub struct Found {
    pub item: Record,
    pub next: usize,
}
