// Cost of a bio: the rates that a model is made of, the prices worked out from them, and the bio that is asked for.
use crate::units::Abs;

// The six rates, in the order of a trace's model record.
#[derive(Clone, Copy)]
pub struct Rates {
    pub rbps: u64,
    pub rseqiops: u64,
    pub rrandiops: u64,
    pub wbps: u64,
    pub wseqiops: u64,
    pub wrandiops: u64,
}

// What one direction costs: each page, and once for each bio a base, by where the bio lies.
#[derive(Clone, Copy)]
pub struct Price {
    pub page: Abs,
    pub sequential: Abs,
    pub random: Abs,
}

#[derive(Clone, Copy)]
pub struct Model {
    pub read: Price,
    pub write: Price,
}

// One request. Each of its numbers may be any that its width can hold.
// Kept (point 1): flags are a number, since any byte of a trace is read and written back, and refusal 5 speaks of those with
// more than two bits.
#[derive(Clone, Copy)]
pub struct Bio {
    pub node: u8,
    pub flags: u8,
    pub id: u32,
    pub sector: u64,
    pub bytes: u32,
}
