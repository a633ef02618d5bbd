// Units that must not be mixed: two kinds of number that no sum, order or call can confuse.

// Absolute cost: nanoseconds of device occupancy.
#[derive(Clone, Copy, PartialEq, Eq, PartialOrd, Ord)]
pub struct Abs(pub u64);

// Relative cost and budget: nanoseconds of virtual time.
#[derive(Clone, Copy, PartialEq, Eq, PartialOrd, Ord)]
pub struct Virt(pub u64);
