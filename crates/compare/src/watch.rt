// How far a walk has come, as a person at a terminal is shown it.
use host::said;
use host::said::Watcher;

// Who watches, if anyone does, and how many bytes were read before this walk.
#[derive(Clone, Copy)]
pub(crate) struct Watch {
    pub watcher: Option<Watcher>,
    pub seen: u64,
}

impl Watch {
    // So many bytes were read by this walk.
    pub(crate) fn show(self, read: u64) {
        said::show(self.watcher, self.seen.wrapping_add(read));
    }

    pub(crate) fn clear(self, read: u64) {
        said::clear(self.watcher, self.seen.wrapping_add(read));
    }

    pub(crate) fn clear_before(self, count: usize, read: u64) {
        said::clear_before(count, self.watcher, self.seen.wrapping_add(read));
    }
}
