//! What a worker counts of its own work.

/// What a worker counted of its own work, as measurements. It counts by itself: no other worker
/// reads its counts or waits for them. Each begins again at 0 after 2^64 - 1.
#[derive(Clone, Copy, Debug, Default, PartialEq, Eq)]
pub struct Tally {
    /// Tries to take the turn of a shard.
    pub tries: u64,
    /// Those of them that found the shard in other hands. The operation was made again later.
    pub lost: u64,
    /// Work items that it found and kept for itself.
    pub kept: u64,
    /// Names that it put into its deque: of those that it kept, and those that it put off.
    pub put: u64,
    /// Names that it took from those that it kept.
    pub from_kept: u64,
    /// Names that it took from deques, its own or others'.
    pub from_deques: u64,
    /// Those of them that it took from other workers' deques.
    pub stolen: u64,
    /// Operations that were made.
    pub made: u64,
}

impl Tally {
    /// Counts a try to take the turn of a shard.
    pub(crate) fn count_try(&mut self) {
        add_one(&mut self.tries);
    }
}

/// One more; after 2^64 - 1 comes 0.
pub(crate) fn add_one(count: &mut u64) {
    *count = count.wrapping_add(1);
}
