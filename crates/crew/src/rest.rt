//! How workers wait: for work, and for shards that are in other hands.

use crossbeam_utils::Backoff;
use std::sync::Wait;
use std::sync::atomic::{AtomicU64, Ordering};
use std::time::Duration;

/// How often in a row a worker tries the work of a name at shards that are in other hands before it
/// looks for another one.
const TRIES: u32 = 3;

/// How often in a row a worker that gets no further spins before it rests.
const SPINS: u32 = 7;

/// How long its first rest lasts, in microseconds.
const FIRST_REST: u64 = 50;

/// How often in a row a rest is twice as long as the one before.
const LONGER: u32 = 5;

/// How many workers have work. The number is a hint: nothing is proved of it.
#[derive(Drop)]
pub(crate) struct AtWork {
    count: AtomicU64,
}

impl AtWork {
    /// Nobody has work yet.
    pub(crate) fn new() -> AtWork {
        AtWork {
            count: AtomicU64::new(0),
        }
    }

    /// One more has work.
    pub(crate) fn begin(&self) {
        self.count.fetch_add(1, Ordering::SeqCst);
    }

    /// One fewer has work. If nobody has any then, those who rest go on.
    pub(crate) fn end(&self) {
        if self.count.fetch_sub(1, Ordering::SeqCst) == 1 {
            self.count.wake_all();
        }
    }

    /// Whether nobody has work.
    pub(crate) fn is_over(&self) -> bool {
        self.count.load(Ordering::SeqCst) == 0
    }

    /// Sleeps for that long, or until nobody has work.
    fn rest<R: Wait>(&self, rt: &R, duration: Duration) {
        let count = self.count.load(Ordering::SeqCst);
        if count != 0 {
            self.count
                .park_timeout(rt, (count % (1 << 32)) as u32, duration);
        }
    }
}

/// What one worker does that gets no further: it spins a few times, and then it rests, each time
/// longer. It does not yield: Linux then gives whatever else runs on the processor a whole time
/// slice, while a thread that sleeps loses none of its share.
#[derive(Drop)]
pub(crate) struct Pause {
    spin: Backoff,
    steps: u32,
    /// How often in a row a try of the same name was lost, and the pause after each of them.
    lost: u32,
    retry: Backoff,
}

impl Pause {
    /// A pause that has not begun.
    pub(crate) fn new() -> Pause {
        Pause {
            spin: Backoff::new(),
            steps: 0,
            lost: 0,
            retry: Backoff::new(),
        }
    }

    /// The worker has got further.
    pub(crate) fn reset(&mut self) {
        self.spin.reset();
        self.steps = 0;
        self.lost = 0;
    }

    /// Waits a little after a try that was lost. Whether the same name is to be tried again.
    pub(crate) fn tries_again(&mut self) -> bool {
        if self.lost == 0 {
            self.retry.reset();
        }
        self.retry.spin();
        self.lost = (self.lost.saturating_add(1)) % TRIES;
        self.lost != 0
    }

    /// Waits a little.
    pub(crate) fn wait<R: Wait>(&mut self, rt: &R, at_work: &AtWork) {
        if self.steps < SPINS {
            self.spin.spin();
        } else {
            let doubled = (self.steps - SPINS).min(LONGER);
            at_work.rest(rt, Duration::from_micros(FIRST_REST << doubled));
        }
        self.steps = self.steps.saturating_add(1);
    }
}
