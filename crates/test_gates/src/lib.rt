//! Gates by which tests hold workers, or count what they do.
//!
//! A contract cannot say that a thread runs. A gate is called before each operation of a worker, so
//! a test that holds one worker until another has come fails if the other never does.
#![tactic(auto)]

use core_state::WorkKind;
use crew::{Gate, Tally};
use std::sync::atomic::{AtomicU64, Ordering};

/// How often a gate looks whether a worker may go on.
const TURNS: u64 = 200_000_000;

/// Whether the word comes to have this many bits before the last turn.
fn reaches(word: &AtomicU64, bits: u32) -> bool {
    for _ in 0..TURNS {
        if word.load(Ordering::SeqCst).count_ones() >= bits {
            return true;
        }
    }
    false
}

/// Holds the first call of each of two workers until the other one has called.
#[derive(Drop)]
pub struct Meeting {
    zero: AtomicU64,
    one: AtomicU64,
    late: AtomicU64,
}

impl Meeting {
    /// A gate that nobody has called.
    pub fn new() -> Self {
        Meeting {
            zero: AtomicU64::new(0),
            one: AtomicU64::new(0),
            late: AtomicU64::new(0),
        }
    }

    /// Whether both workers have called, and none was held to the last turn.
    pub fn both_came(&self) -> bool {
        self.zero.load(Ordering::SeqCst) == 1
            && self.one.load(Ordering::SeqCst) == 1
            && self.late.load(Ordering::SeqCst) == 0
    }
}

impl Gate for Meeting {
    fn before(&self, worker: u32, _kind: WorkKind, _key: u64) {
        let (mine, other) = if worker == 0 {
            (&self.zero, &self.one)
        } else {
            (&self.one, &self.zero)
        };
        if mine.swap(1, Ordering::SeqCst) == 0 && !reaches(other, 1) {
            self.late.store(1, Ordering::SeqCst);
        }
    }
}

/// What worker 1 has to be about to do, three times at different addresses.
#[derive(Clone, Copy)]
enum Wanted {
    /// To follow the edges of a terminator.
    Edges,
    /// Anything at an address below this one.
    Below(u64),
}

impl Wanted {
    fn is(&self, kind: WorkKind, key: u64) -> bool {
        match self {
            Wanted::Edges => kind == WorkKind::Edges,
            Wanted::Below(bound) => key < *bound,
        }
    }
}

/// Holds the first call of worker 0 until worker 1 was about to do work three times at different
/// addresses, which it can only if it steals from worker 0.
#[derive(Drop)]
pub struct Robbery {
    wanted: Wanted,
    called: AtomicU64,
    robbed: AtomicU64,
    late: AtomicU64,
    stolen: AtomicU64,
}

impl Robbery {
    fn wanting(wanted: Wanted) -> Self {
        Robbery {
            wanted,
            called: AtomicU64::new(0),
            robbed: AtomicU64::new(0),
            late: AtomicU64::new(0),
            stolen: AtomicU64::new(0),
        }
    }

    /// A gate that nobody has called, and that waits until worker 1 was about to follow the edges of
    /// three terminators.
    pub fn of_edges() -> Self {
        Robbery::wanting(Wanted::Edges)
    }

    /// A gate that nobody has called, and that waits until worker 1 was about to work at three
    /// addresses below this one, where only worker 0 is given work.
    pub fn below(bound: u64) -> Self {
        Robbery::wanting(Wanted::Below(bound))
    }

    /// Whether worker 1 did so before worker 0 could go on, if that came at all, and stolen work was
    /// counted.
    pub fn took_place(&self) -> bool {
        self.late.load(Ordering::SeqCst) == 0
            && self.robbed.load(Ordering::SeqCst).count_ones() >= 3
            && self.stolen.load(Ordering::SeqCst) >= 1
    }
}

impl Gate for Robbery {
    fn before(&self, worker: u32, kind: WorkKind, key: u64) {
        if worker == 0 {
            if self.called.swap(1, Ordering::SeqCst) == 0 && !reaches(&self.robbed, 3) {
                self.late.store(1, Ordering::SeqCst);
            }
        } else if self.wanted.is(kind, key) {
            self.robbed.fetch_or(1 << (key / 2 % 64), Ordering::SeqCst);
        }
    }

    fn ended(&self, _worker: u32, tally: &Tally) {
        self.stolen.fetch_add(tally.stolen, Ordering::SeqCst);
    }
}

/// Adds up what workers counted, and notes whether the counts of one do not fit together.
#[derive(Drop)]
pub struct Counts {
    ended: AtomicU64,
    put: AtomicU64,
    from_deques: AtomicU64,
    made: AtomicU64,
    odd: AtomicU64,
}

impl Counts {
    /// A gate to which no worker has given its counts.
    pub fn new() -> Self {
        Counts {
            ended: AtomicU64::new(0),
            put: AtomicU64::new(0),
            from_deques: AtomicU64::new(0),
            made: AtomicU64::new(0),
            odd: AtomicU64::new(0),
        }
    }

    /// How many of up to 64 workers have ended.
    pub fn ended(&self) -> u32 {
        self.ended.load(Ordering::SeqCst).count_ones()
    }

    /// Names that workers put into deques.
    pub fn put(&self) -> u64 {
        self.put.load(Ordering::SeqCst)
    }

    /// Names that they took from deques.
    pub fn from_deques(&self) -> u64 {
        self.from_deques.load(Ordering::SeqCst)
    }

    /// Operations that they made.
    pub fn made(&self) -> u64 {
        self.made.load(Ordering::SeqCst)
    }

    /// Whether the counts of each worker fit together.
    pub fn fit(&self) -> bool {
        self.odd.load(Ordering::SeqCst) == 0
    }
}

impl Gate for Counts {
    fn before(&self, _worker: u32, _kind: WorkKind, _key: u64) {}

    fn ended(&self, worker: u32, tally: &Tally) {
        self.ended.fetch_or(1 << (worker % 64), Ordering::SeqCst);
        self.put.fetch_add(tally.put, Ordering::SeqCst);
        self.from_deques
            .fetch_add(tally.from_deques, Ordering::SeqCst);
        self.made.fetch_add(tally.made, Ordering::SeqCst);
        // A name that is put off was lost three times, and is put without having been kept.
        let kept = tally
            .kept
            .saturating_add(tally.lost / 3)
            .saturating_sub(tally.put);
        let taken = tally.from_kept.saturating_add(tally.from_deques);
        if tally.from_kept > kept || tally.made > taken || tally.lost > tally.tries {
            self.odd.store(1, Ordering::SeqCst);
        }
    }
}
