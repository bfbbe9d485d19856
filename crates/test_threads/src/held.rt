//! Workers that are held where it tells what the others do: one that has a shard in its hands, one
//! that is the last to have work, and all until all have some.

ghost use Rattle.std.specs.Prelude.{◌≡◌};
ghost use Rattle.test_programs.specs.Listed.{listed_at};

use crate::asserts::{holds, same};
use cfg_model::{Chains, Flow, Memory};
use core_state::WorkKind;
use crew::{Gate, Tally, work};
use std::alloc::Global;
use std::sync::atomic::{AtomicU64, Ordering};
use std::test::Fail;
use test_programs::{Sample, Slot};

/// How often a worker that is held looks whether it may go on.
const TURNS: u64 = 200_000_000;

/// How often the last worker with work looks whether another has left.
const LOOKS: u64 = 20_000_000;

/// Two streams that meet at the return at 4, and two more returns in the same line of 64 bytes.
static LINE: [Slot; 21] = [
    Some((4, Flow::Straight { next: 4 })),
    None,
    Some((2, Flow::Straight { next: 4 })),
    None,
    Some((4, Flow::Return)),
    None,
    None,
    None,
    None,
    None,
    None,
    None,
    None,
    None,
    None,
    None,
    Some((4, Flow::Return)),
    None,
    None,
    None,
    Some((4, Flow::Return)),
];

fn is_set(flag: &AtomicU64) -> bool {
    flag.load(Ordering::SeqCst) != 0
}

fn set(flag: &AtomicU64) {
    flag.store(1, Ordering::SeqCst);
}

/// Whether the flag is set before the last of so many looks.
fn comes(flag: &AtomicU64, looks: u64) -> bool {
    for _ in 0..looks {
        if is_set(flag) {
            return true;
        }
    }
    false
}

/// Makes it certain that a name is put off. One worker has the seeds 0 and 2, the other one 16 and
/// 20. When the first comes to the end 4 from the second of its starts, it asks there whether an
/// instruction stands at the first one, and is held: it has the shard of that end in its hands.
/// Meanwhile the other one tries to parse a start of its own, in vain, and has its other seed to
/// take instead.
#[derive(Drop)]
struct Turn {
    /// One more than the start, of 0 and 2, that was parsed first.
    first: AtomicU64,
    /// The other one of these is being parsed.
    is_second: AtomicU64,
    /// The shard is in the hands of the worker that is held.
    is_held: AtomicU64,
    /// How often the other worker tried a start meanwhile.
    tries: AtomicU64,
    /// It took its other seed after several tries.
    is_put_off: AtomicU64,
    /// A worker was held to the last turn.
    is_late: AtomicU64,
}

impl Turn {
    fn new() -> Self {
        Turn {
            first: AtomicU64::new(0),
            is_second: AtomicU64::new(0),
            is_held: AtomicU64::new(0),
            tries: AtomicU64::new(0),
            is_put_off: AtomicU64::new(0),
            is_late: AtomicU64::new(0),
        }
    }

    /// Holds a worker until the flag is set.
    fn wait(&self, flag: &AtomicU64) {
        if !comes(flag, TURNS) {
            set(&self.is_late);
        }
    }

    /// It is asked whether an instruction stands at `a`.
    fn asked(&self, a: u64) {
        let first = self.first.load(Ordering::SeqCst);
        if first == a.wrapping_add(1) && is_set(&self.is_second) && !is_set(&self.is_held) {
            set(&self.is_held);
            self.wait(&self.is_put_off);
        }
    }

    /// A worker is about to parse the start 0 or 2.
    fn parse(&self, key: u64) {
        if !is_set(&self.first) {
            self.first.store(key.wrapping_add(1), Ordering::SeqCst);
        } else if self.first.load(Ordering::SeqCst) != key.wrapping_add(1) {
            set(&self.is_second);
        }
    }

    /// The other worker is about to take a seed of its own.
    fn take(&self) {
        self.wait(&self.is_held);
        if self.tries.load(Ordering::SeqCst) >= 2 {
            set(&self.is_put_off);
        }
    }
}

impl Gate for Turn {
    fn before(&self, _worker: u32, kind: WorkKind, key: u64) {
        match (kind, key) {
            (WorkKind::Parse, 0 | 2) => self.parse(key),
            (WorkKind::Want, 16 | 20) => self.take(),
            (WorkKind::Parse, 16 | 20) => {
                self.tries.fetch_add(1, Ordering::SeqCst);
            }
            _ => {}
        }
    }
}

/// A program that holds the worker which asks for the first start while the second one is parsed.
#[derive(Drop)]
struct Code<'a> {
    sample: Sample<'a>,
    turn: &'a Turn,
}

impl Chains for Code<'_> {
    ghost map = { λ c. listed_at c.sample.slots.now c.sample.targets.now };

    fn has(&self, a: u64) -> bool {
        self.turn.asked(a);
        self.sample.has(a)
    }

    fn flow(&self, a: u64) -> Flow {
        self.sample.flow(a)
    }

    fn length(&self, a: u64) -> u8 {
        self.sample.length(a)
    }

    fn targets(&self, a: u64) -> Result<Vec<u64>, Memory> {
        self.sample.targets(a)
    }

    fn landing(&self, a: u64) -> Option<u64> {
        self.sample.landing(a)
    }
}

/// A name at whose work tries were lost is put off, and found again: no work is left. Workers that
/// never put one off are late, and such as drop it leave its work.
#[test]
fn names_put_off_are_found_again(rt: HostRuntime) -> Result<(), Fail> {
    let turn = Turn::new();
    let sample = Sample {
        alloc: rt.alloc(),
        slots: &LINE,
        targets: &[],
        seeds: &[0, 2, 16, 20],
    };
    let code = Code {
        sample,
        turn: &turn,
    };
    let state = work(&rt, rt.alloc(), &code, code.sample.seeds(), 2, &turn)?;
    holds(&rt, is_set(&turn.is_put_off) && !is_set(&turn.is_late));
    holds(&rt, state.left(&code, code.sample.seeds()).is_none());
    Ok(())
}

static TWO_RETURNS: [Slot; 5] = [
    Some((4, Flow::Return)),
    None,
    None,
    None,
    Some((4, Flow::Return)),
];

/// Holds the worker that has the seed 0 until another has left, or to the last look.
#[derive(Drop)]
struct Last {
    /// The workers that have a seed.
    at_zero: AtomicU64,
    at_four: AtomicU64,
    /// A worker has left.
    has_left: AtomicU64,
    /// One has left while another was held.
    is_early: AtomicU64,
    ended: AtomicU64,
}

impl Last {
    fn new() -> Self {
        Last {
            at_zero: AtomicU64::new(0),
            at_four: AtomicU64::new(0),
            has_left: AtomicU64::new(0),
            is_early: AtomicU64::new(0),
            ended: AtomicU64::new(0),
        }
    }
}

impl Gate for Last {
    fn before(&self, _worker: u32, kind: WorkKind, key: u64) {
        if kind != WorkKind::Want {
            return;
        }
        let (mine, other) = if key == 0 {
            (&self.at_zero, &self.at_four)
        } else {
            (&self.at_four, &self.at_zero)
        };
        set(mine);
        let both = comes(other, TURNS);
        if key == 0 && (!both || comes(&self.has_left, LOOKS)) {
            set(&self.is_early);
        }
    }

    fn ended(&self, _worker: u32, _tally: &Tally) {
        set(&self.has_left);
        self.ended.fetch_add(1, Ordering::SeqCst);
    }
}

/// A worker that finds no work stays while another has some. One that leaves at its first look has
/// left before the other may go on.
#[test]
fn workers_stay_while_one_works(rt: HostRuntime) -> Result<(), Fail> {
    let code = Sample {
        alloc: rt.alloc(),
        slots: &TWO_RETURNS,
        targets: &[],
        seeds: &[0, 4],
    };
    let gate = Last::new();
    let state = work(&rt, rt.alloc(), &code, code.seeds(), 2, &gate)?;
    holds(&rt, !is_set(&gate.is_early));
    same(&rt, &gate.ended.load(Ordering::SeqCst), &2);
    holds(&rt, state.left(&code, code.seeds()).is_none());
    Ok(())
}

static EIGHT_RETURNS: [Slot; 15] = [
    Some((2, Flow::Return)),
    None,
    Some((2, Flow::Return)),
    None,
    Some((2, Flow::Return)),
    None,
    Some((2, Flow::Return)),
    None,
    Some((2, Flow::Return)),
    None,
    Some((2, Flow::Return)),
    None,
    Some((2, Flow::Return)),
    None,
    Some((2, Flow::Return)),
];

/// Holds each of eight workers at its first call until all have called.
#[derive(Drop)]
struct Eight {
    here: AtomicU64,
    is_late: AtomicU64,
}

impl Eight {
    /// Whether all come before the last look.
    fn all_come(&self) -> bool {
        for _ in 0..TURNS {
            if self.here.load(Ordering::SeqCst) == 0xFF {
                return true;
            }
        }
        false
    }
}

impl Gate for Eight {
    fn before(&self, worker: u32, _kind: WorkKind, _key: u64) {
        let bit = 1 << (worker % 64);
        let before = self.here.fetch_or(bit, Ordering::SeqCst);
        if before & bit == 0 && !self.all_come() {
            set(&self.is_late);
        }
    }
}

/// Eight workers have work at one time, each a seed of its own. A crew in which one of them does
/// nothing, or works after another, is late.
#[test]
fn eight_workers_meet(rt: HostRuntime) -> Result<(), Fail> {
    let code = Sample {
        alloc: rt.alloc(),
        slots: &EIGHT_RETURNS,
        targets: &[],
        seeds: &[0, 2, 4, 6, 8, 10, 12, 14],
    };
    let gate = Eight {
        here: AtomicU64::new(0),
        is_late: AtomicU64::new(0),
    };
    let state = work(&rt, rt.alloc(), &code, code.seeds(), 8, &gate)?;
    holds(&rt, !is_set(&gate.is_late));
    same(&rt, &gate.here.load(Ordering::SeqCst), &0xFF);
    holds(&rt, state.left(&code, code.seeds()).is_none());
    Ok(())
}
