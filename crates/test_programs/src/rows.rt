//! Worked programs, at addresses from 0 on.

use crate::sample::{Sample, Slot};
use cfg_model::Flow;
use std::alloc::Global;

/// No instruction starts at the address.
const GAP: Slot = None;

static ROW_6: [Slot; 13] = [
    Some((4, Flow::Straight { next: 4 })),
    GAP,
    GAP,
    GAP,
    Some((4, Flow::Straight { next: 8 })),
    GAP,
    GAP,
    GAP,
    Some((
        4,
        Flow::Branch {
            taken: Some(4),
            fall: Some(12),
        },
    )),
    GAP,
    GAP,
    GAP,
    Some((4, Flow::Return)),
];

/// Row 6: a branch back into its own block.
pub fn row_6(alloc: Global) -> Sample<'static> {
    Sample {
        alloc,
        slots: &ROW_6,
        targets: &[],
        seeds: &[0],
    }
}

static ROW_8: [Slot; 9] = [
    Some((4, Flow::Straight { next: 4 })),
    GAP,
    Some((2, Flow::Straight { next: 4 })),
    GAP,
    Some((
        4,
        Flow::Branch {
            taken: Some(2),
            fall: Some(8),
        },
    )),
    GAP,
    GAP,
    GAP,
    Some((4, Flow::Return)),
];

/// Row 8: a second stream of instructions that is found late, and joins the first one at 4.
pub fn row_8(alloc: Global) -> Sample<'static> {
    Sample {
        alloc,
        slots: &ROW_8,
        targets: &[],
        seeds: &[0],
    }
}

static ROW_9: [Slot; 5] = [
    Some((
        4,
        Flow::Call {
            target: 0,
            fall: Some(4),
        },
    )),
    GAP,
    GAP,
    GAP,
    Some((4, Flow::Return)),
];

/// Row 9: a function that calls itself, and so never returns.
pub fn row_9(alloc: Global) -> Sample<'static> {
    Sample {
        alloc,
        slots: &ROW_9,
        targets: &[],
        seeds: &[0],
    }
}

static ROW_10: [Slot; 17] = [
    Some((
        4,
        Flow::Branch {
            taken: Some(8),
            fall: Some(4),
        },
    )),
    GAP,
    GAP,
    GAP,
    Some((
        4,
        Flow::Call {
            target: 12,
            fall: Some(8),
        },
    )),
    GAP,
    GAP,
    GAP,
    Some((4, Flow::Return)),
    GAP,
    GAP,
    GAP,
    Some((
        4,
        Flow::Call {
            target: 0,
            fall: Some(16),
        },
    )),
    GAP,
    GAP,
    GAP,
    Some((4, Flow::Return)),
];

/// Row 10: two functions that call each other, and return.
pub fn row_10(alloc: Global) -> Sample<'static> {
    Sample {
        alloc,
        slots: &ROW_10,
        targets: &[],
        seeds: &[0],
    }
}

static ROW_12: [Slot; 5] = [
    Some((
        4,
        Flow::Branch {
            taken: None,
            fall: Some(4),
        },
    )),
    GAP,
    GAP,
    GAP,
    Some((4, Flow::Jump { target: 4 })),
];

/// Row 12: a branch that is cut off, and whose fall jumps to itself.
pub fn row_12(alloc: Global) -> Sample<'static> {
    Sample {
        alloc,
        slots: &ROW_12,
        targets: &[],
        seeds: &[0],
    }
}

static ROW_17: [Slot; 13] = [
    Some((
        4,
        Flow::Branch {
            taken: Some(8),
            fall: Some(4),
        },
    )),
    GAP,
    GAP,
    GAP,
    Some((4, Flow::Jump { target: 0 })),
    GAP,
    GAP,
    GAP,
    Some((4, Flow::Return)),
    GAP,
    GAP,
    GAP,
    Some((4, Flow::Jump { target: 0 })),
];

/// Row 17: a jump to the entry of its own function, and one to that entry from another function,
/// which is a tail call.
pub fn row_17(alloc: Global) -> Sample<'static> {
    Sample {
        alloc,
        slots: &ROW_17,
        targets: &[],
        seeds: &[0, 12],
    }
}

static TABLE_JUMP: [Slot; 5] = [
    Some((
        2,
        Flow::Table {
            entries: 3,
            full: true,
            is_open: false,
        },
    )),
    GAP,
    Some((2, Flow::Return)),
    GAP,
    Some((2, Flow::Stop)),
];

/// A table jump with two targets; one is kept twice.
pub fn table_jump(alloc: Global) -> Sample<'static> {
    Sample {
        alloc,
        slots: &TABLE_JUMP,
        targets: &[4, 2, 4],
        seeds: &[0],
    }
}

static CUT_TABLE: [Slot; 5] = [
    Some((
        2,
        Flow::Table {
            entries: 3,
            full: false,
            is_open: false,
        },
    )),
    GAP,
    Some((2, Flow::Return)),
    GAP,
    Some((2, Flow::Stop)),
];

/// The same table jump if its table was cut.
pub fn cut_table(alloc: Global) -> Sample<'static> {
    Sample {
        alloc,
        slots: &CUT_TABLE,
        targets: &[4, 2, 4],
        seeds: &[0],
    }
}
