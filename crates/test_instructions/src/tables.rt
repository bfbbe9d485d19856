//! The calls on small files.

use crate::asserts::same_at;
use crate::further::{Further, counted, push_further};
use elf_image::{ElfError, Image};
use jump_table::{Table, entry_target, find_table, target_of};
use std::alloc::{AllocError, Global};
use std::process::Abort;
use std::test::Fail;

/// Code at 10000 and read-only data at 20000 (hexadecimal), filled up with zeros, and a jump in it.
#[derive(Clone, Copy)]
pub(crate) struct Case {
    pub(crate) code: [u32; 16],
    pub(crate) data: [u32; 16],
    /// Sections after those two.
    pub(crate) further: &'static [Further],
    pub(crate) jump: u64,
    /// Its table, with the targets of the first and the last entry.
    pub(crate) want: Option<(Table, u64, u64)>,
}

/// The header of a file whose sections stand at 192, without its last word, their number; and those
/// sections: none, 64 bytes of code and 64 bytes of data.
const HEADER: [u32; 15] = [
    0x464C457F, 0x00010102, 0, 0, 0x00F30002, 1, 0x10000, 0, 0, 0, 192, 0, 0, 0x40, 0x400000,
];

const SECTIONS: [u32; 48] = [
    0, 0, 0, 0, 0, 0, 0, 0, 0, 0, 0, 0, 0, 0, 0, 0, 0, 1, 6, 0, 0x10000, 0, 64, 0, 64, 0, 0, 0, 0,
    0, 0, 0, 0, 1, 2, 0, 0x20000, 0, 128, 0, 64, 0, 0, 0, 0, 0, 0, 0,
];

/// Eight words, a bound test `bltu` at 10004 after `addi x15, x0, 7`, and four returns.
pub(crate) const BOUNDED: Case = Case {
    code: [
        0x00700793, 0x02A7E263, 0x00020737, 0x00251513, 0x00E50533, 0x00052783, 0x00E787B3,
        0x00078067, 0x00008067, 0x00008067, 0x00008067, 0x00008067, 0, 0, 0, 0,
    ],
    data: [
        0xFFFF0020, 0xFFFF0020, 0xFFFF0020, 0xFFFF0020, 0xFFFF0020, 0xFFFF0020, 0xFFFF0020,
        0xFFFF0024, 0xFFFF002C, 0, 0, 0, 0, 0, 0, 0,
    ],
    further: &[],
    jump: 0x1001C,
    want: Some((
        Table {
            base: 0x20000,
            width: 4,
            count: 8,
            bound: 8,
            add: 0x20000,
            is_open: false,
        },
        0x10020,
        0x10024,
    )),
};

/// Two words, and nothing before the shift.
pub(crate) const OPEN: Case = Case {
    code: [
        0x00020737, 0x00251513, 0x00E50533, 0x00052783, 0x00E787B3, 0x00078067, 0x00008067,
        0x00008067, 0, 0, 0, 0, 0, 0, 0, 0,
    ],
    data: [
        0xFFFF0018, 0xFFFF001C, 0, 0, 0, 0, 0, 0, 0, 0, 0, 0, 0, 0, 0, 0,
    ],
    further: &[],
    jump: 0x10014,
    want: Some((
        Table {
            base: 0x20000,
            width: 4,
            count: 2,
            bound: 1024,
            add: 0x20000,
            is_open: true,
        },
        0x10018,
        0x1001C,
    )),
};

/// Two doublewords that are the targets themselves.
pub(crate) const DOUBLEWORDS: Case = Case {
    code: [
        0x00100793, 0x02A7E063, 0x00020737, 0x00351513, 0x00E50533, 0x00053783, 0x00078067,
        0x00008067, 0x00008067, 0x00008067, 0, 0, 0, 0, 0, 0,
    ],
    data: [
        0x0001001C, 0, 0x00010020, 0, 0, 0, 0, 0, 0, 0, 0, 0, 0, 0, 0, 0,
    ],
    further: &[],
    jump: 0x10018,
    want: Some((
        Table {
            base: 0x20000,
            width: 8,
            count: 2,
            bound: 2,
            add: 0,
            is_open: false,
        },
        0x1001C,
        0x10020,
    )),
};

/// The bound test looks at x10 and the shift at x11, so that it tells nothing.
pub(crate) const OTHER_INDEX: Case = Case {
    code: [
        0x00700793, 0x02A7E263, 0x00020737, 0x00259513, 0x00E50533, 0x00052783, 0x00E787B3,
        0x00078067, 0x00008067, 0x00008067, 0x00008067, 0x00008067, 0, 0, 0, 0,
    ],
    want: Some((
        Table {
            base: 0x20000,
            width: 4,
            count: 9,
            bound: 1024,
            add: 0x20000,
            is_open: true,
        },
        0x10020,
        0x1002C,
    )),
    ..BOUNDED
};

/// The index is scaled by 8, and a word is loaded.
const MIXED_WIDTHS: Case = Case {
    code: [
        0x00020737, 0x00351513, 0x00E50533, 0x00052783, 0x00E787B3, 0x00078067, 0x00008067,
        0x00008067, 0, 0, 0, 0, 0, 0, 0, 0,
    ],
    want: None,
    ..OPEN
};

/// An ECALL after the shift.
const ECALL: Case = Case {
    code: [
        0x00251513, 0x00000073, 0x00020737, 0x00E50533, 0x00052783, 0x00E787B3, 0x00078067,
        0x00008067, 0x00008067, 0, 0, 0, 0, 0, 0, 0,
    ],
    jump: 0x10018,
    want: None,
    ..OPEN
};

/// A return.
pub(crate) const RETURN: Case = Case {
    jump: 0x10018,
    want: None,
    ..OPEN
};

pub(crate) fn push_words(bytes: &mut Vec<u8>, words: &[u32]) -> Result<(), AllocError> {
    for word in words {
        bytes.extend_from_slice(&word.to_le_bytes())?;
    }
    Ok(())
}

fn file(alloc: Global, case: &Case) -> Result<Vec<u8>, AllocError> {
    let mut bytes = Vec::new(alloc);
    push_words(&mut bytes, &HEADER)?;
    push_words(&mut bytes, &[counted(case.further.len()).wrapping_add(3)])?;
    push_words(&mut bytes, &case.code)?;
    push_words(&mut bytes, &case.data)?;
    push_words(&mut bytes, &SECTIONS)?;
    push_further(&mut bytes, case.further)?;
    Ok(bytes)
}

fn image(alloc: Global, case: &Case) -> Result<Image, ElfError> {
    Image::parse(alloc, file(alloc, case)?)
}

/// The table of the jump at `jump`, with the targets of the first and the last entry by the table.
fn found(image: &Image, jump: u64) -> Option<(Table, u64, u64)> {
    if !image.is_code(jump) {
        return None;
    }
    let table = find_table(image, jump)?;
    let last = table.count.checked_sub(1)?;
    Some((
        table,
        entry_target(image, &table, 0),
        entry_target(image, &table, last),
    ))
}

/// The target of the last entry by the jump alone.
fn last_target(image: &Image, jump: u64) -> Option<u64> {
    if !image.is_code(jump) {
        return None;
    }
    let table = find_table(image, jump)?;
    let last = table.count.checked_sub(1)?;
    Some(target_of(image, jump, last))
}

/// The last target of this table.
fn last_of(want: &Option<(Table, u64, u64)>) -> Option<u64> {
    let (_, _, last) = (*want)?;
    Some(last)
}

/// The jump has this table, with the targets of the first and the last entry.
pub(crate) fn gives(
    rt: &impl Abort,
    number: usize,
    image: &Image,
    jump: u64,
    want: &Option<(Table, u64, u64)>,
) {
    same_at(rt, &number, &found(image, jump), want);
    same_at(rt, &number, &last_target(image, jump), &last_of(want));
}

/// Each of these cases gives what it wants.
pub(crate) fn gives_each(rt: &(impl Abort + AllocGlobal), cases: &[Case]) -> Result<(), Fail> {
    for (number, case) in cases.iter().enumerate() {
        let image = image(rt.alloc(), case)?;
        gives(rt, number, &image, case.jump, &case.want);
    }
    Ok(())
}

#[test]
fn tables_of_small_files(rt: HostRuntime) -> Result<(), Fail> {
    let cases = [
        BOUNDED,
        OPEN,
        DOUBLEWORDS,
        OTHER_INDEX,
        MIXED_WIDTHS,
        ECALL,
        RETURN,
    ];
    gives_each(&rt, &cases)
}
