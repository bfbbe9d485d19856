//! Tables whose address is set far before the jump.

use crate::further::{Further, counted, push_further};
use crate::tables::{BOUNDED, Case, DOUBLEWORDS, gives, gives_each, push_words};
use elf_image::{ElfError, Image};
use jump_table::Table;
use std::alloc::{AllocError, Global};
use std::process::Abort;
use std::test::Fail;

/// Code at 10000 and read-only data at 20000 (hexadecimal), filled up with zeros, and a jump in it.
#[derive(Clone, Copy)]
struct Far {
    /// What is set far before.
    before: &'static [u32],
    /// So many halfwords of zeros.
    gap: usize,
    /// The run to the jump, and what stands around it.
    run: &'static [u32],
    data: [u32; 2],
    further: &'static [Further],
    jump: u64,
    /// The table, with the targets of the first and the last entry.
    want: Option<(Table, u64, u64)>,
}

/// The header of a file whose sections stand at 4352, without its last word, their number; and
/// those sections: none, 4224 bytes of code and 64 bytes of data.
const HEADER: [u32; 15] = [
    0x464C457F, 0x00010102, 0, 0, 0x00F30002, 1, 0x10000, 0, 0, 0, 4352, 0, 0, 0x40, 0x400000,
];

const SECTIONS: [u32; 48] = [
    0, 0, 0, 0, 0, 0, 0, 0, 0, 0, 0, 0, 0, 0, 0, 0, 0, 1, 6, 0, 0x10000, 0, 64, 0, 4224, 0, 0, 0,
    0, 0, 0, 0, 0, 1, 2, 0, 0x20000, 0, 4288, 0, 64, 0, 0, 0, 0, 0, 0, 0,
];

/// A return, and then a run that uses x14: a shift of x10, a sum, a load, a sum and the jump; and
/// two returns.
const RUN: [u32; 8] = [
    0x00008067, 0x00251513, 0x00E50533, 0x00052783, 0x00E787B3, 0x00078067, 0x00008067, 0x00008067,
];

/// The table of both words of the data.
const BOTH: Table = Table {
    base: 0x20000,
    width: 4,
    count: 2,
    bound: 1024,
    add: 0x20000,
    is_open: true,
};

/// LUI and ADDI of x14, the end of one function, and a run in the next one.
const OTHER_FUNCTION: Far = Far {
    before: &[0x00020737, 0x00070713],
    gap: 0,
    run: &RUN,
    data: [0xFFFF0020, 0xFFFF0024],
    further: &[],
    jump: 0x1001C,
    want: Some((BOTH, 0x10020, 0x10024)),
};

/// The same with the head of a loop between: a branch.
const LOOP: Far = Far {
    run: &[
        0x00050C63, 0x00251513, 0x00E50533, 0x00052783, 0x00E787B3, 0x00078067, 0x00008067,
        0x00008067,
    ],
    ..OTHER_FUNCTION
};

/// AUIPC at 10000 in place of LUI.
const RELATIVE: Far = Far {
    before: &[0x00010717, 0x00070713],
    ..OTHER_FUNCTION
};

/// No second half, and one that adds nothing to the first.
const NO_PAIR: Far = Far {
    before: &[0x00020737, 0x00000013],
    want: None,
    ..OTHER_FUNCTION
};

/// An earlier pair for 20010 is not the nearest.
const NEAREST: Far = Far {
    before: &[0x00020737, 0x01070713, 0x00020737, 0x00070713],
    data: [0xFFFF0028, 0xFFFF002C],
    jump: 0x10024,
    want: Some((BOTH, 0x10028, 0x1002C)),
    ..OTHER_FUNCTION
};

/// Two further ADDI of x14, from x0 and from x13, which no LUI sets, are no pairs.
const PASSED_OVER: Far = Far {
    before: &[0x00020737, 0x00070713, 0x00500713, 0x00568713],
    ..NEAREST
};

/// Of two LUI of x14 before the ADDI the nearer one counts.
const NEARER_HALF: Far = Far {
    before: &[0x00030737, 0x00020737, 0x00000013, 0x00070713],
    ..NEAREST
};

/// The pair is of x14, with x13 for its first half.
const OTHER_HALF: Far = Far {
    before: &[0x000206B7, 0x00030737, 0x00000013, 0x00068713],
    ..NEAREST
};

/// A LUI that the ADDI overlaps at 10006 does not end before it.
const OVERLAP: Far = Far {
    before: &[0x00020737, 0x07130737, 0x80670007, 0x00000000],
    ..NEAREST
};

/// C.LUI that ends where the ADDI begins. The table stands in the code, and one entry leads to it.
const SHORT: Far = Far {
    before: &[],
    run: &[
        0x07136741, 0x80670287, 0x15130000, 0x05330025, 0x278300E5, 0x87B30005, 0x806700E7,
        0x80670007, 0, 0, 0xFFFFFFF6, 0x7FFFFFFF,
    ],
    jump: 0x1001A,
    want: Some((
        Table {
            base: 0x10028,
            count: 1,
            add: 0x10028,
            ..BOTH
        },
        0x1001E,
        0x1001E,
    )),
    ..OTHER_FUNCTION
};

/// 64 bytes between the beginnings of the halves.
const HALVES: Far = Far {
    before: &[0x00020737],
    gap: 30,
    run: &[
        0x00070713, 0x00008067, 0x00251513, 0x00E50533, 0x00052783, 0x00E787B3, 0x00078067,
        0x00008067, 0x00008067,
    ],
    data: [0xFFFF005C, 0xFFFF0060],
    jump: 0x10058,
    want: Some((BOTH, 0x1005C, 0x10060)),
    ..OTHER_FUNCTION
};

/// Two more.
const FAR_HALVES: Far = Far {
    gap: 31,
    data: [0xFFFF005E, 0xFFFF0062],
    jump: 0x1005A,
    want: None,
    ..HALVES
};

/// The ADDI begins 4,096 bytes before the run.
const REACH: Far = Far {
    gap: 2044,
    data: [0xFFFF1018, 0xFFFF101C],
    jump: 0x11014,
    want: Some((BOTH, 0x11018, 0x1101C)),
    ..OTHER_FUNCTION
};

/// Two more.
const TOO_FAR: Far = Far {
    gap: 2045,
    data: [0xFFFF101A, 0xFFFF101E],
    jump: 0x11016,
    want: None,
    ..OTHER_FUNCTION
};

/// The index was an address before.
const SHIFTED: Far = Far {
    before: &[0x00020737, 0x00070713, 0x00020537, 0x00050513],
    ..NEAREST
};

/// A constant of the run is no index.
const SHIFTED_CONSTANT: Far = Far {
    run: &[
        0x00008067, 0x00500513, 0x00251513, 0x00E50533, 0x00052783, 0x00E787B3, 0x00078067,
        0x00008067, 0x00008067,
    ],
    data: [0xFFFF0024, 0xFFFF0028],
    jump: 0x10020,
    // The run that begins at the shift does not know it.
    want: Some((BOTH, 0x10024, 0x10028)),
    ..OTHER_FUNCTION
};

/// A copy of x14 in x13 is used.
const COPIED: Far = Far {
    run: &[
        0x00008067, 0x00E006B3, 0x00251513, 0x00D50533, 0x00052783, 0x00D787B3, 0x00078067,
        0x00008067, 0x00008067,
    ],
    data: [0xFFFF0024, 0xFFFF0028],
    jump: 0x10020,
    want: Some((BOTH, 0x10024, 0x10028)),
    ..OTHER_FUNCTION
};

/// 4 is added to x14 in the run.
const MOVED: Far = Far {
    run: &[
        0x00008067, 0x00251513, 0x00470713, 0x00E50533, 0x00052783, 0x00E787B3, 0x00078067,
        0x00008067, 0x00008067,
    ],
    data: [0xFFFF0024, 0xFFFF0028],
    jump: 0x10020,
    want: None,
    ..OTHER_FUNCTION
};

/// The entries stand at x14, and x13 is added to them: 30000.
const TWO: Far = Far {
    before: &[0x00020737, 0x00070713, 0x000306B7, 0x00068693],
    run: &[
        0x00008067, 0x00251513, 0x00E50533, 0x00052783, 0x00D787B3, 0x00078067, 0x00008067,
        0x00008067,
    ],
    data: [0xFFFE0028, 0xFFFE002C],
    jump: 0x10024,
    want: Some((
        Table {
            add: 0x30000,
            ..BOTH
        },
        0x10028,
        0x1002C,
    )),
    ..OTHER_FUNCTION
};

/// The address of the table is stored from x14 to x2 + 8, and loaded from there into x13.
const SLOT: Far = Far {
    before: &[0x00020737, 0x00070713, 0x00E13423],
    run: &[
        0x00008067, 0x00813683, 0x00251513, 0x00D50533, 0x00052783, 0x00D787B3, 0x00078067,
        0x00008067, 0x00008067,
    ],
    data: [0xFFFF0028, 0xFFFF002C],
    jump: 0x10024,
    want: Some((BOTH, 0x10028, 0x1002C)),
    ..OTHER_FUNCTION
};

/// A store of x11 there, which no pair sets, is passed over, as are one of x0 and one to x2 + 16.
const SLOT_PASSED_OVER: Far = Far {
    before: &[
        0x00020737, 0x00070713, 0x00E13423, 0x00B13423, 0x00013423, 0x00E13823,
    ],
    data: [0xFFFF0034, 0xFFFF0038],
    jump: 0x10030,
    want: Some((BOTH, 0x10034, 0x10038)),
    ..SLOT
};

/// A store of x14 to x2 + 16 alone.
const OTHER_SLOT: Far = Far {
    before: &[0x00020737, 0x00070713, 0x00E13823],
    want: None,
    ..SLOT
};

/// The same as `SLOT` by C.SDSP and C.LDSP, which stand side by side with C.NOP.
const SHORT_SLOT: Far = Far {
    before: &[0x00020737, 0x00070713, 0x0001E43A],
    run: &[
        0x00008067, 0x000166A2, 0x00251513, 0x00D50533, 0x00052783, 0x00D787B3, 0x00078067,
        0x00008067, 0x00008067,
    ],
    ..SLOT
};

/// By the run from the shift on x14 is 30000, where nothing stands; by the one from the copy of x13
/// on it is 20000.
const SECOND_PLACE: Far = Far {
    before: &[0x000206B7, 0x00068693, 0x000306B7],
    run: &[
        0x00008067, 0x00068713, 0x00251513, 0x00E50533, 0x00052783, 0x00E787B3, 0x00078067,
        0x00008067, 0x00008067,
    ],
    ..SLOT
};

/// A bound test whose run tells no place.
const TESTED: Far = Far {
    run: &[
        0x00008067, 0x00700793, 0x00A7EC63, 0x00251513, 0x00E50533, 0x00052783, 0x00E787B3,
        0x00078067, 0x00008067, 0x00008067,
    ],
    data: [0xFFFF0028, 0xFFFF002C],
    jump: 0x10024,
    want: Some((BOTH, 0x10028, 0x1002C)),
    ..OTHER_FUNCTION
};

/// A declared table comes first.
const DECLARED: Far = Far {
    further: &[Further::Declares(&[[0x1001C, 0x20000, 0x20000, 1, 4]])],
    want: Some((
        Table {
            count: 1,
            bound: 1,
            ..BOTH
        },
        0x10020,
        0x10020,
    )),
    ..OTHER_FUNCTION
};

/// An entry of doublewords, the target itself.
const WIDE: Far = Far {
    run: &[
        0x00008067, 0x00351513, 0x00E50533, 0x00053783, 0x00078067, 0x00008067, 0x00008067,
    ],
    data: [0x0001001C, 0],
    jump: 0x10018,
    want: Some((
        Table {
            width: 8,
            count: 1,
            add: 0,
            ..BOTH
        },
        0x1001C,
        0x1001C,
    )),
    ..OTHER_FUNCTION
};

/// SH2ADD of x10 and x14, where x10 was an address before.
const SHIFT_ADD: Far = Far {
    before: &[0x00020737, 0x00070713, 0x00020537, 0x00050513],
    run: &[
        0x00008067, 0x20E54533, 0x00000013, 0x00052783, 0x00E787B3, 0x00078067, 0x00008067,
        0x00008067,
    ],
    further: &[Further::Names],
    ..NEAREST
};

/// SEXT.W of an entry of a table with a bound test.
const EXTENDED: Case = Case {
    code: [
        0x00700793, 0x02A7E263, 0x00020737, 0x00251513, 0x00E50533, 0x00052783, 0x0007879B,
        0x00E787B3, 0x00078067, 0x00008067, 0x00008067, 0x00008067, 0, 0, 0, 0,
    ],
    data: [
        0xFFFF0024, 0xFFFF0024, 0xFFFF0024, 0xFFFF0024, 0xFFFF0024, 0xFFFF0024, 0xFFFF0024,
        0xFFFF002C, 0xFFFF002C, 0, 0, 0, 0, 0, 0, 0,
    ],
    jump: 0x10020,
    want: Some((
        Table {
            count: 8,
            bound: 8,
            is_open: false,
            ..BOTH
        },
        0x10024,
        0x1002C,
    )),
    ..BOUNDED
};

/// ADDIW with 1.
const EXTENDED_SUM: Case = Case {
    code: [
        0x00700793, 0x02A7E263, 0x00020737, 0x00251513, 0x00E50533, 0x00052783, 0x0017879B,
        0x00E787B3, 0x00078067, 0x00008067, 0x00008067, 0x00008067, 0, 0, 0, 0,
    ],
    want: None,
    ..EXTENDED
};

/// SEXT.W of what was added to the entry.
const EXTENDED_LATE: Case = Case {
    code: [
        0x00700793, 0x02A7E263, 0x00020737, 0x00251513, 0x00E50533, 0x00052783, 0x00E787B3,
        0x0007879B, 0x00078067, 0x00008067, 0x00008067, 0x00008067, 0, 0, 0, 0,
    ],
    want: None,
    ..EXTENDED
};

/// SEXT.W of a doubleword.
const EXTENDED_DOUBLE: Case = Case {
    code: [
        0x00100793, 0x02A7E063, 0x00020737, 0x00351513, 0x00E50533, 0x00053783, 0x0007879B,
        0x00078067, 0x00008067, 0x00008067, 0x00008067, 0, 0, 0, 0, 0,
    ],
    jump: 0x1001C,
    want: None,
    ..DOUBLEWORDS
};

fn file(alloc: Global, case: &Far) -> Result<Vec<u8>, AllocError> {
    let mut bytes = Vec::new(alloc);
    push_words(&mut bytes, &HEADER)?;
    push_words(&mut bytes, &[counted(case.further.len()).wrapping_add(3)])?;
    push_words(&mut bytes, case.before)?;
    for _ in 0..case.gap {
        bytes.extend_from_slice(&[0, 0])?;
    }
    push_words(&mut bytes, case.run)?;
    let filled = bytes.len();
    for _ in filled..4288 {
        bytes.push(0)?;
    }
    push_words(&mut bytes, &case.data)?;
    for _ in 0..56 {
        bytes.push(0)?;
    }
    push_words(&mut bytes, &SECTIONS)?;
    push_further(&mut bytes, case.further)?;
    Ok(bytes)
}

fn image(alloc: Global, case: &Far) -> Result<Image, ElfError> {
    Image::parse(alloc, file(alloc, case)?)
}

#[test]
fn tables_set_far_before(rt: HostRuntime) -> Result<(), Fail> {
    let cases = [
        OTHER_FUNCTION,
        LOOP,
        RELATIVE,
        NO_PAIR,
        NEAREST,
        PASSED_OVER,
        NEARER_HALF,
        OTHER_HALF,
        OVERLAP,
        SHORT,
        HALVES,
        FAR_HALVES,
        REACH,
        TOO_FAR,
        SHIFTED,
        SHIFTED_CONSTANT,
        COPIED,
        MOVED,
        TWO,
        SLOT,
        SLOT_PASSED_OVER,
        OTHER_SLOT,
        SHORT_SLOT,
        SECOND_PLACE,
        TESTED,
        DECLARED,
        WIDE,
        SHIFT_ADD,
    ];
    for (number, case) in cases.iter().enumerate() {
        let image = image(rt.alloc(), case)?;
        gives(&rt, number, &image, case.jump, &case.want);
    }
    Ok(())
}

#[test]
fn tables_of_extended_entries(rt: HostRuntime) -> Result<(), Fail> {
    let cases = [EXTENDED, EXTENDED_SUM, EXTENDED_LATE, EXTENDED_DOUBLE];
    gives_each(&rt, &cases)
}
