//! Tables that a file declares, and tables whose address extensions calculate.

use crate::further::Further;
use crate::tables::{BOUNDED, Case, DOUBLEWORDS, OPEN, OTHER_INDEX, RETURN, gives_each};
use jump_table::Table;
use std::test::Fail;

/// The table of both entries of `OPEN`, if it is declared.
const BOTH: Table = Table {
    base: 0x20000,
    width: 4,
    count: 2,
    bound: 2,
    add: 0x20000,
    is_open: true,
};

/// The table's address is set further before the jump.
const HIDDEN: Case = Case {
    code: [
        0x00000013, 0x00251513, 0x00E50533, 0x00052783, 0x00E787B3, 0x00078067, 0x00008067,
        0x00008067, 0, 0, 0, 0, 0, 0, 0, 0,
    ],
    want: None,
    ..OPEN
};

/// The same with its table declared.
const DECLARED: Case = Case {
    further: &[Further::Declares(&[[0x10014, 0x20000, 0x20000, 2, 4]])],
    want: Some((BOTH, 0x10018, 0x1001C)),
    ..HIDDEN
};

/// An open table of which one entry is declared.
const SHORTENED: Case = Case {
    further: &[Further::Declares(&[[0x10014, 0x20000, 0x20000, 1, 4]])],
    want: Some((
        Table {
            count: 1,
            bound: 1,
            ..BOTH
        },
        0x10018,
        0x10018,
    )),
    ..OPEN
};

/// More entries are declared than lead to code.
const LENGTHENED: Case = Case {
    further: &[Further::Declares(&[[0x10014, 0x20000, 0x20000, 9, 4]])],
    want: Some((Table { bound: 9, ..BOTH }, 0x10018, 0x1001C)),
    ..HIDDEN
};

/// More are declared than count.
const ENDLESS: Case = Case {
    further: &[Further::Declares(&[[0x10014, 0x20000, 0x20000, 0x11170, 4]])],
    want: Some((
        Table {
            bound: 65_536,
            ..BOTH
        },
        0x10018,
        0x1001C,
    )),
    ..HIDDEN
};

/// A bound test beats a declaration.
const BEATEN: Case = Case {
    further: &[Further::Declares(&[[0x1001C, 0x20000, 0x20000, 1, 4]])],
    ..BOUNDED
};

/// A bound test tells nothing.
const UNTESTED: Case = Case {
    further: &[Further::Declares(&[[0x1001C, 0x20000, 0x20000, 3, 4]])],
    want: Some((
        Table {
            count: 3,
            bound: 3,
            ..BOTH
        },
        0x10020,
        0x10020,
    )),
    ..OTHER_INDEX
};

/// Doublewords to which nothing is added.
const ADDRESSES: Case = Case {
    code: [
        0x00100793, 0x00000013, 0x00000013, 0x00351513, 0x00E50533, 0x00053783, 0x00078067,
        0x00008067, 0x00008067, 0x00008067, 0, 0, 0, 0, 0, 0,
    ],
    further: &[Further::Declares(&[[0x10018, 0x20000, 0, 2, 8]])],
    want: Some((
        Table {
            width: 8,
            add: 0,
            ..BOTH
        },
        0x1001C,
        0x10020,
    )),
    ..DOUBLEWORDS
};

/// Records that count for nothing: entries of 0, of 2 and of 16 bytes; a base that is no multiple of the
/// size; an entry that leads to no code, or is no data; no entry; a jump at another address.
static WRONG: [&[Further]; 9] = [
    &[Further::Declares(&[[0x10014, 0x20000, 0x20000, 1, 0]])],
    &[Further::Declares(&[[0x10014, 0x20000, 0x20000, 1, 2]])],
    &[Further::Declares(&[[0x10014, 0x20000, 0x20000, 1, 16]])],
    &[Further::Declares(&[[0x10014, 0x20002, 0x20000, 1, 4]])],
    &[Further::Declares(&[[0x10014, 0x20004, 0x20000, 1, 8]])],
    &[Further::Declares(&[[0x10014, 0x20008, 0x20000, 1, 4]])],
    &[Further::Declares(&[[0x10014, 0x30000, 0x20000, 1, 4]])],
    &[Further::Declares(&[[0x10014, 0x20000, 0x20000, 0, 4]])],
    &[Further::Declares(&[[0x10016, 0x20000, 0x20000, 1, 4]])],
];

/// The first record of a jump counts.
const FIRST: Case = Case {
    further: &[Further::Declares(&[
        [0x10014, 0x20000, 0x20000, 1, 4],
        [0x10014, 0x20000, 0x20000, 2, 4],
    ])],
    want: Some((
        Table {
            count: 1,
            bound: 1,
            ..BOTH
        },
        0x10018,
        0x10018,
    )),
    ..OPEN
};

/// A wrong first record counts as none.
const WRONG_FIRST: Case = Case {
    further: &[Further::Declares(&[
        [0x10014, 0x20000, 0x20000, 1, 3],
        [0x10014, 0x20000, 0x20000, 2, 4],
    ])],
    want: None,
    ..HIDDEN
};

/// The record of another jump stands before it.
const LATER: Case = Case {
    further: &[Further::Declares(&[
        [0x10018, 0x20000, 0x20000, 2, 4],
        [0x10014, 0x20000, 0x20000, 1, 4],
    ])],
    want: Some((
        Table {
            count: 1,
            bound: 1,
            ..BOTH
        },
        0x10018,
        0x10018,
    )),
    ..OPEN
};

/// Two sections, of which the first names the jump first.
const SECTIONS: Case = Case {
    further: &[
        Further::Declares(&[
            [0x10018, 0x20000, 0x20000, 2, 4],
            [0x10014, 0x20000, 0x20000, 1, 4],
        ]),
        Further::Declares(&[[0x10014, 0x20000, 0x20000, 2, 4]]),
    ],
    want: Some((
        Table {
            count: 1,
            bound: 1,
            ..BOTH
        },
        0x10018,
        0x10018,
    )),
    ..OPEN
};

/// Two sections, of which the second names the jump.
const SECOND_SECTION: Case = Case {
    further: &[
        Further::Declares(&[[0x10018, 0x20000, 0x20000, 2, 4]]),
        Further::Names,
        Further::Declares(&[[0x10014, 0x20000, 0x20000, 1, 4]]),
    ],
    want: Some((
        Table {
            count: 1,
            bound: 1,
            ..BOTH
        },
        0x10018,
        0x10018,
    )),
    ..OPEN
};

/// A return.
const DECLARED_RETURN: Case = Case {
    further: &[Further::Declares(&[[0x10018, 0x20000, 0x20000, 1, 4]])],
    ..RETURN
};

/// A jump to four bytes past its register.
const OFFSET: Case = Case {
    code: [
        0x00000013, 0x00251513, 0x00E50533, 0x00052783, 0x00E787B3, 0x00478067, 0x00008067,
        0x00008067, 0, 0, 0, 0, 0, 0, 0, 0,
    ],
    want: None,
    ..DECLARED
};

/// The second half of an address pair.
const PAIRED: Case = Case {
    code: [
        0x00000013, 0x00251513, 0x00E50533, 0x00052783, 0x00000797, 0x00078067, 0x00008067,
        0x00008067, 0, 0, 0, 0, 0, 0, 0, 0,
    ],
    want: None,
    ..DECLARED
};

/// A stub of an indirect function: a jump through x28 that links to x6.
const STUB: Case = Case {
    code: [
        0x00020737, 0x00251513, 0x00E50533, 0x00052E03, 0x00EE0E33, 0x000E0367, 0x00008067,
        0x00008067, 0, 0, 0, 0, 0, 0, 0, 0,
    ],
    ..OPEN
};

/// The index is scaled and added by SH2ADD.
const SHIFT_ADD: Case = Case {
    code: [
        0x00700793, 0x02A7E263, 0x00020737, 0x20E54533, 0x00000013, 0x00052783, 0x00E787B3,
        0x00078067, 0x00008067, 0x00008067, 0x00008067, 0x00008067, 0, 0, 0, 0,
    ],
    further: &[Further::Names],
    ..BOUNDED
};

/// The same in a file that does not name the extension.
const UNNAMED: Case = Case {
    further: &[],
    want: None,
    ..SHIFT_ADD
};

/// The same of the index as a word, by SH2ADD.UW.
const SHIFT_ADD_WORD: Case = Case {
    code: [
        0x00700793, 0x02A7E263, 0x00020737, 0x20E5453B, 0x00000013, 0x00052783, 0x00E787B3,
        0x00078067, 0x00008067, 0x00008067, 0x00008067, 0x00008067, 0, 0, 0, 0,
    ],
    ..SHIFT_ADD
};

/// SLLI.UW by 2.
const SHIFTED_WORD: Case = Case {
    code: [
        0x00700793, 0x02A7E263, 0x00020737, 0x0825151B, 0x00E50533, 0x00052783, 0x00E787B3,
        0x00078067, 0x00008067, 0x00008067, 0x00008067, 0x00008067, 0, 0, 0, 0,
    ],
    ..SHIFT_ADD
};

/// SH2ADD without a bound test.
const OPEN_SHIFT_ADD: Case = Case {
    code: [
        0x00020737, 0x20E54533, 0x00000013, 0x00052783, 0x00E787B3, 0x00078067, 0x00008067,
        0x00008067, 0, 0, 0, 0, 0, 0, 0, 0,
    ],
    further: &[Further::Names],
    ..OPEN
};

/// SLLI.UW by 32 and SRLI by 30 without a bound test.
const HALF: Case = Case {
    code: [
        0x00020737, 0x0A05151B, 0x01E55513, 0x00E50533, 0x00052783, 0x00E787B3, 0x00078067,
        0x00008067, 0, 0, 0, 0, 0, 0, 0, 0,
    ],
    jump: 0x10018,
    further: &[Further::Names],
    ..OPEN
};

/// The index is first extended, by SEXT.B.
const SIGNED_BYTE: Case = Case {
    code: [
        0x00700793, 0x02A7E263, 0x00020737, 0x60451513, 0x00251513, 0x00E50533, 0x00052783,
        0x00E787B3, 0x00078067, 0x00008067, 0x00008067, 0x00008067, 0x00008067, 0, 0, 0,
    ],
    further: &[Further::Names],
    jump: 0x10020,
    ..BOUNDED
};

/// By ZEXT.W.
const WORD: Case = Case {
    code: [
        0x00700793, 0x02A7E263, 0x00020737, 0x0805053B, 0x00251513, 0x00E50533, 0x00052783,
        0x00E787B3, 0x00078067, 0x00008067, 0x00008067, 0x00008067, 0x00008067, 0, 0, 0,
    ],
    ..SIGNED_BYTE
};

/// By ZEXT.H.
const HALFWORD: Case = Case {
    code: [
        0x00700793, 0x02A7E263, 0x00020737, 0x0805453B, 0x00251513, 0x00E50533, 0x00052783,
        0x00E787B3, 0x00078067, 0x00008067, 0x00008067, 0x00008067, 0x00008067, 0, 0, 0,
    ],
    ..SIGNED_BYTE
};

/// By SEXT.H.
const SIGNED_HALFWORD: Case = Case {
    code: [
        0x00700793, 0x02A7E263, 0x00020737, 0x60551513, 0x00251513, 0x00E50533, 0x00052783,
        0x00E787B3, 0x00078067, 0x00008067, 0x00008067, 0x00008067, 0x00008067, 0, 0, 0,
    ],
    ..SIGNED_BYTE
};

/// SEXT.B of an index up to 127.
const LAST_BYTE: Case = Case {
    code: [
        0x07F00793, 0x02A7E263, 0x00020737, 0x60451513, 0x00251513, 0x00E50533, 0x00052783,
        0x00E787B3, 0x00078067, 0x00008067, 0x00008067, 0x00008067, 0x00008067, 0, 0, 0,
    ],
    want: Some((
        Table {
            count: 9,
            bound: 128,
            is_open: false,
            ..BOTH
        },
        0x10020,
        0x1002C,
    )),
    ..SIGNED_BYTE
};

/// SEXT.B of an index up to 128, which may be another one after it.
const PAST_BYTE: Case = Case {
    code: [
        0x08000793, 0x02A7E263, 0x00020737, 0x60451513, 0x00251513, 0x00E50533, 0x00052783,
        0x00E787B3, 0x00078067, 0x00008067, 0x00008067, 0x00008067, 0x00008067, 0, 0, 0,
    ],
    want: Some((
        Table {
            count: 9,
            bound: 1024,
            ..BOTH
        },
        0x10020,
        0x1002C,
    )),
    ..SIGNED_BYTE
};

/// The table's address through ZEXT.W.
const EXTENDED_BASE: Case = Case {
    code: [
        0x00700793, 0x02A7E263, 0x00020737, 0x0807073B, 0x00251513, 0x00E50533, 0x00052783,
        0x00E787B3, 0x00078067, 0x00008067, 0x00008067, 0x00008067, 0x00008067, 0, 0, 0,
    ],
    ..SIGNED_BYTE
};

/// The table's address through SEXT.H.
const LOST_BASE: Case = Case {
    code: [
        0x00700793, 0x02A7E263, 0x00020737, 0x60571713, 0x00251513, 0x00E50533, 0x00052783,
        0x00E787B3, 0x00078067, 0x00008067, 0x00008067, 0x00008067, 0x00008067, 0, 0, 0,
    ],
    want: None,
    ..SIGNED_BYTE
};

/// ANDN of another register.
const OTHER_WRITE: Case = Case {
    code: [
        0x00700793, 0x02A7E263, 0x00020737, 0x40E775B3, 0x00251513, 0x00E50533, 0x00052783,
        0x00E787B3, 0x00078067, 0x00008067, 0x00008067, 0x00008067, 0x00008067, 0, 0, 0,
    ],
    ..SIGNED_BYTE
};

/// ANDN of the register of the table's address.
const WRITE: Case = Case {
    code: [
        0x00700793, 0x02A7E263, 0x00020737, 0x40E77733, 0x00251513, 0x00E50533, 0x00052783,
        0x00E787B3, 0x00078067, 0x00008067, 0x00008067, 0x00008067, 0x00008067, 0, 0, 0,
    ],
    want: None,
    ..SIGNED_BYTE
};

/// The index is scaled and added by TH.ADDSL.
const VENDOR_SUM: Case = Case {
    code: [
        0x00700793, 0x02A7E263, 0x00020737, 0x04A7150B, 0x00000013, 0x00052783, 0x00E787B3,
        0x00078067, 0x00008067, 0x00008067, 0x00008067, 0x00008067, 0, 0, 0, 0,
    ],
    further: &[Further::NamesVendor],
    ..BOUNDED
};

/// The same in a file that does not name the vendor.
const VENDOR_UNNAMED: Case = Case {
    further: &[],
    want: None,
    ..VENDOR_SUM
};

/// The entry is loaded by TH.LRW, which leaves the table's address in its register.
const VENDOR_LOAD: Case = Case {
    code: [
        0x00700793, 0x02A7E263, 0x00020737, 0x44A7478B, 0x00000013, 0x00000013, 0x00E787B3,
        0x00078067, 0x00008067, 0x00008067, 0x00008067, 0x00008067, 0, 0, 0, 0,
    ],
    ..VENDOR_SUM
};

/// By TH.LURW, with the index as a word.
const VENDOR_LOAD_WORD: Case = Case {
    code: [
        0x00700793, 0x02A7E263, 0x00020737, 0x54A7478B, 0x00000013, 0x00000013, 0x00E787B3,
        0x00078067, 0x00008067, 0x00008067, 0x00008067, 0x00008067, 0, 0, 0, 0,
    ],
    ..VENDOR_SUM
};

/// TH.LBIA of another register.
const VENDOR_OTHER: Case = Case {
    code: [
        0x00700793, 0x02A7E263, 0x00020737, 0x44A7478B, 0x1816C58B, 0x00000013, 0x00E787B3,
        0x00078067, 0x00008067, 0x00008067, 0x00008067, 0x00008067, 0, 0, 0, 0,
    ],
    ..VENDOR_SUM
};

/// TH.LBIA of the register of the table's address, which it moves on.
const VENDOR_LOST: Case = Case {
    code: [
        0x00700793, 0x02A7E263, 0x00020737, 0x44A7478B, 0x1817458B, 0x00000013, 0x00E787B3,
        0x00078067, 0x00008067, 0x00008067, 0x00008067, 0x00008067, 0, 0, 0, 0,
    ],
    want: None,
    ..VENDOR_SUM
};

#[test]
fn declared_tables(rt: HostRuntime) -> Result<(), Fail> {
    let cases = [
        HIDDEN,
        DECLARED,
        SHORTENED,
        LENGTHENED,
        ENDLESS,
        BEATEN,
        UNTESTED,
        ADDRESSES,
        FIRST,
        WRONG_FIRST,
        LATER,
        SECTIONS,
        SECOND_SECTION,
        DECLARED_RETURN,
        OFFSET,
        PAIRED,
        STUB,
    ];
    gives_each(&rt, &cases)?;
    for &further in WRONG.iter() {
        gives_each(&rt, &[Case { further, ..OPEN }])?;
        gives_each(&rt, &[Case { further, ..HIDDEN }])?;
    }
    Ok(())
}

#[test]
fn tables_by_extensions(rt: HostRuntime) -> Result<(), Fail> {
    let cases = [
        SHIFT_ADD,
        UNNAMED,
        SHIFT_ADD_WORD,
        SHIFTED_WORD,
        OPEN_SHIFT_ADD,
        HALF,
        SIGNED_BYTE,
        WORD,
        HALFWORD,
        SIGNED_HALFWORD,
        LAST_BYTE,
        PAST_BYTE,
        EXTENDED_BASE,
        LOST_BASE,
        OTHER_WRITE,
        WRITE,
        VENDOR_SUM,
        VENDOR_UNNAMED,
        VENDOR_LOAD,
        VENDOR_LOAD_WORD,
        VENDOR_OTHER,
        VENDOR_LOST,
    ];
    gives_each(&rt, &cases)
}
