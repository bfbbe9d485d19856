//! The calls on a small file, whose instructions were encoded by an assembler.

use crate::asserts::same_at;
use elf_image::{ElfError, Extensions, Image};
use rv_flow::{
    RawFlow, StraightForms, each_word_is_its_instruction, every_expansion_decodes, flow_of,
    insn_at, raw_flow,
};
use std::alloc::Global;
use std::process::Abort;
use std::test::Fail;

/// Code at 10000 (hexadecimal): `jalr x0, 0(x5)`; `lui x1, 0x10`, `jalr x1, 12(x1)`;
/// `lui x6, 0x10`, `jalr x0, 1(x6)`; `jalr x0, 0(x6)`; and the 16-bit forms `c.jr x5` and `c.nop`.
const FILE: [u8; 224] = [
    0x7F, 0x45, 0x4C, 0x46, 2, 1, 1, 0, 0, 0, 0, 0, 0, 0, 0, 0, 2, 0, 0xF3, 0, 1, 0, 0, 0, 0, 0, 1,
    0, 0, 0, 0, 0, 0, 0, 0, 0, 0, 0, 0, 0, 0x60, 0, 0, 0, 0, 0, 0, 0, 0, 0, 0, 0, 0x40, 0, 0, 0, 0,
    0, 0x40, 0, 2, 0, 0, 0, 0x67, 0x80, 2, 0, 0xB7, 0, 1, 0, 0xE7, 0x80, 0xC0, 0, 0x37, 3, 1, 0,
    0x67, 0, 0x13, 0, 0x67, 0, 3, 0, 0x82, 0x82, 1, 0, 0, 0, 0, 0, 0, 0, 0, 0, 0, 0, 0, 0, 0, 0, 0,
    0, 0, 0, 0, 0, 0, 0, 0, 0, 0, 0, 0, 0, 0, 0, 0, 0, 0, 0, 0, 0, 0, 0, 0, 0, 0, 0, 0, 0, 0, 0, 0,
    0, 0, 0, 0, 0, 0, 0, 0, 0, 0, 0, 0, 0, 0, 0, 0, 0, 0, 0, 0, 0, 0, 0, 0, 0, 1, 0, 0, 0, 6, 0, 0,
    0, 0, 0, 0, 0, 0, 0, 1, 0, 0, 0, 0, 0, 0x40, 0, 0, 0, 0, 0, 0, 0, 0x1C, 0, 0, 0, 0, 0, 0, 0, 0,
    0, 0, 0, 0, 0, 0, 0, 2, 0, 0, 0, 0, 0, 0, 0, 0, 0, 0, 0, 0, 0, 0, 0,
];

/// Addresses, and the length and the flow of the instruction there.
const CASES: [(u64, u8, RawFlow); 8] = [
    (0x10000, 4, RawFlow::Return),
    (0x10004, 4, RawFlow::Straight),
    (0x10008, 4, RawFlow::Call { target: 0x1000C }),
    (0x1000C, 4, RawFlow::Straight),
    (0x10010, 4, RawFlow::Jump { target: 0x10000 }),
    (
        0x10014,
        4,
        RawFlow::RegisterJump {
            register: 6,
            offset: 0,
        },
    ),
    (0x10018, 2, RawFlow::Return),
    (0x1001A, 2, RawFlow::Straight),
];

/// A file whose attributes name `rv64i2p1_zba1p0_zcb1p0`. Code at 10000 (hexadecimal):
/// `sh1add x10, x11, x12`; `c.zext.b x8` and `c.nop`; `jalr x6, 0(x28)`, the stub of an indirect
/// function; `jalr x6, 0(x5)`; `jalr x1, 0(x28)`; `lui x28, 0x10`, `jalr x6, 0(x28)`.
const NAMING: [u8; 328] = [
    0x7F, 0x45, 0x4C, 0x46, 2, 1, 1, 0, 0, 0, 0, 0, 0, 0, 0, 0, 2, 0, 0xF3, 0, 1, 0, 0, 0, 0, 0, 1,
    0, 0, 0, 0, 0, 0, 0, 0, 0, 0, 0, 0, 0, 0x88, 0, 0, 0, 0, 0, 0, 0, 0, 0, 0, 0, 0x40, 0, 0, 0, 0,
    0, 0x40, 0, 3, 0, 0, 0, 0x33, 0xA5, 0xC5, 0x20, 0x61, 0x9C, 1, 0, 0x67, 3, 0xE, 0, 0x67, 0x83,
    2, 0, 0xE7, 0, 0xE, 0, 0x37, 0xE, 1, 0, 0x67, 3, 0xE, 0, 0x41, 0x27, 0, 0, 0, 0x72, 0x69, 0x73,
    0x63, 0x76, 0, 1, 0x1D, 0, 0, 0, 5, 0x72, 0x76, 0x36, 0x34, 0x69, 0x32, 0x70, 0x31, 0x5F, 0x7A,
    0x62, 0x61, 0x31, 0x70, 0x30, 0x5F, 0x7A, 0x63, 0x62, 0x31, 0x70, 0x30, 0, 0, 0, 0, 0, 0, 0, 0,
    0, 0, 0, 0, 0, 0, 0, 0, 0, 0, 0, 0, 0, 0, 0, 0, 0, 0, 0, 0, 0, 0, 0, 0, 0, 0, 0, 0, 0, 0, 0, 0,
    0, 0, 0, 0, 0, 0, 0, 0, 0, 0, 0, 0, 0, 0, 0, 0, 0, 0, 0, 0, 0, 0, 0, 0, 0, 0, 0, 0, 0, 0, 0, 0,
    0, 1, 0, 0, 0, 6, 0, 0, 0, 0, 0, 0, 0, 0, 0, 1, 0, 0, 0, 0, 0, 0x40, 0, 0, 0, 0, 0, 0, 0, 0x1C,
    0, 0, 0, 0, 0, 0, 0, 0, 0, 0, 0, 0, 0, 0, 0, 2, 0, 0, 0, 0, 0, 0, 0, 0, 0, 0, 0, 0, 0, 0, 0, 0,
    0, 0, 0, 3, 0, 0, 0x70, 0, 0, 0, 0, 0, 0, 0, 0, 0, 0, 0, 0, 0, 0, 0, 0, 0x5C, 0, 0, 0, 0, 0, 0,
    0, 0x28, 0, 0, 0, 0, 0, 0, 0, 0, 0, 0, 0, 0, 0, 0, 0, 1, 0, 0, 0, 0, 0, 0, 0, 0, 0, 0, 0, 0, 0,
    0, 0,
];

/// Where the type of the section of attributes stands in the file.
const TYPE_AT: usize = 268;

const NAMED_CASES: [(u64, u8, RawFlow); 8] = [
    (0x10000, 4, RawFlow::Straight),
    (0x10004, 2, RawFlow::Straight),
    (0x10006, 2, RawFlow::Straight),
    (
        0x10008,
        4,
        RawFlow::RegisterJump {
            register: 28,
            offset: 0,
        },
    ),
    (0x1000C, 4, RawFlow::IndirectCall),
    (0x10010, 4, RawFlow::IndirectCall),
    (0x10014, 4, RawFlow::Straight),
    (0x10018, 4, RawFlow::Call { target: 0x10000 }),
];

/// The same without a section of attributes.
const UNNAMED_CASES: [(u64, u8, RawFlow); 2] = [
    (0x10000, 2, RawFlow::Stop),
    (0x10004, 2, RawFlow::Stop),
];

/// The same file with another text and code: `rv64i2p1_zcmp1_zcmt1p0`. At 10000 (hexadecimal):
/// `cm.popret {ra}, 16`; `cm.popretz {ra}, 16`; `cm.push {ra}, -16`; `cm.jt 31`; `cm.jalt 32`;
/// `c.fld f10, 0(x10)`; `cm.mvsa01 s0, s4`; and CM.PUSH with the list 3.
const STACK_TEXT: &[u8; 22] = b"rv64i2p1_zcmp1_zcmt1p0";

const STACK_CODE: [u8; 16] = [
    0x42, 0xBE, 0x42, 0xBC, 0x42, 0xB8, 0x7E, 0xA0, 0x82, 0xA0, 0x08, 0x21, 0x32, 0xAC, 0x32, 0xB8,
];

/// Where the code and the text stand in the file.
const CODE_AT: usize = 64;

const TEXT_AT: usize = 109;

const STACK_CASES: [(u64, u8, RawFlow); 8] = [
    (0x10000, 2, RawFlow::Return),
    (0x10002, 2, RawFlow::Return),
    (0x10004, 2, RawFlow::Straight),
    (0x10006, 2, RawFlow::Unknown),
    (0x10008, 2, RawFlow::IndirectCall),
    (0x1000A, 2, RawFlow::Stop),
    (0x1000C, 2, RawFlow::Straight),
    (0x1000E, 2, RawFlow::Stop),
];

/// The same code where the text names neither: C.FSDSP and its kin.
const DOUBLE_TEXT: &[u8; 22] = b"rv64i2p1_zba1p0_zbb1p0";

fn image(alloc: Global) -> Result<Image, ElfError> {
    Image::parse(alloc, Vec::from_slice(alloc, &FILE)?)
}

#[test]
fn flows_of_a_small_file(rt: HostRuntime) -> Result<(), Fail> {
    let image = image(rt.alloc())?;
    for (a, length, flow) in CASES {
        assert!(rt; image.is_code(a));
        let placed = insn_at(&image, a);
        same_at(&rt, &a, &placed.length, &length);
        same_at(&rt, &a, &raw_flow(&image, a), &flow);
        same_at(&rt, &a, &flow_of(&image, a, placed.insn), &flow);
    }
    Ok(())
}

fn expect_flows(rt: &impl Abort, image: &Image, cases: &[(u64, u8, RawFlow)]) {
    for (a, length, flow) in cases {
        assert!(rt; image.is_code(*a));
        let found = insn_at(image, *a).length;
        assert!(rt; found == *length);
        let found = raw_flow(image, *a);
        assert!(rt; found == *flow);
    }
}

/// What the file names decides, and a stub jumps.
#[test]
fn flows_by_name(rt: HostRuntime) -> Result<(), Fail> {
    let mut bytes = Vec::from_slice(rt.alloc(), &NAMING)?;
    let named = Image::parse(rt.alloc(), Vec::from_slice(rt.alloc(), &NAMING)?)?;
    expect_flows(&rt, &named, &NAMED_CASES);
    if let Some(kind) = bytes.get_mut(TYPE_AT) {
        *kind = 4;
    }
    let unnamed = Image::parse(rt.alloc(), bytes)?;
    expect_flows(&rt, &unnamed, &UNNAMED_CASES);
    Ok(())
}

/// The file with this code and this text.
fn with_text(alloc: Global, text: &[u8; 22]) -> Result<Image, ElfError> {
    let mut bytes = Vec::from_slice(alloc, &NAMING)?;
    for (i, byte) in STACK_CODE.iter().enumerate() {
        if let Some(place) = bytes.get_mut(CODE_AT + i) {
            *place = *byte;
        }
    }
    for (i, byte) in text.iter().enumerate() {
        if let Some(place) = bytes.get_mut(TEXT_AT + i) {
            *place = *byte;
        }
    }
    Image::parse(alloc, bytes)
}

/// Zcmp and Zcmt stand in the place of the loads and stores of doubles, which all go straight on.
#[test]
fn flows_of_the_stack(rt: HostRuntime) -> Result<(), Fail> {
    let named = with_text(rt.alloc(), STACK_TEXT)?;
    expect_flows(&rt, &named, &STACK_CASES);
    let unnamed = with_text(rt.alloc(), DOUBLE_TEXT)?;
    for (a, length, _) in STACK_CASES {
        expect_flows(&rt, &unnamed, &[(a, length, RawFlow::Straight)]);
    }
    Ok(())
}

/// First halfwords, their words, and the lengths if control goes straight on: `c.nop`, `c.jr x5`,
/// no instruction, `addi x0, x0, 0`, its lower half alone, `jal x0, 0`, and a longer form.
const FORMS: [(u16, Option<u32>, Option<u8>); 7] = [
    (1, None, Some(2)),
    (0x8282, None, None),
    (0, None, None),
    (0x13, Some(0x13), Some(4)),
    (0x13, None, None),
    (0x6F, Some(0x6F), None),
    (0x1F, Some(0x1F), None),
];

/// A form is answered the same when it is asked for again.
#[test]
fn straight_forms(rt: HostRuntime) -> Result<(), Fail> {
    let mut forms = StraightForms::new(rt.alloc(), Extensions::none());
    for (half, word, length) in FORMS.iter().chain(&FORMS).copied() {
        same_at(&rt, &half, &forms.length(half, word), &length);
    }
    Ok(())
}

#[test]
fn laws_hold() {
    every_expansion_decodes();
    each_word_is_its_instruction();
}
