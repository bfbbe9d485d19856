//! What single instructions read and write.

use crate::asserts::{same, same_at};
use live_regs::effects_of;
use rv_decode::{CsrKind, ExtendKind, Insn, decode};
use std::test::Fail;

/// Words with the masks of what they read and write, by the operands of their formats.
static WORDS: [(u32, u32, u32); 10] = [
    // addi x10, x11, 1
    (0x0015_8513, 1 << 11, 1 << 10),
    // add x10, x11, x12
    (0x00C5_8533, 1 << 11 | 1 << 12, 1 << 10),
    // sd x10, 0(x11)
    (0x00A5_B023, 1 << 10 | 1 << 11, 0),
    // ld x10, 0(x11)
    (0x0005_B503, 1 << 11, 1 << 10),
    // beq x10, x0, 8: x0 is never read
    (0x0005_0463, 1 << 10, 0),
    // jal x1, 8
    (0x0080_00EF, 0, 1 << 1),
    // jalr x0, 0(x1)
    (0x0000_8067, 1 << 1, 0),
    // lr.w x10, (x11)
    (0x1005_A52F, 1 << 11, 1 << 10),
    // lui x31, 1
    (0x0000_1FB7, 0, 1 << 31),
    // ecall
    (0x0000_0073, 0xFFFF_FFFE, 0),
];

#[test]
fn effects_of_words(rt: HostRuntime) -> Result<(), Fail> {
    for &(word, reads, writes) in WORDS.iter() {
        let effects = effects_of(decode(word));
        same_at(&rt, &word, &effects.reads, &reads);
        same_at(&rt, &word, &effects.writes, &writes);
    }
    let none = effects_of(None);
    same(&rt, &none.reads, &0);
    same(&rt, &none.writes, &0);
    Ok(())
}

/// Instructions by their fields, with the masks of what they read and write.
const EXTENDED: [(Insn, u32, u32); 7] = [
    // ecall
    (Insn::Ecall, 0xFFFF_FFFE, 0),
    // csrrw x10, mscratch, x11
    (
        Insn::Csr {
            kind: CsrKind::Csrrw,
            rd: 10,
            source: 11,
            csr: 0x340,
        },
        1 << 11,
        1 << 10,
    ),
    // fsw f1, 8(x9)
    (
        Insn::Float {
            writes: 0,
            reads: 9,
        },
        1 << 9,
        0,
    ),
    // sh2add x10, x11, x12
    (
        Insn::ShiftAdd {
            shift: 2,
            zero_extended: false,
            rd: 10,
            rs1: 11,
            rs2: 12,
        },
        1 << 11 | 1 << 12,
        1 << 10,
    ),
    // slli.uw x0, x31, 3: x0 is never written
    (
        Insn::ShiftAdd {
            shift: 3,
            zero_extended: true,
            rd: 0,
            rs1: 31,
            rs2: 0,
        },
        1 << 31,
        0,
    ),
    // sext.b x5, x6
    (
        Insn::Extend {
            kind: ExtendKind::SextB,
            rd: 5,
            rs1: 6,
        },
        1 << 6,
        1 << 5,
    ),
    // amocas.q x6, x8, (x10) with x0 in both masks
    (
        Insn::Extension {
            reads: 1 | 1 << 6 | 1 << 7 | 1 << 8 | 1 << 9 | 1 << 10,
            writes: 1 | 1 << 6 | 1 << 7,
        },
        0x7C0,
        0xC0,
    ),
];

#[test]
fn effects_of_extensions(rt: HostRuntime) -> Result<(), Fail> {
    for (insn, reads, writes) in EXTENDED {
        let effects = effects_of(Some(insn));
        assert_eq!(rt; effects.reads, reads);
        assert_eq!(rt; effects.writes, writes);
    }
    Ok(())
}
