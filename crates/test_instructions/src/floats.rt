//! The float table and the four compressed forms at words from outside: what binutils' assembler
//! makes of at least one instruction of each row, worked words, and words that no row holds of.

use crate::asserts::holds;
use rv_decode::Insn;
use rv_float::{decode_float, expand_float};
use std::process::Abort;
use std::test::Fail;

/// `as -march=rv64gc`: a word, and the integer registers that it writes and reads.
const ASSEMBLED: [(u32, u8, u8); 34] = [
    (0x00052787, 0, 10), // flw fa5,0(a0)
    (0x00053787, 0, 10), // fld fa5,0(a0)
    (0x00f52027, 0, 10), // fsw fa5,0(a0)
    (0x00f53027, 0, 10), // fsd fa5,0(a0)
    (0x68c5f543, 0, 0), // fmadd.s fa0,fa1,fa2,fa3
    (0x6ac5f543, 0, 0), // fmadd.d fa0,fa1,fa2,fa3
    (0x68c5f547, 0, 0), // fmsub.s fa0,fa1,fa2,fa3
    (0x6ac5f54b, 0, 0), // fnmsub.d fa0,fa1,fa2,fa3
    (0x6ac5f54f, 0, 0), // fnmadd.d fa0,fa1,fa2,fa3
    (0x00c5f553, 0, 0), // fadd.s fa0,fa1,fa2
    (0x02a57553, 0, 0), // fadd.d fa0,fa0,fa0
    (0x0ac5f553, 0, 0), // fsub.d fa0,fa1,fa2
    (0x10c5f553, 0, 0), // fmul.s fa0,fa1,fa2
    (0x1ac5f553, 0, 0), // fdiv.d fa0,fa1,fa2
    (0x5805f553, 0, 0), // fsqrt.s fa0,fa1
    (0x5a05f553, 0, 0), // fsqrt.d fa0,fa1
    (0x4015f553, 0, 0), // fcvt.s.d fa0,fa1
    (0x42058553, 0, 0), // fcvt.d.s fa0,fa1
    (0x20c58553, 0, 0), // fsgnj.s fa0,fa1,fa2
    (0x22c5a553, 0, 0), // fsgnjx.d fa0,fa1,fa2
    (0x28c58553, 0, 0), // fmin.s fa0,fa1,fa2
    (0x2ac59553, 0, 0), // fmax.d fa0,fa1,fa2
    (0xa0c5a553, 10, 0), // feq.s a0,fa1,fa2
    (0xa2c58553, 10, 0), // fle.d a0,fa1,fa2
    (0xc0059553, 10, 0), // fcvt.w.s a0,fa1,rtz
    (0xc2359553, 10, 0), // fcvt.lu.d a0,fa1,rtz
    (0xe0058553, 10, 0), // fmv.x.w a0,fa1
    (0xe2059553, 10, 0), // fclass.d a0,fa1
    (0xd005f553, 0, 11), // fcvt.s.w fa0,a1
    (0xd235f553, 0, 11), // fcvt.d.lu fa0,a1
    (0xf0058553, 0, 11), // fmv.w.x fa0,a1
    (0xf2058553, 0, 11), // fmv.d.x fa0,a1
    (0x00013507, 0, 2), // fld fa0,0(sp)
    (0x00000053, 0, 0), // fadd.s ft0,ft0,ft0,rne
];

/// Words that no row holds of: a wrong rounding mode, precision, second register or function.
const REFUSED: [u32; 12] = [
    0x02a55553, // fadd.d with rounding mode 5
    0x02a56553, // fadd.d with rounding mode 6
    0x00051787, // a load of a halfword
    0x00054787, // a load of a quadword
    0x6cc5f543, // fmadd.h
    0x5815f553, // fsqrt.s with a second register
    0x4005f553, // fcvt.s.s
    0x20c5b553, // fsgnj.s with funct3 3
    0xc0459553, // fcvt.w.s with second register 4
    0xe005a553, // fclass.s with funct3 2
    0xf0059553, // fmv.w.x with funct3 1
    0x00000013, // nop
];

/// The four forms, by binutils, and halfwords of neither table or of the other one.
const EXPANDED: [(u16, Option<u32>); 12] = [
    (0x2108, Some(0x00053507)), // c.fld fa0,0(a0)
    (0x3fe4, Some(0x0f87b487)), // c.fld fs1,248(a5)
    (0xa108, Some(0x00a53027)), // c.fsd fa0,0(a0)
    (0xbfe4, Some(0x0e97bc27)), // c.fsd fs1,248(a5)
    (0x2502, Some(0x00013507)), // c.fldsp fa0,0(sp)
    (0x3ffe, Some(0x1f813f87)), // c.fldsp ft11,504(sp)
    (0x2002, Some(0x00013007)), // c.fldsp ft0,0(sp)
    (0xa02a, Some(0x00a13027)), // c.fsdsp fa0,0(sp)
    (0xbffe, Some(0x1ff13c27)), // c.fsdsp ft11,504(sp)
    (0x8082, None), // ret
    (0x0001, None), // c.nop
    (0x2001, None), // c.addiw with x0
];

fn expect_float(rt: &impl Abort, word: u32, writes: u8, reads: u8) {
    let found = decode_float(word);
    holds(rt, found == Some(Insn::Float { writes, reads }));
}

#[test]
fn words_of_each_row(rt: HostRuntime) -> Result<(), Fail> {
    for (word, writes, reads) in ASSEMBLED {
        expect_float(&rt, word, writes, reads);
    }
    for word in REFUSED {
        let found = decode_float(word);
        holds(&rt, found.is_none());
    }
    Ok(())
}

#[test]
fn the_four_forms(rt: HostRuntime) -> Result<(), Fail> {
    for (half, word) in EXPANDED {
        let found = expand_float(half);
        holds(&rt, found == word);
    }
    Ok(())
}

/// Each of the four forms is a quadrant and a funct3, five bits, and leaves 11 bits free.
#[test]
fn halfwords_by_form(rt: HostRuntime) -> Result<(), Fail> {
    let count = (0..=u16::MAX)
        .filter(|half| expand_float(*half).is_some())
        .count();
    holds(&rt, count == 4 * 2048);
    Ok(())
}
