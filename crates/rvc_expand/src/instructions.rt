//! The 32-bit instructions that the compressed forms stand for. A register is its number, 0 to 31;
//! an immediate or offset is in two's complement, of the width of its format.

ghost use Rattle.std.specs.Prelude.{◌≡◌, ◌<◌, ◌^◌};
ghost use Rattle.rvc_expand.specs.Instructions.{addi, andi, slli, srli, srai, addiw, lui, lw, ld};
ghost use Rattle.rvc_expand.specs.Instructions.{sw, sd, add, sub, xor, or, and, addw, subw, jal};
ghost use Rattle.rvc_expand.specs.Instructions.{jalr, beq, bne, ebreak};

use crate::formats::{b_type, i_type, j_type, r_type, s_type, u_type};

// The major opcodes, by the ISA manual's names.
const LOAD: u32 = 0x03;

const OP_IMM: u32 = 0x13;

const OP_IMM_32: u32 = 0x1b;

const STORE: u32 = 0x23;

const OP: u32 = 0x33;

const LUI: u32 = 0x37;

const OP_32: u32 = 0x3b;

const BRANCH: u32 = 0x63;

const JALR: u32 = 0x67;

const JAL: u32 = 0x6f;

const SYSTEM: u32 = 0x73;

/// `addi rd, rs1, immediate`.
#[inline]
pub fn addi(rd: u32, rs1: u32, immediate: u32) -> u32
    requires rd_fits { rd < 2 ^ 5 }
    requires rs1_fits { rs1 < 2 ^ 5 }
    requires immediate_fits { immediate < 2 ^ 12 }
    ensures { result ≡ addi rd rs1 immediate }
{
    i_type(OP_IMM, 0, rd, rs1, immediate)
}

/// `andi rd, rs1, immediate`.
#[inline]
pub fn andi(rd: u32, rs1: u32, immediate: u32) -> u32
    requires rd_fits { rd < 2 ^ 5 }
    requires rs1_fits { rs1 < 2 ^ 5 }
    requires immediate_fits { immediate < 2 ^ 12 }
    ensures { result ≡ andi rd rs1 immediate }
{
    i_type(OP_IMM, 7, rd, rs1, immediate)
}

/// `slli rd, rs1, amount`.
#[inline]
pub fn slli(rd: u32, rs1: u32, amount: u32) -> u32
    requires rd_fits { rd < 2 ^ 5 }
    requires rs1_fits { rs1 < 2 ^ 5 }
    requires amount_fits { amount < 2 ^ 6 }
    ensures { result ≡ slli rd rs1 amount }
{
    i_type(OP_IMM, 1, rd, rs1, amount)
}

/// `srli rd, rs1, amount`.
#[inline]
pub fn srli(rd: u32, rs1: u32, amount: u32) -> u32
    requires rd_fits { rd < 2 ^ 5 }
    requires rs1_fits { rs1 < 2 ^ 5 }
    requires amount_fits { amount < 2 ^ 6 }
    ensures { result ≡ srli rd rs1 amount }
{
    i_type(OP_IMM, 5, rd, rs1, amount)
}

/// `srai rd, rs1, amount`: bit 10 of the immediate tells it from `srli`.
#[inline]
pub fn srai(rd: u32, rs1: u32, amount: u32) -> u32
    requires rd_fits { rd < 2 ^ 5 }
    requires rs1_fits { rs1 < 2 ^ 5 }
    requires amount_fits { amount < 2 ^ 6 }
    ensures { result ≡ srai rd rs1 amount }
{
    i_type(OP_IMM, 5, rd, rs1, amount | 0x400)
}

/// `addiw rd, rs1, immediate`.
#[inline]
pub fn addiw(rd: u32, rs1: u32, immediate: u32) -> u32
    requires rd_fits { rd < 2 ^ 5 }
    requires rs1_fits { rs1 < 2 ^ 5 }
    requires immediate_fits { immediate < 2 ^ 12 }
    ensures { result ≡ addiw rd rs1 immediate }
{
    i_type(OP_IMM_32, 0, rd, rs1, immediate)
}

/// `lui rd, immediate`; bits 11 to 0 of the immediate are not kept.
#[inline]
pub fn lui(rd: u32, immediate: u32) -> u32
    requires rd_fits { rd < 2 ^ 5 }
    ensures { result ≡ lui rd immediate }
{
    u_type(LUI, rd, immediate)
}

/// `lw rd, offset(rs1)`.
#[inline]
pub fn lw(rd: u32, rs1: u32, offset: u32) -> u32
    requires rd_fits { rd < 2 ^ 5 }
    requires rs1_fits { rs1 < 2 ^ 5 }
    requires offset_fits { offset < 2 ^ 12 }
    ensures { result ≡ lw rd rs1 offset }
{
    i_type(LOAD, 2, rd, rs1, offset)
}

/// `ld rd, offset(rs1)`.
#[inline]
pub fn ld(rd: u32, rs1: u32, offset: u32) -> u32
    requires rd_fits { rd < 2 ^ 5 }
    requires rs1_fits { rs1 < 2 ^ 5 }
    requires offset_fits { offset < 2 ^ 12 }
    ensures { result ≡ ld rd rs1 offset }
{
    i_type(LOAD, 3, rd, rs1, offset)
}

/// `sw rs2, offset(rs1)`.
#[inline]
pub fn sw(rs2: u32, rs1: u32, offset: u32) -> u32
    requires rs2_fits { rs2 < 2 ^ 5 }
    requires rs1_fits { rs1 < 2 ^ 5 }
    requires offset_fits { offset < 2 ^ 12 }
    ensures { result ≡ sw rs2 rs1 offset }
{
    s_type(STORE, 2, rs1, rs2, offset)
}

/// `sd rs2, offset(rs1)`.
#[inline]
pub fn sd(rs2: u32, rs1: u32, offset: u32) -> u32
    requires rs2_fits { rs2 < 2 ^ 5 }
    requires rs1_fits { rs1 < 2 ^ 5 }
    requires offset_fits { offset < 2 ^ 12 }
    ensures { result ≡ sd rs2 rs1 offset }
{
    s_type(STORE, 3, rs1, rs2, offset)
}

/// `add rd, rs1, rs2`.
#[inline]
pub fn add(rd: u32, rs1: u32, rs2: u32) -> u32
    requires rd_fits { rd < 2 ^ 5 }
    requires rs1_fits { rs1 < 2 ^ 5 }
    requires rs2_fits { rs2 < 2 ^ 5 }
    ensures { result ≡ add rd rs1 rs2 }
{
    r_type(OP, 0, 0x00, rd, rs1, rs2)
}

/// `sub rd, rs1, rs2`.
#[inline]
pub fn sub(rd: u32, rs1: u32, rs2: u32) -> u32
    requires rd_fits { rd < 2 ^ 5 }
    requires rs1_fits { rs1 < 2 ^ 5 }
    requires rs2_fits { rs2 < 2 ^ 5 }
    ensures { result ≡ sub rd rs1 rs2 }
{
    r_type(OP, 0, 0x20, rd, rs1, rs2)
}

/// `xor rd, rs1, rs2`.
#[inline]
pub fn xor(rd: u32, rs1: u32, rs2: u32) -> u32
    requires rd_fits { rd < 2 ^ 5 }
    requires rs1_fits { rs1 < 2 ^ 5 }
    requires rs2_fits { rs2 < 2 ^ 5 }
    ensures { result ≡ xor rd rs1 rs2 }
{
    r_type(OP, 4, 0x00, rd, rs1, rs2)
}

/// `or rd, rs1, rs2`.
#[inline]
pub fn or(rd: u32, rs1: u32, rs2: u32) -> u32
    requires rd_fits { rd < 2 ^ 5 }
    requires rs1_fits { rs1 < 2 ^ 5 }
    requires rs2_fits { rs2 < 2 ^ 5 }
    ensures { result ≡ or rd rs1 rs2 }
{
    r_type(OP, 6, 0x00, rd, rs1, rs2)
}

/// `and rd, rs1, rs2`.
#[inline]
pub fn and(rd: u32, rs1: u32, rs2: u32) -> u32
    requires rd_fits { rd < 2 ^ 5 }
    requires rs1_fits { rs1 < 2 ^ 5 }
    requires rs2_fits { rs2 < 2 ^ 5 }
    ensures { result ≡ and rd rs1 rs2 }
{
    r_type(OP, 7, 0x00, rd, rs1, rs2)
}

/// `addw rd, rs1, rs2`.
#[inline]
pub fn addw(rd: u32, rs1: u32, rs2: u32) -> u32
    requires rd_fits { rd < 2 ^ 5 }
    requires rs1_fits { rs1 < 2 ^ 5 }
    requires rs2_fits { rs2 < 2 ^ 5 }
    ensures { result ≡ addw rd rs1 rs2 }
{
    r_type(OP_32, 0, 0x00, rd, rs1, rs2)
}

/// `subw rd, rs1, rs2`.
#[inline]
pub fn subw(rd: u32, rs1: u32, rs2: u32) -> u32
    requires rd_fits { rd < 2 ^ 5 }
    requires rs1_fits { rs1 < 2 ^ 5 }
    requires rs2_fits { rs2 < 2 ^ 5 }
    ensures { result ≡ subw rd rs1 rs2 }
{
    r_type(OP_32, 0, 0x20, rd, rs1, rs2)
}

/// `jal rd, offset`.
#[inline]
pub fn jal(rd: u32, offset: u32) -> u32
    requires rd_fits { rd < 2 ^ 5 }
    requires offset_fits { offset < 2 ^ 21 }
    ensures { result ≡ jal rd offset }
{
    j_type(JAL, rd, offset)
}

/// `jalr rd, offset(rs1)`.
#[inline]
pub fn jalr(rd: u32, rs1: u32, offset: u32) -> u32
    requires rd_fits { rd < 2 ^ 5 }
    requires rs1_fits { rs1 < 2 ^ 5 }
    requires offset_fits { offset < 2 ^ 12 }
    ensures { result ≡ jalr rd rs1 offset }
{
    i_type(JALR, 0, rd, rs1, offset)
}

/// `beq rs1, rs2, offset`.
#[inline]
pub fn beq(rs1: u32, rs2: u32, offset: u32) -> u32
    requires rs1_fits { rs1 < 2 ^ 5 }
    requires rs2_fits { rs2 < 2 ^ 5 }
    requires offset_fits { offset < 2 ^ 13 }
    ensures { result ≡ beq rs1 rs2 offset }
{
    b_type(BRANCH, 0, rs1, rs2, offset)
}

/// `bne rs1, rs2, offset`.
#[inline]
pub fn bne(rs1: u32, rs2: u32, offset: u32) -> u32
    requires rs1_fits { rs1 < 2 ^ 5 }
    requires rs2_fits { rs2 < 2 ^ 5 }
    requires offset_fits { offset < 2 ^ 13 }
    ensures { result ≡ bne rs1 rs2 offset }
{
    b_type(BRANCH, 1, rs1, rs2, offset)
}

/// `ebreak`.
#[inline]
pub fn ebreak() -> u32
    ensures { result ≡ ebreak }
{
    i_type(SYSTEM, 0, 0, 0, 1)
}
