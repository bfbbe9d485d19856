//! The choice of the row of the compressed table that holds of a halfword.

ghost use Rattle.std.specs.Prelude.{◌≡◌, if◌then◌else◌};
ghost use Rattle.rvc_expand.specs.Bits.{field};
ghost use Rattle.rvc_expand.specs.Halfword.{is_nonzero};
ghost use Rattle.rvc_expand.specs.Table.{quadrant_0, quadrant_1, quadrant_2, first_word, expansion};

use crate::bits::field;
use crate::halfword::{
    addi4spn_immediate, addi16sp_immediate, branch_offset, double_offset, first_popular,
    first_register, jump_offset, ldsp_offset, lui_immediate, lwsp_offset, sdsp_offset,
    second_popular, second_register, shift_amount, small_immediate, swsp_offset, word_offset,
};
use crate::instructions::{
    add, addi, addiw, addw, and, andi, beq, bne, ebreak, jal, jalr, ld, lui, lw, or, sd, slli,
    srai, srli, sub, subw, sw, xor,
};

/// x0, whose value is always 0.
const ZERO: u32 = 0;

/// x1, the return address.
const LINK_REGISTER: u32 = 1;

/// x2.
const STACK_POINTER: u32 = 2;

/// The 32-bit instruction that the 16-bit instruction `half` stands for (RISC-V Unprivileged ISA
/// 20240411, chapter "C" Extension for Compressed Instructions, "RVC Instruction Set Listings").
///
/// `None` exactly if no form of the table holds of `half`. None holds of the forms of the F and D
/// extensions, reserved encodings and the defined illegal instruction 0000. None holds of a
/// halfword whose lowest two bits are 11, which begins a longer instruction. An expanded jump or
/// branch counts its offset from the address of the 16-bit instruction.
pub fn expand(half: u16) -> Option<u32>
    ensures { result ≡ expansion half }
{
    let half = u32::from(half);
    match field(half, 1, 0) {
        0b00 => expand_quadrant_0(half),
        0b01 => expand_quadrant_1(half),
        0b10 => expand_quadrant_2(half),
        _ => None,
    }
}

/// Quadrant 0: accesses of memory through the popular registers.
#[inline]
#[tactic(auto, unfolding(crate::specs::Table::quadrant_0))]
fn expand_quadrant_0(half: u32) -> Option<u32>
    requires quadrant { field half 1 0 ≡ 0 }
    ensures { result ≡ first_word quadrant_0 half }
{
    let base = first_popular(half);
    let data = second_popular(half);
    match field(half, 15, 13) {
        0b000 => expand_addi4spn(half),
        0b010 => Some(lw(data, base, word_offset(half))),
        0b011 => Some(ld(data, base, double_offset(half))),
        0b110 => Some(sw(data, base, word_offset(half))),
        0b111 => Some(sd(data, base, double_offset(half))),
        _ => None,
    }
}

/// C.ADDI4SPN.
#[inline]
#[tactic(auto, unfolding(crate::specs::Table::quadrant_0))]
fn expand_addi4spn(half: u32) -> Option<u32>
    requires quadrant { field half 1 0 ≡ 0 }
    requires funct3 { field half 15 13 ≡ 0 }
    ensures { result ≡ first_word quadrant_0 half }
{
    let immediate = nonzero(addi4spn_immediate(half))?;
    Some(addi(second_popular(half), STACK_POINTER, immediate))
}

/// Quadrant 1: arithmetic with small immediates, and jumps and branches.
#[inline]
#[tactic(auto, unfolding(crate::specs::Table::quadrant_1))]
fn expand_quadrant_1(half: u32) -> Option<u32>
    requires quadrant { field half 1 0 ≡ 1 }
    ensures { result ≡ first_word quadrant_1 half }
{
    let rd = first_register(half);
    match field(half, 15, 13) {
        0b000 => Some(addi(rd, rd, small_immediate(half))),
        0b001 if rd != ZERO => Some(addiw(rd, rd, small_immediate(half))),
        0b010 => Some(addi(rd, ZERO, small_immediate(half))),
        0b011 => expand_addi16sp_or_lui(half),
        0b100 => expand_arithmetic(half),
        0b101 => Some(jal(ZERO, jump_offset(half))),
        0b110 => Some(beq(first_popular(half), ZERO, branch_offset(half))),
        0b111 => Some(bne(first_popular(half), ZERO, branch_offset(half))),
        _ => None,
    }
}

/// C.ADDI16SP if rd is the stack pointer, else C.LUI.
#[inline]
#[tactic(auto, unfolding(crate::specs::Table::quadrant_1))]
fn expand_addi16sp_or_lui(half: u32) -> Option<u32>
    requires quadrant { field half 1 0 ≡ 1 }
    requires funct3 { field half 15 13 ≡ 3 }
    ensures { result ≡ first_word quadrant_1 half }
{
    let rd = first_register(half);
    if rd == STACK_POINTER {
        let immediate = nonzero(addi16sp_immediate(half))?;
        Some(addi(STACK_POINTER, STACK_POINTER, immediate))
    } else {
        let immediate = nonzero(lui_immediate(half))?;
        Some(lui(rd, immediate))
    }
}

/// Shifts and C.ANDI by bits 11 to 10, else an operation on two registers.
#[inline]
#[tactic(auto, unfolding(crate::specs::Table::quadrant_1))]
fn expand_arithmetic(half: u32) -> Option<u32>
    requires quadrant { field half 1 0 ≡ 1 }
    requires funct3 { field half 15 13 ≡ 4 }
    ensures { result ≡ first_word quadrant_1 half }
{
    let rd = first_popular(half);
    match field(half, 11, 10) {
        0b00 => Some(srli(rd, rd, shift_amount(half))),
        0b01 => Some(srai(rd, rd, shift_amount(half))),
        0b10 => Some(andi(rd, rd, small_immediate(half))),
        _ => expand_register_arithmetic(half),
    }
}

/// C.SUB to C.ADDW, by bit 12 and bits 6 to 5.
#[inline]
#[tactic(auto, unfolding(crate::specs::Table::quadrant_1))]
fn expand_register_arithmetic(half: u32) -> Option<u32>
    requires quadrant { field half 1 0 ≡ 1 }
    requires funct3 { field half 15 13 ≡ 4 }
    requires funct2 { field half 11 10 ≡ 3 }
    ensures { result ≡ first_word quadrant_1 half }
{
    let rd = first_popular(half);
    let rs2 = second_popular(half);
    match (field(half, 12, 12), field(half, 6, 5)) {
        (0, 0b00) => Some(sub(rd, rd, rs2)),
        (0, 0b01) => Some(xor(rd, rd, rs2)),
        (0, 0b10) => Some(or(rd, rd, rs2)),
        (0, _) => Some(and(rd, rd, rs2)),
        (_, 0b00) => Some(subw(rd, rd, rs2)),
        (_, 0b01) => Some(addw(rd, rd, rs2)),
        _ => None,
    }
}

/// Quadrant 2: accesses of memory through the stack pointer, and moves and jumps by registers.
#[inline]
#[tactic(auto, unfolding(crate::specs::Table::quadrant_2))]
fn expand_quadrant_2(half: u32) -> Option<u32>
    requires quadrant { field half 1 0 ≡ 2 }
    ensures { result ≡ first_word quadrant_2 half }
{
    let rd = first_register(half);
    match field(half, 15, 13) {
        0b000 => Some(slli(rd, rd, shift_amount(half))),
        0b010 if rd != ZERO => Some(lw(rd, STACK_POINTER, lwsp_offset(half))),
        0b011 if rd != ZERO => Some(ld(rd, STACK_POINTER, ldsp_offset(half))),
        0b100 => expand_move_or_jump(half),
        0b110 => Some(sw(second_register(half), STACK_POINTER, swsp_offset(half))),
        0b111 => Some(sd(second_register(half), STACK_POINTER, sdsp_offset(half))),
        _ => None,
    }
}

/// C.JR, C.MV, C.EBREAK, C.JALR and C.ADD, by bit 12 and which registers are x0.
#[inline]
#[tactic(auto, unfolding(crate::specs::Table::quadrant_2))]
fn expand_move_or_jump(half: u32) -> Option<u32>
    requires quadrant { field half 1 0 ≡ 2 }
    requires funct3 { field half 15 13 ≡ 4 }
    ensures { result ≡ first_word quadrant_2 half }
{
    match (
        field(half, 12, 12),
        first_register(half),
        second_register(half),
    ) {
        (0, ZERO, ZERO) => None,
        (0, rs1, ZERO) => Some(jalr(ZERO, rs1, 0)),
        (0, rd, rs2) => Some(add(rd, ZERO, rs2)),
        (_, ZERO, ZERO) => Some(ebreak()),
        (_, rs1, ZERO) => Some(jalr(LINK_REGISTER, rs1, 0)),
        (_, rd, rs2) => Some(add(rd, rd, rs2)),
    }
}

/// The number, if it is not 0: an immediate of 0 is refused by some forms.
#[inline]
fn nonzero(number: u32) -> Option<u32>
    ensures { result ≡ (if is_nonzero number then Some number else None) }
{
    (number != 0).then_some(number)
}
