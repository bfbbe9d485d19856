//! The bound test before a jump table.

ghost use Rattle.std.specs.Prelude.{◌≡◌, ◌+◌, ◌-◌, ◌*◌, ◌<◌, ◌≤◌, IfSome};
ghost use Rattle.jump_table.specs.Inner.Operands.{IsRegister, IsImmediate, HasOperands};
ghost use Rattle.jump_table.specs.Inner.Near.{IsNear};
ghost use Rattle.jump_table.specs.Bound.{checked, comparison_by, comparison_of};
ghost use Rattle.jump_table.specs.Bound.{constant_of, short_constant, whole_constant};
ghost use Rattle.jump_table.specs.Bound.{constant_before, bound_by, test_at, bound_test};

use crate::approach::{Approach, MOST_PARCELS};
use crate::run::reaches;
use crate::step::{is_in_section, whole_insn_at};
use elf_image::Image;
use rv_decode::{BranchKind, ImmKind, Insn, decode};
use rvc_expand::expand;

/// A comparison that leaves the pattern if the index passes its limit: `bltu limit, index`, or
/// `bgeu index, limit`, which leaves it if they are equal too.
#[derive(Clone, Copy)]
pub struct Comparison {
    /// The register of the index.
    pub index: u8,
    /// The register of the limit.
    pub limit: u8,
    /// Whether an index that equals the limit is excluded.
    pub excludes_equal: bool,
}

/// A bound test.
#[derive(Clone, Copy)]
pub struct BoundTest {
    /// The address of its comparison.
    pub at: u64,
    /// The register of the index.
    pub index: u8,
    /// How many values of the index pass; `None` if the limit is not good.
    pub bound: Option<u32>,
}

/// The bound test of the jump: the one nearest to it, from 4 up to 68 bytes before it. No other is
/// tried.
pub(crate) fn bound_test(way: &Approach) -> Option<BoundTest>
    ensures test { result ≡ bound_test way.now.image.now way.now.start way.now.jump }
    ensures near { IfSome result (λ test. IsNear way.now.start way.now.jump test.at) }
    ensures index { IfSome result (λ test. IsRegister test.index) }
{
    for parcels in 2..=MOST_PARCELS + 2 {
        if way.jump - way.start < 2 * parcels as u64 {
            return None;
        }
        if let Some(test) = test_at(way, parcels) {
            return Some(test);
        }
    }
    None
}

/// The bound test this many parcels before the jump, if there is one: a comparison, a constant set
/// just before it, and a straight run from after it to the jump.
fn test_at(way: &Approach, parcels: usize) -> Option<BoundTest>
    requires some { 2 ≤ parcels }
    requires few { parcels < 35 }
    requires inside { way.now.start + 2 * parcels ≤ way.now.jump }
    ensures test { result
        ≡ test_at way.now.image.now way.now.start way.now.jump (way.now.jump - 2 * parcels) }
    ensures near { IfSome result (λ test. IsNear way.now.start way.now.jump test.at) }
    ensures index { IfSome result (λ test. IsRegister test.index) }
{
    if !reaches(way, parcels - 2) {
        return None;
    }
    let Approach {
        image,
        start,
        jump,
        ..
    } = *way;
    let at = jump - 2 * parcels as u64;
    let comparison = comparison_of(whole_insn_at(image, start, at)?)?;
    let limit = constant_before(image, start, at, comparison.limit)?;
    Some(BoundTest {
        at,
        index: comparison.index,
        bound: bound_by(comparison.excludes_equal, limit),
    })
}

fn comparison_of(insn: Insn) -> Option<Comparison>
    requires { HasOperands insn }
    ensures value { result ≡ comparison_of insn }
    ensures index { IfSome result (λ c. IsRegister c.index) }
{
    match insn {
        Insn::Branch { kind, rs1, rs2, .. } => comparison_by(kind, rs1, rs2),
        _ => None,
    }
}

fn comparison_by(kind: BranchKind, rs1: u8, rs2: u8) -> Option<Comparison>
    requires first { IsRegister rs1 }
    requires second { IsRegister rs2 }
    ensures value { result ≡ comparison_by kind rs1 rs2 }
    ensures index { IfSome result (λ c. IsRegister c.index) }
{
    match kind {
        BranchKind::Bltu => checked(Comparison {
            index: rs2,
            limit: rs1,
            excludes_equal: false,
        }),
        BranchKind::Bgeu => checked(Comparison {
            index: rs1,
            limit: rs2,
            excludes_equal: true,
        }),
        _ => None,
    }
}

// The two registers differ, and neither is x0.
fn checked(c: Comparison) -> Option<Comparison>
    ensures value { result ≡ checked c }
    ensures same { IfSome result (λ d. d ≡ c) }
{
    if c.index != c.limit && c.index != 0 && c.limit != 0 {
        Some(c)
    } else {
        None
    }
}

// The constant that `addi register, x0, imm` sets the register to.
fn constant_of(register: u8, insn: Insn) -> Option<i64>
    requires { HasOperands insn }
    ensures value { result ≡ constant_of register insn }
    ensures small { IfSome result IsImmediate }
{
    match insn {
        Insn::Imm {
            kind: ImmKind::Addi,
            rd,
            rs1,
            imm,
        } if rd == register && rs1 == 0 => Some(imm),
        _ => None,
    }
}

// The constant that the 16-bit instruction at `a` sets the register to.
fn short_constant(image: &Image, start: u64, a: u64, register: u8) -> Option<i64>
    ensures value { result ≡ short_constant image.now start a register }
    ensures small { IfSome result IsImmediate }
{
    if is_in_section(image, start, a) {
        constant_of(register, decode(expand(image.half_at(a)?)?)?)
    } else {
        None
    }
}

// The constant that the 32-bit instruction at `a` sets the register to.
fn whole_constant(image: &Image, start: u64, a: u64, register: u8) -> Option<i64>
    ensures value { result ≡ whole_constant image.now start a register }
    ensures small { IfSome result IsImmediate }
{
    constant_of(register, whole_insn_at(image, start, a)?)
}

/// The constant that the instruction just before `b` sets the register to: the 16-bit one two bytes
/// before it, else the 32-bit one four bytes before it.
fn constant_before(image: &Image, start: u64, b: u64, register: u8) -> Option<i64>
    requires { start ≤ b }
    ensures value { result ≡ constant_before image.now start b register }
    ensures small { IfSome result IsImmediate }
{
    if b - start < 2 {
        return None;
    }
    if let Some(limit) = short_constant(image, start, b - 2, register) {
        return Some(limit);
    }
    if b - start < 4 {
        return None;
    }
    whole_constant(image, start, b - 4, register)
}

// How many values of the index pass: up to the limit, or below it.
fn bound_by(excludes_equal: bool, limit: i64) -> Option<u32>
    requires { IsImmediate limit }
    ensures value { result ≡ bound_by excludes_equal limit }
{
    if limit < 0 {
        return None;
    }
    let limit = limit as u32;
    if !excludes_equal {
        Some(limit + 1)
    } else if limit > 0 {
        Some(limit)
    } else {
        None
    }
}
