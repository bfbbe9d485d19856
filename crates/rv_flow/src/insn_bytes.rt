//! The length and the flow of an instruction by its bytes. What mostly ends a run of straight
//! instructions is told by its opcode: jumps, calls, returns and branches are not decoded.

ghost use Rattle.std.specs.Prelude.{◌≡◌, ◌*◌, ◌<◌, ◌^◌, nat_lt, if◌then◌else◌, pos, ◌-ℤ◌};
ghost use Rattle.elf_image.specs.Architecture.{extensions_of};
ghost use Rattle.rv_decode.specs.Fields.{opcode, sign_extended};
ghost use Rattle.rvc_expand.specs.Halfword;
ghost use Rattle.rv_flow.specs.Placed.{word_insn, compressed_insn};
ghost use Rattle.rv_flow.specs.Raw.{address_plus, raw_flow_by};
ghost use Rattle.rv_flow.specs.InsnBytes.{AreBytesAt, placed_flow_at};
ghost use Rattle.rv_flow.specs.Inner.{flow_of_whole, long};

use crate::placed::{compressed_insn, word_insn};
use crate::raw::{RawFlow, flow_of, insn_flow, jal_flow, register_flow};
use elf_image::Image;
use rv_decode::Insn;
use rv_decode::fields::{b_offset, funct3, i_immediate, j_offset, opcode, rd, rs1};
use rvc_expand::bits::field;
use rvc_expand::halfword::{branch_offset, first_register, jump_offset, second_register};

/// The opcodes of the instructions that end most runs (section 2.5).
const BRANCH: u8 = 0x63;

const JALR: u8 = 0x67;

const JAL: u8 = 0x6F;

/// What is no instruction stops.
const NO_INSN: PlacedFlow = PlacedFlow {
    length: 2,
    flow: RawFlow::Stop,
};

/// The bytes at a code address that an instruction there may have.
#[derive(Clone, Copy, Debug, PartialEq, Eq)]
pub struct InsnBytes {
    /// Its first two bytes.
    pub half: u16,
    /// Its four bytes, if all of them lie in the code section.
    pub word: Option<u32>,
}

/// The length and the flow of an instruction in its place.
#[derive(Clone, Copy, Debug, PartialEq, Eq)]
pub struct PlacedFlow {
    /// Its length in bytes, 2 or 4; 2 if it is no instruction.
    pub length: u8,
    /// Where it alone sends control.
    pub flow: RawFlow,
}

/// What [`insn_at`](crate::insn_at) and [`raw_flow`](crate::raw_flow) tell of the instruction at
/// the code address `a`, whose bytes are `read`.
pub fn flow_of_bytes(image: &Image, a: u64, read: InsnBytes) -> PlacedFlow
    requires { AreBytesAt image.now a read }
    ensures { result ≡ placed_flow_at image.now a }
{
    let half = read.half;
    if half & 0b11 != 0b11 {
        PlacedFlow {
            length: 2,
            flow: short_flow(image, a, half),
        }
    } else if half >> 2 & 0b111 == 0b111 {
        NO_INSN
    } else {
        match read.word {
            None => NO_INSN,
            Some(word) => word_flow(image, a, word),
        }
    }
}

/// The flow of a halfword as a 16-bit instruction. C.J, C.BEQZ, C.BNEZ, C.JR and C.JALR are told by
/// the quadrant and funct3 (chapter 26, "C").
#[tactic(auto, using(crate::proofs::EndsTold::short_jump, crate::proofs::EndsTold::short_beqz, crate::proofs::EndsTold::short_bnez, crate::proofs::EndsTold::short_register))]
fn short_flow(image: &Image, a: u64, half: u16) -> RawFlow
    ensures { result ≡ raw_flow_by image.now a (compressed_insn (extensions_of image.now) half) }
{
    let bits = u32::from(half);
    match (field(bits, 1, 0), field(bits, 15, 13)) {
        (0b01, 0b101) => RawFlow::Jump {
            target: a.wrapping_add_signed(signed(jump_offset(bits), 1 << 20)),
        },
        (0b01, 0b110) => short_branch(a, bits),
        (0b01, 0b111) => short_branch(a, bits),
        (0b10, 0b100) if second_register(bits) == 0 && first_register(bits) != 0 => {
            let register = first_register(bits) as u8;
            register_flow(image, a, field(bits, 12, 12) as u8, register, 0)
        }
        _ => flow_of(image, a, compressed_insn(image.extensions(), half)),
    }
}

/// The flow of a compressed branch.
fn short_branch(a: u64, half: u32) -> RawFlow
    ensures flow { result
        ≡ RawFlow.Branch (address_plus a (sign_extended 13 (Halfword.branch_offset half))) }
    ensures fits { Halfword.branch_offset half < 2 ^ 13 }
{
    RawFlow::Branch {
        target: a.wrapping_add_signed(signed(branch_offset(half), 1 << 12)),
    }
}

/// The length and the flow of a 32-bit instruction. JAL, JALR and the branches are told by the
/// opcode and funct3.
#[tactic(auto, using(crate::proofs::EndsTold::jal_told, crate::proofs::EndsTold::branch_told))]
fn word_flow(image: &Image, a: u64, word: u32) -> PlacedFlow
    ensures { result ≡ flow_of_whole image.now a (word_insn (extensions_of image.now) word) }
{
    match opcode(word) {
        JAL => long(jal_flow(a, rd(word), j_offset(word))),
        BRANCH if !matches!(funct3(word), 2 | 3) => {
            long(RawFlow::Branch {
                target: a.wrapping_add_signed(b_offset(word)),
            })
        }
        JALR => jalr_word_flow(image, a, word),
        _ => flow_of_whole(image, a, word_insn(image.extensions(), word)),
    }
}

/// That of a word whose opcode is that of JALR.
#[tactic(auto, using(crate::proofs::EndsTold::jalr_told, crate::proofs::EndsTold::jalr_none))]
fn jalr_word_flow(image: &Image, a: u64, word: u32) -> PlacedFlow
    requires { opcode word ≡ JALR }
    ensures { result ≡ flow_of_whole image.now a (word_insn (extensions_of image.now) word) }
{
    if funct3(word) != 0 {
        return NO_INSN;
    }
    long(register_flow(image, a, rd(word), rs1(word), i_immediate(word)))
}

/// That of what a whole word is, which is decoded.
#[inline(never)]
fn flow_of_whole(image: &Image, a: u64, insn: Option<Insn>) -> PlacedFlow
    ensures { result ≡ flow_of_whole image.now a insn }
{
    match insn {
        None => NO_INSN,
        Some(insn) => long(insn_flow(image, a, insn)),
    }
}

/// An instruction of 32 bits with this flow.
fn long(flow: RawFlow) -> PlacedFlow
    ensures { result ≡ long flow }
{
    PlacedFlow { length: 4, flow }
}

/// `n` in two's complement, where `sign` is the place value of its highest bit.
fn signed(n: u32, sign: u32) -> i64
    ensures { result ≡ (if nat_lt n sign then pos n else pos n -ℤ pos (2 * sign)) }
{
    if n < sign {
        i64::from(n)
    } else {
        i64::from(n) - 2 * i64::from(sign)
    }
}
