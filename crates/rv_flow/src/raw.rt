//! Where one instruction alone sends control (RISC-V Unprivileged ISA 20240411, sections 2.5 and
//! 2.8).

ghost use Rattle.std.specs.Prelude.{◌≡◌, ◌≤◌, IsTrue, Some};
ghost use Rattle.elf_image.specs.Code.{is_code};
ghost use Rattle.elf_image.specs.Faults.{IsImage};
ghost use Rattle.rv_flow.specs.Raw.{raw_flow_at, raw_flow_by, insn_flow, jalr_flow, pair_target};
ghost use Rattle.rv_flow.specs.Raw.{upper_before, upper_of, word_before, address_plus, is_unimp};
ghost use Rattle.rv_flow.specs.Raw.{is_stub, away_flow};
ghost use Rattle.rv_flow.specs.Inner.{is_upper, jal_flow, register_flow};

use crate::placed::insn_at;
use elf_image::Image;
use rv_decode::fields::opcode;
use rv_decode::{AwayKind, CsrKind, Insn, decode};

/// The opcodes of LUI and AUIPC (section 2.4.1).
const LUI: u8 = 0x37;

const AUIPC: u8 = 0x17;

/// The control flow of one instruction, judged from the instruction alone. Targets may lie outside
/// the code.
#[derive(Clone, Copy, Debug, PartialEq, Eq)]
pub enum RawFlow {
    /// Control goes on after the instruction.
    Straight,
    /// A conditional branch to `target`.
    Branch { target: u64 },
    /// A jump to `target`: JAL or a paired JALR that links to x0.
    Jump { target: u64 },
    /// A call of `target`: JAL or a paired JALR that links to another register.
    Call { target: u64 },
    /// An unpaired JALR that links to a register other than x0, and is no stub; CM.JALT.
    IndirectCall,
    /// An unpaired JALR through x1 or x5 that links to x0, or a pop of Zcmp that returns.
    Return,
    /// Any other unpaired JALR that links to x0, and one through x28 that links to x6, as the stub
    /// of an indirect function: a jump to `register` plus `offset`.
    RegisterJump { register: u8, offset: i64 },
    /// A jump to a target that neither the instruction nor a register tells.
    Unknown,
    /// Control does not go on: EBREAK, `unimp`, or no instruction.
    Stop,
}

/// The flow of the instruction at the code address `a`.
pub fn raw_flow(image: &Image, a: u64) -> RawFlow
    requires { IsTrue (is_code image.now a) }
    ensures flow { result ≡ raw_flow_at image.now a }
    ensures image { IsImage image.now }
{
    flow_of(image, a, insn_at(image, a).insn)
}

/// The flow of an instruction at `a`; what is no instruction stops. For the instruction that
/// [`insn_at`] finds there, this is its [`raw_flow`].
pub fn flow_of(image: &Image, a: u64, insn: Option<Insn>) -> RawFlow
    ensures { result ≡ raw_flow_by image.now a insn }
{
    match insn {
        None => RawFlow::Stop,
        Some(insn) => insn_flow(image, a, insn),
    }
}

pub(crate) fn insn_flow(image: &Image, a: u64, insn: Insn) -> RawFlow
    ensures { result ≡ insn_flow image.now a insn }
{
    match insn {
        Insn::Jal { rd, offset } => jal_flow(a, rd, offset),
        Insn::Jalr { rd, rs1, imm } => register_flow(image, a, rd, rs1, imm),
        Insn::Branch { offset, .. } => RawFlow::Branch {
            target: a.wrapping_add_signed(offset),
        },
        Insn::Ebreak => RawFlow::Stop,
        Insn::Csr {
            kind,
            rd,
            source,
            csr,
        } => {
            if is_unimp(kind, rd, source, csr) {
                RawFlow::Stop
            } else {
                RawFlow::Straight
            }
        }
        Insn::Away { kind, .. } => away_flow(kind),
        _ => RawFlow::Straight,
    }
}

fn away_flow(kind: AwayKind) -> RawFlow
    ensures { result ≡ away_flow kind }
{
    match kind {
        AwayKind::Return => RawFlow::Return,
        AwayKind::Unknown => RawFlow::Unknown,
        AwayKind::Call => RawFlow::IndirectCall,
    }
}

pub(crate) fn is_unimp(kind: CsrKind, rd: u8, source: u8, csr: u16) -> bool
    ensures { result ≡ is_unimp kind rd source csr }
{
    matches!(kind, CsrKind::Csrrw) && rd == 0 && source == 0 && csr == 0xC00
}

// The flow of a JAL at `a`.
pub(crate) fn jal_flow(a: u64, rd: u8, offset: i64) -> RawFlow
    ensures { result ≡ jal_flow a rd offset }
{
    let target = a.wrapping_add_signed(offset);
    if rd == 0 {
        RawFlow::Jump { target }
    } else {
        RawFlow::Call { target }
    }
}

// The flow of a JALR at `a`.
pub(crate) fn register_flow(image: &Image, a: u64, rd: u8, rs1: u8, imm: i64) -> RawFlow
    ensures { result ≡ register_flow image.now a rd rs1 imm }
{
    jalr_flow(rd, rs1, imm, pair_target(image, a, rs1, imm))
}

// The flow of a JALR whose target is known if it is paired.
fn jalr_flow(rd: u8, rs1: u8, imm: i64, paired: Option<u64>) -> RawFlow
    ensures { result ≡ jalr_flow rd rs1 imm paired }
{
    match paired {
        Some(target) if rd == 0 => RawFlow::Jump { target },
        Some(target) => RawFlow::Call { target },
        None if rd != 0 && !is_stub(rd, rs1) => RawFlow::IndirectCall,
        None if rd == 0 && (rs1 == 1 || rs1 == 5) => RawFlow::Return,
        None => RawFlow::RegisterJump {
            register: rs1,
            offset: imm,
        },
    }
}

// The entry of a procedure linkage table: a JALR through x28 that links to x6.
fn is_stub(rd: u8, rs1: u8) -> bool
    ensures { result ≡ is_stub rd rs1 }
{
    rd == 6 && rs1 == 28
}

// The target of a JALR at `a` through `rs1`, if the word before it sets that register.
fn pair_target(image: &Image, a: u64, rs1: u8, imm: i64) -> Option<u64>
    ensures { result ≡ pair_target image.now a rs1 imm }
{
    if rs1 == 0 {
        return None;
    }
    let base = upper_before(image, a, rs1)?;
    Some(base.wrapping_add_signed(imm) / 2 * 2)
}

// What the word right before `a` leaves in `register`, if it is an AUIPC or LUI of it.
fn upper_before(image: &Image, a: u64, register: u8) -> Option<u64>
    ensures { result ≡ upper_before image.now a register }
{
    let start = image.section_start(a)?;
    if a < start || a - start < 4 {
        return None;
    }
    let before = a - 4;
    let word = image.word_at(before)?;
    if !is_upper(word) {
        return None;
    }
    match decode(word)? {
        Insn::Lui { rd, imm } if rd == register => Some(imm.cast_unsigned()),
        Insn::Auipc { rd, imm } if rd == register => Some(before.wrapping_add_signed(imm)),
        _ => None,
    }
}

// Whether a word is a LUI or an AUIPC, told by its opcode: most words before a JALR are neither,
// and are not decoded.
fn is_upper(word: u32) -> bool
    ensures { result ≡ is_upper word }
{
    matches!(opcode(word), LUI | AUIPC)
}
