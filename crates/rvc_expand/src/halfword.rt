//! The registers and immediates of a 16-bit instruction. Each function takes the halfword; an
//! immediate is in two's complement, of the width that its 32-bit instruction has.

ghost use Rattle.std.specs.Prelude.{◌≡◌, ◌<◌, ◌^◌};
ghost use Rattle.rvc_expand.specs.Halfword.{first_register, second_register, first_popular};
ghost use Rattle.rvc_expand.specs.Halfword.{second_popular, shift_amount, small_immediate};
ghost use Rattle.rvc_expand.specs.Halfword.{lui_immediate, addi16sp_immediate, addi4spn_immediate};
ghost use Rattle.rvc_expand.specs.Halfword.{word_offset, double_offset, lwsp_offset, ldsp_offset};
ghost use Rattle.rvc_expand.specs.Halfword.{swsp_offset, sdsp_offset, jump_offset, branch_offset};

use crate::bits::field;

/// The register in bits 11 to 7: rd, rs1 or both.
#[inline]
pub fn first_register(half: u32) -> u32
    ensures { result ≡ first_register half }
{
    field(half, 11, 7)
}

/// The register in bits 6 to 2: rs2.
#[inline]
pub fn second_register(half: u32) -> u32
    ensures { result ≡ second_register half }
{
    field(half, 6, 2)
}

/// The register of x8 to x15 in bits 9 to 7: rs1', rd' or both.
#[inline]
pub fn first_popular(half: u32) -> u32
    ensures { result ≡ first_popular half }
{
    8 + field(half, 9, 7)
}

/// The register of x8 to x15 in bits 4 to 2: rd' or rs2'.
#[inline]
pub fn second_popular(half: u32) -> u32
    ensures { result ≡ second_popular half }
{
    8 + field(half, 4, 2)
}

/// C.SLLI, C.SRLI, C.SRAI: shamt\[5:0\].
#[inline]
#[tactic(auto, unfolding(crate::specs::Halfword::shift_amount))]
pub fn shift_amount(half: u32) -> u32
    ensures value { result ≡ shift_amount half }
    ensures fits { result < 2 ^ 6 }
{
    field(half, 6, 2) | field(half, 12, 12) << 5
}

/// C.ADDI, C.ADDIW, C.LI, C.ANDI: imm\[5:0\], sign extended from bit 12 of the halfword.
#[inline]
#[tactic(auto, unfolding(crate::specs::Halfword::small_immediate))]
pub fn small_immediate(half: u32) -> u32
    ensures value { result ≡ small_immediate half }
    ensures fits { result < 2 ^ 12 }
{
    field(half, 6, 2) + field(half, 12, 12) * 0xfe0
}

/// C.LUI: nzimm\[17:12\], sign extended from bit 12 of the halfword.
#[inline]
#[tactic(auto, unfolding(crate::specs::Halfword::lui_immediate))]
pub fn lui_immediate(half: u32) -> u32
    ensures { result ≡ lui_immediate half }
{
    (field(half, 6, 2) << 12) + field(half, 12, 12) * 0xfffe_0000
}

/// C.ADDI16SP: nzimm\[9:4\], sign extended from bit 12 of the halfword.
#[inline]
#[tactic(auto, unfolding(crate::specs::Halfword::addi16sp_immediate))]
pub fn addi16sp_immediate(half: u32) -> u32
    ensures value { result ≡ addi16sp_immediate half }
    ensures fits { result < 2 ^ 12 }
{
    let low = field(half, 6, 6) << 4
        | field(half, 2, 2) << 5
        | field(half, 5, 5) << 6
        | field(half, 4, 3) << 7;
    low + field(half, 12, 12) * 0xe00
}

/// C.ADDI4SPN: nzuimm\[9:2\].
#[inline]
#[tactic(auto, unfolding(crate::specs::Halfword::addi4spn_immediate))]
pub fn addi4spn_immediate(half: u32) -> u32
    ensures value { result ≡ addi4spn_immediate half }
    ensures fits { result < 2 ^ 12 }
{
    field(half, 6, 6) << 2
        | field(half, 5, 5) << 3
        | field(half, 12, 11) << 4
        | field(half, 10, 7) << 6
}

/// C.LW, C.SW: uimm\[6:2\].
#[inline]
#[tactic(auto, unfolding(crate::specs::Halfword::word_offset))]
pub fn word_offset(half: u32) -> u32
    ensures value { result ≡ word_offset half }
    ensures fits { result < 2 ^ 12 }
{
    field(half, 6, 6) << 2 | field(half, 12, 10) << 3 | field(half, 5, 5) << 6
}

/// C.LD, C.SD: uimm\[7:3\].
#[inline]
#[tactic(auto, unfolding(crate::specs::Halfword::double_offset))]
pub fn double_offset(half: u32) -> u32
    ensures value { result ≡ double_offset half }
    ensures fits { result < 2 ^ 12 }
{
    field(half, 12, 10) << 3 | field(half, 6, 5) << 6
}

/// C.LWSP: uimm\[7:2\].
#[inline]
#[tactic(auto, unfolding(crate::specs::Halfword::lwsp_offset))]
pub fn lwsp_offset(half: u32) -> u32
    ensures value { result ≡ lwsp_offset half }
    ensures fits { result < 2 ^ 12 }
{
    field(half, 6, 4) << 2 | field(half, 12, 12) << 5 | field(half, 3, 2) << 6
}

/// C.LDSP: uimm\[8:3\].
#[inline]
#[tactic(auto, unfolding(crate::specs::Halfword::ldsp_offset))]
pub fn ldsp_offset(half: u32) -> u32
    ensures value { result ≡ ldsp_offset half }
    ensures fits { result < 2 ^ 12 }
{
    field(half, 6, 5) << 3 | field(half, 12, 12) << 5 | field(half, 4, 2) << 6
}

/// C.SWSP: uimm\[7:2\].
#[inline]
#[tactic(auto, unfolding(crate::specs::Halfword::swsp_offset))]
pub fn swsp_offset(half: u32) -> u32
    ensures value { result ≡ swsp_offset half }
    ensures fits { result < 2 ^ 12 }
{
    field(half, 12, 9) << 2 | field(half, 8, 7) << 6
}

/// C.SDSP: uimm\[8:3\].
#[inline]
#[tactic(auto, unfolding(crate::specs::Halfword::sdsp_offset))]
pub fn sdsp_offset(half: u32) -> u32
    ensures value { result ≡ sdsp_offset half }
    ensures fits { result < 2 ^ 12 }
{
    field(half, 12, 10) << 3 | field(half, 9, 7) << 6
}

/// C.J: imm\[11:1\], sign extended from bit 12 of the halfword.
#[inline]
#[tactic(auto, unfolding(crate::specs::Halfword::jump_offset))]
pub fn jump_offset(half: u32) -> u32
    ensures value { result ≡ jump_offset half }
    ensures fits { result < 2 ^ 21 }
{
    let low = field(half, 5, 3) << 1
        | field(half, 11, 11) << 4
        | field(half, 2, 2) << 5
        | field(half, 7, 7) << 6
        | field(half, 6, 6) << 7
        | field(half, 10, 9) << 8
        | field(half, 8, 8) << 10;
    low + field(half, 12, 12) * 0x1f_f800
}

/// C.BEQZ, C.BNEZ: imm\[8:1\], sign extended from bit 12 of the halfword.
#[inline]
#[tactic(auto, unfolding(crate::specs::Halfword::branch_offset))]
pub fn branch_offset(half: u32) -> u32
    ensures value { result ≡ branch_offset half }
    ensures fits { result < 2 ^ 13 }
{
    let low = field(half, 4, 3) << 1
        | field(half, 11, 10) << 3
        | field(half, 2, 2) << 5
        | field(half, 6, 5) << 6;
    low + field(half, 12, 12) * 0x1f00
}
