//! The six formats of a 32-bit instruction, from their fields.

ghost use Rattle.std.specs.Prelude.{◌≡◌, ◌<◌, ◌^◌};
ghost use Rattle.rvc_expand.specs.Formats.{r_type, i_type, s_type, b_type, u_type, j_type};

use crate::bits::field;

/// R-type: two source registers and a destination.
#[inline]
#[tactic(auto, unfolding(crate::specs::Formats::r_type))]
pub fn r_type(opcode: u32, funct3: u32, funct7: u32, rd: u32, rs1: u32, rs2: u32) -> u32
    requires opcode_fits { opcode < 2 ^ 7 }
    requires funct3_fits { funct3 < 2 ^ 3 }
    requires funct7_fits { funct7 < 2 ^ 7 }
    requires rd_fits { rd < 2 ^ 5 }
    requires rs1_fits { rs1 < 2 ^ 5 }
    requires rs2_fits { rs2 < 2 ^ 5 }
    ensures { result ≡ r_type opcode funct3 funct7 rd rs1 rs2 }
{
    opcode | rd << 7 | funct3 << 12 | rs1 << 15 | rs2 << 20 | funct7 << 25
}

/// I-type: a 12-bit immediate in bits 31 to 20.
#[inline]
#[tactic(auto, unfolding(crate::specs::Formats::i_type))]
pub fn i_type(opcode: u32, funct3: u32, rd: u32, rs1: u32, immediate: u32) -> u32
    requires opcode_fits { opcode < 2 ^ 7 }
    requires funct3_fits { funct3 < 2 ^ 3 }
    requires rd_fits { rd < 2 ^ 5 }
    requires rs1_fits { rs1 < 2 ^ 5 }
    requires immediate_fits { immediate < 2 ^ 12 }
    ensures { result ≡ i_type opcode funct3 rd rs1 immediate }
{
    opcode | rd << 7 | funct3 << 12 | rs1 << 15 | immediate << 20
}

/// S-type: a 12-bit immediate in bits 31 to 25 and 11 to 7.
#[inline]
#[tactic(auto, unfolding(crate::specs::Formats::s_type))]
pub fn s_type(opcode: u32, funct3: u32, rs1: u32, rs2: u32, immediate: u32) -> u32
    requires opcode_fits { opcode < 2 ^ 7 }
    requires funct3_fits { funct3 < 2 ^ 3 }
    requires rs1_fits { rs1 < 2 ^ 5 }
    requires rs2_fits { rs2 < 2 ^ 5 }
    requires immediate_fits { immediate < 2 ^ 12 }
    ensures { result ≡ s_type opcode funct3 rs1 rs2 immediate }
{
    opcode
        | field(immediate, 4, 0) << 7
        | funct3 << 12
        | rs1 << 15
        | rs2 << 20
        | field(immediate, 11, 5) << 25
}

/// B-type: an even 13-bit offset, scattered over bits 31 to 25 and 11 to 7.
#[inline]
#[tactic(auto, unfolding(crate::specs::Formats::b_type))]
pub fn b_type(opcode: u32, funct3: u32, rs1: u32, rs2: u32, immediate: u32) -> u32
    requires opcode_fits { opcode < 2 ^ 7 }
    requires funct3_fits { funct3 < 2 ^ 3 }
    requires rs1_fits { rs1 < 2 ^ 5 }
    requires rs2_fits { rs2 < 2 ^ 5 }
    requires immediate_fits { immediate < 2 ^ 13 }
    ensures { result ≡ b_type opcode funct3 rs1 rs2 immediate }
{
    opcode
        | field(immediate, 11, 11) << 7
        | field(immediate, 4, 1) << 8
        | funct3 << 12
        | rs1 << 15
        | rs2 << 20
        | field(immediate, 10, 5) << 25
        | field(immediate, 12, 12) << 31
}

/// U-type: bits 31 to 12 of a 32-bit immediate.
#[inline]
#[tactic(auto, unfolding(crate::specs::Formats::u_type))]
pub fn u_type(opcode: u32, rd: u32, immediate: u32) -> u32
    requires opcode_fits { opcode < 2 ^ 7 }
    requires rd_fits { rd < 2 ^ 5 }
    ensures { result ≡ u_type opcode rd immediate }
{
    opcode | rd << 7 | field(immediate, 31, 12) << 12
}

/// J-type: an even 21-bit offset, scattered over bits 31 to 12.
#[inline]
#[tactic(auto, unfolding(crate::specs::Formats::j_type))]
pub fn j_type(opcode: u32, rd: u32, immediate: u32) -> u32
    requires opcode_fits { opcode < 2 ^ 7 }
    requires rd_fits { rd < 2 ^ 5 }
    requires immediate_fits { immediate < 2 ^ 21 }
    ensures { result ≡ j_type opcode rd immediate }
{
    opcode
        | rd << 7
        | field(immediate, 19, 12) << 12
        | field(immediate, 11, 11) << 20
        | field(immediate, 10, 1) << 21
        | field(immediate, 20, 20) << 31
}
