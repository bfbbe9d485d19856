//! The four compressed forms of the D extension.

ghost use Rattle.std.specs.Prelude.{◌≡◌, ◌<◌, ◌^◌};
ghost use Rattle.rv_float.specs.Forms.{float_expansion, fld, fsd};

use rvc_expand::bits::field;
use rvc_expand::formats::{i_type, s_type};
use rvc_expand::halfword::{
    double_offset, first_popular, first_register, ldsp_offset, sdsp_offset, second_popular,
    second_register,
};

/// x2.
const STACK_POINTER: u32 = 2;

/// The 32-bit load or store of a doubleword that the 16-bit instruction `half` stands for: C.FLD,
/// C.FSD, C.FLDSP or C.FSDSP (RISC-V Unprivileged ISA 20240411, chapter "C" Extension for
/// Compressed Instructions). `None` exactly if `half` is none of the four.
#[tactic(auto, unfolding(crate::specs::Forms::float_expansion, crate::specs::Forms::float_forms))]
pub fn expand_float(half: u16) -> Option<u32>
    ensures { result ≡ float_expansion half }
{
    let half = u32::from(half);
    match (field(half, 1, 0), field(half, 15, 13)) {
        (0b00, 0b001) => Some(fld(
            second_popular(half),
            first_popular(half),
            double_offset(half),
        )),
        (0b00, 0b101) => Some(fsd(
            second_popular(half),
            first_popular(half),
            double_offset(half),
        )),
        (0b10, 0b001) => Some(fld(first_register(half), STACK_POINTER, ldsp_offset(half))),
        (0b10, 0b101) => Some(fsd(second_register(half), STACK_POINTER, sdsp_offset(half))),
        _ => None,
    }
}

/// `fld rd, offset(rs1)`.
fn fld(rd: u32, rs1: u32, offset: u32) -> u32
    requires rd_fits { rd < 2 ^ 5 }
    requires rs1_fits { rs1 < 2 ^ 5 }
    requires offset_fits { offset < 2 ^ 12 }
    ensures { result ≡ fld rd rs1 offset }
{
    i_type(0x07, 3, rd, rs1, offset)
}

/// `fsd rs2, offset(rs1)`.
fn fsd(rs2: u32, rs1: u32, offset: u32) -> u32
    requires rs2_fits { rs2 < 2 ^ 5 }
    requires rs1_fits { rs1 < 2 ^ 5 }
    requires offset_fits { offset < 2 ^ 12 }
    ensures { result ≡ fsd rs2 rs1 offset }
{
    s_type(0x27, 3, rs1, rs2, offset)
}
