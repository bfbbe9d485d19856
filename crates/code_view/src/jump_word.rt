//! Jumps, calls and branches of 32 bits, by their first halfword.

ghost use Rattle.std.specs.Prelude.{◌≡◌, is_some, if◌then◌else◌};
ghost use Rattle.code_view.specs.JumpWord.{is_jump_word};

/// Whether a word that begins with the halfword `half` is a JAL, a JALR or a branch, whatever its
/// other halfword is.
pub(crate) fn is_jump_word(half: u16) -> bool
    ensures { result ≡ is_jump_word half }
{
    let opcode = half & 0x7F;
    opcode == 0x6F
        || opcode == 0x67 && half >> 12 & 0b111 == 0
        || opcode == 0x63 && half >> 13 & 0b11 != 1
}

/// The length of a jump, a call or a branch of 32 bits, if its word is there; else it is no
/// instruction.
pub(crate) fn jump_length(word: Option<u32>) -> u8
    ensures { result ≡ (if is_some word then 4 else 2) }
{
    match word {
        Some(_) => 4,
        None => 2,
    }
}
