//! How many bytes loads and stores move, and what a load leaves in its register.

ghost use Rattle.std.specs.Prelude.{◌≡◌, ◌*◌, ◌^◌, ◌<◌};
ghost use Rattle.rv_operations.specs.Loads.{load_size, store_size, load_result};

use crate::arithmetic::sign_extended_word;
use rv_decode::{LoadKind, StoreKind};

/// The number of bytes that a load reads: 1, 2, 4 or 8.
pub fn load_size(kind: LoadKind) -> u8
    ensures { result ≡ load_size kind }
{
    match kind {
        LoadKind::Lb | LoadKind::Lbu => 1,
        LoadKind::Lh | LoadKind::Lhu => 2,
        LoadKind::Lw | LoadKind::Lwu => 4,
        LoadKind::Ld => 8,
    }
}

/// The number of bytes that a store writes: 1, 2, 4 or 8.
pub fn store_size(kind: StoreKind) -> u8
    ensures { result ≡ store_size kind }
{
    match kind {
        StoreKind::Sb => 1,
        StoreKind::Sh => 2,
        StoreKind::Sw => 4,
        StoreKind::Sd => 8,
    }
}

/// What a load leaves in its register, if `x` is the number in the bytes that it read.
#[tactic(auto, unfolding(crate::specs::Loads::load_result))]
pub fn load_result(kind: LoadKind, x: u64) -> u64
    requires { x < 2 ^ (8 * load_size kind) }
    ensures { result ≡ load_result kind x }
{
    match kind {
        LoadKind::Lb => i64::from((x as u8).cast_signed()).cast_unsigned(),
        LoadKind::Lh => i64::from((x as u16).cast_signed()).cast_unsigned(),
        LoadKind::Lw => sign_extended_word(x as u32),
        LoadKind::Lbu | LoadKind::Lhu | LoadKind::Lwu | LoadKind::Ld => x,
    }
}
