//! What atomic memory operations store (RISC-V Unprivileged ISA 20240411, section 14.4).

ghost use Rattle.std.specs.Prelude.{◌≡◌};
ghost use Rattle.std.specs.Int.{w32, w64};
ghost use Rattle.rv_operations.specs.Atomics.{atomic_result};

use rv_decode::AtomicKind;

/// What an operation on 8 bytes stores, if `x` was there and `y` is the operand.
#[tactic(auto, unfolding(crate::specs::Atomics::atomic_result))]
pub fn atomic_double(kind: AtomicKind, x: u64, y: u64) -> u64
    ensures { result ≡ atomic_result w64 kind x y }
{
    match kind {
        AtomicKind::Lr => x,
        AtomicKind::Sc | AtomicKind::Swap => y,
        AtomicKind::Add => x.wrapping_add(y),
        AtomicKind::Xor => x ^ y,
        AtomicKind::And => x & y,
        AtomicKind::Or => x | y,
        AtomicKind::Min => if y.cast_signed() < x.cast_signed() {
            y
        } else {
            x
        },
        AtomicKind::Max => if x.cast_signed() < y.cast_signed() {
            y
        } else {
            x
        },
        AtomicKind::Minu => x.min(y),
        AtomicKind::Maxu => x.max(y),
    }
}

/// What an operation on 4 bytes stores, if `x` was there and `y` is the operand.
#[tactic(auto, unfolding(crate::specs::Atomics::atomic_result))]
pub fn atomic_word(kind: AtomicKind, x: u32, y: u32) -> u32
    ensures { result ≡ atomic_result w32 kind x y }
{
    match kind {
        AtomicKind::Lr => x,
        AtomicKind::Sc | AtomicKind::Swap => y,
        AtomicKind::Add => x.wrapping_add(y),
        AtomicKind::Xor => x ^ y,
        AtomicKind::And => x & y,
        AtomicKind::Or => x | y,
        AtomicKind::Min => if y.cast_signed() < x.cast_signed() {
            y
        } else {
            x
        },
        AtomicKind::Max => if x.cast_signed() < y.cast_signed() {
            y
        } else {
            x
        },
        AtomicKind::Minu => x.min(y),
        AtomicKind::Maxu => x.max(y),
    }
}
