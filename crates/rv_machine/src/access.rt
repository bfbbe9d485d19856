//! Reads and writes of memory: words of read-only data come from the file, and code and read-only
//! sections are never written.

ghost use Rattle.std.specs.Prelude.{◌≡◌, ◌≤◌, ◌<◌, ◌*◌, ◌^◌, IfSome, if◌then◌else◌};
ghost use Rattle.rv_machine.specs.Memory.{stored};
ghost use Rattle.rv_machine.specs.Access.{data_double, data_at, read_at, may_store};

use crate::ram::Ram;
use elf_image::Image;

/// The doubleword whose two halves are words of read-only data.
fn data_double(image: &Image, a: u64) -> Option<u64>
    ensures { result ≡ data_double image.now a }
{
    let low = image.data_word(a)?;
    let high = image.data_word(a.wrapping_add(4))?;
    Some(u64::from(low) + (u64::from(high) << 32))
}

/// The read-only data of `n` bytes at `a`: only 4 and 8 bytes are looked up in the file.
fn data_at(image: &Image, n: u8, a: u64) -> Option<u64>
    ensures value { result ≡ data_at image.now n a }
    ensures fits { IfSome result (λ v. v < 2 ^ (8 * n)) }
{
    match n {
        4 => image.data_word(a).map(u64::from),
        8 => data_double(image, a),
        _ => None,
    }
}

/// The number in the `n` bytes at `a`; `None` if a byte is missing.
#[tactic(auto, unfolding(crate::specs::Access::read_at))]
pub(crate) fn read_at<R: Ram>(image: &Image, ram: &R, n: u8, a: u64) -> Option<u64>
    requires { n ≤ 8 }
    ensures value { result ≡ read_at image.now (R.bytes ram.now) n a }
    ensures fits { IfSome result (λ v. v < 2 ^ (8 * n)) }
{
    match data_at(image, n, a) {
        Some(value) => Some(value),
        None => ram.load_le(a, n),
    }
}

/// Writes the low `n` bytes of `value` at `a`; `false` if that is not allowed, and then nothing
/// changes.
#[tactic(auto, unfolding(crate::specs::Access::may_store))]
pub(crate) fn write_at<R: Ram>(image: &Image, ram: &mut R, n: u8, a: u64, value: u64) -> bool
    ensures allowed { result ≡ may_store image.now (R.bytes ram.old) n a }
    ensures bytes { R.bytes ram.new
        ≡ (if result then stored n (R.bytes ram.old) a value else R.bytes ram.old) }
{
    if image.is_fixed(a, u64::from(n)) {
        return false;
    }
    ram.store_le(a, n, value)
}
