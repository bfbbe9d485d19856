//! Instructions and data as the bytes of a section.

ghost use Rattle.std.specs.Prelude.{◌≡◌, IfOk};
ghost use Rattle.elf_maker.specs.Fields.{halves, words};

use crate::Memory;
use std::alloc::Global;

/// The bytes of 16-bit parcels, the lowest of each first.
#[tactic(auto, unfolding(elf_maker::specs::Fields::halves))]
pub(crate) fn halves(alloc: Global, parcels: &[u16]) -> Result<Vec<u8>, Memory>
    ensures { IfOk result (λ bytes. bytes.items ≡ halves parcels.now) }
{
    let mut bytes = Vec::new(alloc);
    for parcel in parcels {
        bytes.extend_from_slice(&parcel.to_le_bytes())?;
    }
    Ok(bytes)
}

/// The bytes of 32-bit words, the lowest of each first.
#[tactic(auto, unfolding(elf_maker::specs::Fields::words))]
pub(crate) fn words(alloc: Global, numbers: &[u32]) -> Result<Vec<u8>, Memory>
    ensures { IfOk result (λ bytes. bytes.items ≡ words numbers.now) }
{
    let mut bytes = Vec::new(alloc);
    for number in numbers {
        bytes.extend_from_slice(&number.to_le_bytes())?;
    }
    Ok(bytes)
}
