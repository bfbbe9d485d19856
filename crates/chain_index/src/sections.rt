//! The code sections of an image.

ghost use Rattle.std.specs.Prelude.{◌≡◌, ◌≤◌, ◌<◌, ℕ, IfOk, All, false};
ghost use Rattle.std.specs.List.{Contains};
ghost use Rattle.std.specs.List.Sorted.{IsNonDecreasingBy, IsPermutation};
ghost use Rattle.elf_image.specs.FaultTests.{any_pair, shares_address};
ghost use Rattle.elf_image.specs.Faults.{IsImage};
ghost use Rattle.chain_index.specs.Found.{IsCodeOf};
ghost use Rattle.chain_index.specs.Inner.{AreListed, AreRising};

use elf_image::{Image, Section};
use std::alloc::{AllocError, Global};

/// The code sections that hold a halfword, in the order of their addresses.
pub(crate) fn code_sections(alloc: Global, image: &Image) -> Result<Vec<Section>, AllocError>
    ensures code { IfOk result (λ sections. All (IsCodeOf image.now) sections.items) }
    ensures listed { IfOk result (λ sections. AreListed image.now sections.items) }
    ensures rising { IfOk result (λ sections. AreRising sections.items) }
{
    let mut sections = filled_sections(alloc, image)?;
    sections.sort_unstable_by_key(|s| s.address);
    Ok(sections)
}

/// The code sections that hold a halfword, in table order.
fn filled_sections(alloc: Global, image: &Image) -> Result<Vec<Section>, AllocError>
    ensures code { IfOk result (λ sections. All (IsCodeOf image.now) sections.items) }
    ensures listed { IfOk result (λ sections. AreListed image.now sections.items) }
    ensures apart { IfOk result (λ sections. any_pair shares_address sections.items ≡ false) }
{
    let mut sections = Vec::new(alloc);
    for i in 0..image.section_count() {
        let s = image.section(i);
        if s.is_code() && s.size >= 2 {
            sections.push(s)?;
        }
    }
    Ok(sections)
}
