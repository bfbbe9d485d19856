//! The passes over all code sections, one after the other.

ghost use Rattle.std.specs.Prelude.{◌≡◌, ◌+◌, ◌*◌, ◌/◌, ◌^◌, ◌<◌, IfOk, length};
ghost use Rattle.elf_image.specs.Architecture.{extensions_of};
ghost use Rattle.chain_index.specs.Found.{IsCodeOf, AreReaches, AreChainEndsOf};
ghost use Rattle.chain_index.specs.Inner.{Reaches};

use crate::Memory;
use crate::lookup::{SectionReaches, first_reach, halfwords};
use crate::sections::code_sections;
use elf_image::{Image, Section};
use rv_flow::StraightForms;
use std::alloc::Global;

/// The code sections that hold a halfword, from the highest address down, with the reaches that
/// `pass` makes of each. It gets the forms that all passes on this thread share, and leaves them those
/// of the file. If code stands at
/// the address after the section's last halfword, it also gets how far the chain of that address
/// reaches.
pub(crate) fn over_sections<F>(
    alloc: Global,
    image: &Image,
    pass: F,
) -> Result<Vec<SectionReaches>, Memory>
where
    F: Fn(&mut StraightForms, Section, Option<u32>) -> Result<Vec<u32>, Memory>,
    requires callable { (forms : _) (s : _) (behind : _) → forms.now ≡ extensions_of image.now
        → IsCodeOf image.now s
        → Reaches image.now (s.address + 2 * (s.size / 2)) behind → F.pre pass forms s behind }
    requires keeps { (forms : _) (s : _) (behind : _) (made : _) (left : _)
        → forms.now ≡ extensions_of image.now → F.post pass forms s behind made left
        → left.now ≡ forms.now }
    requires right { (forms : _) (s : _) (behind : _) (made : _) (left : _)
        → forms.now ≡ extensions_of image.now → IsCodeOf image.now s
        → Reaches image.now (s.address + 2 * (s.size / 2)) behind
        → F.post pass forms s behind made left
        → IfOk made (λ reaches. (length reaches.items ≡ s.size / 2)
        × AreReaches image.now s.address reaches.items) }
    ensures { IfOk result (λ found. AreChainEndsOf image.now found.items) }
{
    let mut left = code_sections(alloc, image)?;
    let mut found = Vec::new(alloc);
    let mut forms = StraightForms::new(alloc, *image.extensions());
    while let Some(s) = left.pop() {
        let behind = first_reach(&found, s.address + s.size / 2 * 2);
        let from = more_numbers(halfwords(&found), s.size / 2)?;
        let reaches = pass(&mut forms, s, behind)?;
        found.push(SectionReaches {
            address: s.address,
            offset: s.offset,
            from,
            reaches,
        })?;
    }
    Ok(found)
}

/// So many numbers and so many more. The only error is that there are more than 32 bits hold, so
/// that what is kept of them takes 16 GiB.
fn more_numbers(count: u32, more: u64) -> Result<u32, Memory>
    requires { more < 2 ^ 63 }
    ensures { IfOk result (λ all. all ≡ count + more) }
{
    match u32::try_from(u64::from(count) + more) {
        Ok(all) => Ok(all),
        Err(_) => Err(Memory),
    }
}
