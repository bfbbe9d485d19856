//! The pass over one code section, or over a range of it.

ghost use Rattle.std.specs.Prelude.{◌≡◌, ℕ, ◌+◌, ◌*◌, ◌/◌, ◌^◌, ◌≤◌, ◌<◌, ◌⊎◌, IfOk, IfSome};
ghost use Rattle.std.specs.Prelude.{length, take, drop, slice_index_or};
ghost use Rattle.elf_image.specs.Architecture.{extensions_of};
ghost use Rattle.elf_image.specs.Number.{u16_at};
ghost use Rattle.rv_flow.specs.Straight.{IsStraightLength};
ghost use Rattle.chain_index.specs.Found.{IsCodeOf, AreReaches};
ghost use Rattle.chain_index.specs.Inner.{Reaches, ReachesFrom, IsReach, word_of, reach_over};

use crate::Memory;
use crate::walk::reach_at;
use elf_image::{Image, Section, Span, u16_at, u32_at};
use rv_flow::StraightForms;
use std::alloc::Global;

/// How far the chain of each halfword of the code section `s` reaches, in halfwords. `behind` is
/// how far that of the address after its last halfword does, if code stands there.
pub(crate) fn section_reaches(
    alloc: Global,
    image: &Image,
    forms: &mut StraightForms,
    s: Section,
    behind: Option<u32>,
) -> Result<Vec<u32>, Memory>
    requires forms { forms.old ≡ extensions_of image.now }
    requires section { IsCodeOf image.now s }
    requires behind { Reaches image.now (s.address + 2 * (s.size / 2)) behind }
    ensures kept { forms.new ≡ forms.old }
    ensures size { IfOk result (λ reaches. length reaches.items ≡ s.size / 2) }
    ensures reaches { IfOk result (λ reaches. AreReaches image.now s.address reaches.items) }
{
    let mut reaches = room_for(alloc, s, behind)?;
    pass_back(image, forms, s, behind, 0, &mut reaches);
    Ok(reaches)
}

/// Memory for the reaches of a section, all of them 0. The only error is that there is not enough,
/// or that a reach could be too large to be kept.
pub(crate) fn room_for(alloc: Global, s: Section, behind: Option<u32>) -> Result<Vec<u32>, Memory>
    ensures size { IfOk result (λ reaches. length reaches.items ≡ s.size / 2) }
    ensures fits { IfOk result (λ _. IfSome behind (λ reach. s.size / 2 + reach < 2 ^ 32)) }
{
    let count = s.size / 2;
    if let Some(reach) = behind {
        if count + u64::from(reach) > u64::from(u32::MAX) {
            return Err(Memory);
        }
    }
    Ok(vec![in alloc; 0; count as usize]?)
}

/// Makes the reaches of a range of a section's halfwords, from the number `from` on, going back
/// from its last one.
pub(crate) fn pass_back(
    image: &Image,
    forms: &mut StraightForms,
    s: Section,
    behind: Option<u32>,
    from: usize,
    part: &mut [u32],
)
    requires forms { forms.old ≡ extensions_of image.now }
    requires section { IsCodeOf image.now s }
    requires behind { ReachesFrom image.now s (s.size / 2) behind }
    requires size { from + length part.old ≤ s.size / 2 }
    ensures kept { forms.new ≡ forms.old }
    ensures reaches { (k d : ℕ) → k < length part.old
        → IsReach image.now s (from + k) (slice_index_or part.new k d) }
{
    let code = section_bytes(image, s);
    let end = from + part.len();
    let mut near = reach_at(image, forms, s, behind, end);
    let mut far = reach_at(image, forms, s, behind, end + 1);
    for k in (0..part.len()).rev() {
        let reach = reach_over(length_at(forms, code, 2 * (from + k)), near, far);
        part[k] = reach;
        far = near;
        near = Some(reach);
    }
}

/// The bytes of a code section.
pub(crate) fn section_bytes(image: &Image, s: Section) -> &[u8]
    requires { IsCodeOf image.now s }
    ensures { result.now ≡ take s.size (drop s.offset image.now) }
{
    image.bytes(Span {
        at: s.offset as u32,
        len: s.size as u32,
    })
}

/// The length of the instruction at an offset of a section's bytes, if control goes straight on
/// after it, by the extensions of the forms.
#[inline(always)]
pub(crate) fn length_at(forms: &mut StraightForms, code: &[u8], at: usize) -> Option<u8>
    requires { at + 2 ≤ length code.now }
    ensures answer { IsStraightLength forms.old (u16_at code.now at) (word_of code.now at) result }
    ensures kept { forms.new ≡ forms.old }
    ensures bytes { IfSome result (λ n. (n ≡ 2) ⊎ ((n ≡ 4) × (at + 4 ≤ length code.now))) }
{
    let word = if code.len() - at >= 4 {
        Some(u32_at(code, at))
    } else {
        None
    };
    forms.length(u16_at(code, at), word)
}

/// How far a chain reaches over its first instruction, if control goes straight on after that and
/// it has this length. `near` and `far` are how far the chains of the first and the second halfword
/// after its first one reach, if code stands there.
pub(crate) fn reach_over(length: Option<u8>, near: Option<u32>, far: Option<u32>) -> u32
    requires fits { reach_over length near far < 2 ^ 32 }
    ensures { result ≡ reach_over length near far }
{
    let (next, halfwords) = match length {
        None => return 0,
        Some(2) => (near, 1),
        Some(_) => (far, 2),
    };
    match next {
        None => 0,
        Some(reach) => reach + halfwords,
    }
}
