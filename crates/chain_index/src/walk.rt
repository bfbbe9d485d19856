//! The chain of one halfword of a code section, walked.

ghost use Rattle.std.specs.Prelude.{◌≡◌, ◌/◌, ◌≤◌, ◌<◌};
ghost use Rattle.elf_image.specs.Architecture.{extensions_of};
ghost use Rattle.chain_index.specs.Found.{IsCodeOf};
ghost use Rattle.chain_index.specs.Inner.{ReachesFrom, IsReach, halfwords};

use crate::reach::{length_at, reach_over, section_bytes};
use elf_image::{Image, Section};
use rv_flow::StraightForms;

/// How far the chain of the halfword with the number `i` of a section reaches. For the address
/// after its last halfword that is `behind`.
/// Time: O(length of the chain in the section).
pub(crate) fn reach_at(
    image: &Image,
    forms: &mut StraightForms,
    s: Section,
    behind: Option<u32>,
    i: usize,
) -> Option<u32>
    requires forms { forms.old ≡ extensions_of image.now }
    requires section { IsCodeOf image.now s }
    requires behind { ReachesFrom image.now s (s.size / 2) behind }
    ensures kept { forms.new ≡ forms.old }
    ensures reach { i ≤ s.size / 2 → ReachesFrom image.now s i result }
{
    if (i as u64) < s.size / 2 {
        Some(walked(image, forms, s, behind, i))
    } else {
        behind
    }
}

/// How far the chain of the halfword with the number `i` of a section reaches: it is walked to its
/// end, or to its last instruction in the section.
fn walked(
    image: &Image,
    forms: &mut StraightForms,
    s: Section,
    behind: Option<u32>,
    i: usize,
) -> u32
    requires forms { forms.old ≡ extensions_of image.now }
    requires section { IsCodeOf image.now s }
    requires behind { ReachesFrom image.now s (s.size / 2) behind }
    requires inside { i < s.size / 2 }
    ensures kept { forms.new ≡ forms.old }
    ensures reach { IsReach image.now s i result }
{
    let code = section_bytes(image, s);
    let mut at = i;
    loop {
        let length = length_at(forms, code, 2 * at);
        let next = at + halfwords(length);
        if next == at || next >= code.len() / 2 {
            return (at - i) as u32 + reach_over(length, behind, behind);
        }
        at = next;
    }
}

/// How many halfwords an instruction of this length takes; none if control does not go straight on
/// after it.
fn halfwords(length: Option<u8>) -> usize
    ensures { result ≡ halfwords length }
{
    match length {
        None => 0,
        Some(bytes) => usize::from(bytes / 2),
    }
}
