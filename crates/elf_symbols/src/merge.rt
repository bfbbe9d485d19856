//! Seeds of equal addresses become one.

ghost use Rattle.std.specs.Prelude.{◌≡◌, ℕ, ◌≤◌, ◌++◌, [], ◌∷◌, IfOk, IfSome, IfNone, OnOk, All};
ghost use Rattle.std.specs.List.Sorted.{IsNonDecreasingBy, IsPermutation};
ghost use Rattle.std.specs.Option.{option_map};
ghost use Rattle.elf_image.specs.ReadOnly.{span_bytes};
ghost use Rattle.elf_image.specs.Seeds.{lesser};
ghost use Rattle.elf_symbols.specs.Seeds.{LiesIn};
ghost use Rattle.elf_symbols.specs.Inner.Names.{text_of};
ghost use Rattle.elf_symbols.specs.Inner.Names.{lesser_name};
ghost use Rattle.elf_symbols.specs.Inner.Merged.{AreMerged, EndsElsewhere, AddsSeed};

use crate::seed::Seed;
use elf_image::{Image, Span};
use std::alloc::{AllocError, Global};

/// The lesser of two names by the order of their bytes.
fn lesser_span(image: &Image, s: Span, t: Span) -> Span
    requires first { LiesIn image.now s }
    requires second { LiesIn image.now t }
    ensures text { span_bytes image.now result
        ≡ lesser (span_bytes image.now s) (span_bytes image.now t) }
    ensures lies { LiesIn image.now result }
{
    if image.bytes(t).cmp(image.bytes(s)).is_lt() {
        t
    } else {
        s
    }
}

/// The lesser of two names, if there are two.
fn lesser_name(image: &Image, s: Option<Span>, t: Option<Span>) -> Option<Span>
    requires first { IfSome s (LiesIn image.now) }
    requires second { IfSome t (LiesIn image.now) }
    ensures text { option_map (span_bytes image.now) result
        ≡ lesser_name (option_map (span_bytes image.now) s) (option_map (span_bytes image.now) t) }
    ensures lies { IfSome result (LiesIn image.now) }
{
    match (s, t) {
        (Some(s), Some(t)) => Some(lesser_span(image, s, t)),
        (Some(s), None) => Some(s),
        (None, t) => t,
    }
}

/// The seeds in the order of their addresses.
pub(crate) fn by_address(mut seeds: Vec<Seed>) -> Vec<Seed>
    ensures permutation { IsPermutation seeds.items result.items }
    ensures sorted { IsNonDecreasingBy (λ s. s.address) result.items }
{
    seeds.sort_unstable_by_key(|s| s.address);
    seeds
}

/// Takes the last of some seeds, if it stands at `a`.
fn pop_at(seeds: &mut Vec<Seed>, a: u64) -> Option<Seed>
    ensures taken { IfSome result (λ last. seeds.old.items ≡ seeds.new.items ++ last ∷ []) }
    ensures at { IfSome result (λ last. last.address ≡ a) }
    ensures kept { IfNone result (seeds.new.items ≡ seeds.old.items) }
    ensures elsewhere { IfNone result (EndsElsewhere seeds.old.items a) }
{
    let last = *seeds.last()?;
    if last.address == a { seeds.pop() } else { None }
}

/// Adds a seed to merged seeds that all stand at its address or below.
fn add(image: &Image, merged: &mut Vec<Seed>, seed: Seed) -> Result<(), AllocError>
    requires lie { All (λ s. IfSome s.name (LiesIn image.now)) merged.old.items }
    requires lies { IfSome seed.name (LiesIn image.now) }
    ensures { OnOk result (AddsSeed image.now seed merged.old.items merged.new.items) }
{
    let mut name = seed.name;
    if let Some(last) = pop_at(merged, seed.address) {
        name = lesser_name(image, last.name, name);
    }
    merged.push(Seed {
        address: seed.address,
        name,
    })?;
    Ok(())
}

/// The seeds, each address once. `sorted` are in the order of their addresses.
pub(crate) fn merged(alloc: Global, image: &Image, sorted: &[Seed]) -> Result<Vec<Seed>, AllocError>
    requires sorted { IsNonDecreasingBy (λ s. s.address) sorted.now }
    requires lie { All (λ s. IfSome s.name (LiesIn image.now)) sorted.now }
    ensures { IfOk result (λ v. AreMerged image.now sorted.now v.items) }
{
    let mut merged: Vec<Seed> = Vec::new(alloc);
    for seed in sorted {
        add(image, &mut merged, *seed)?;
    }
    Ok(merged)
}
