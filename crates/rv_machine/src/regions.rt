//! The memory of a file when its program starts.

ghost use Rattle.std.specs.Prelude.{◌≡◌, ℕ, ◌<◌, ◌≤◌, ◌∷◌, ◌++◌, [], map, length, IfOk, IsTrue, false};
ghost use Rattle.std.specs.Prelude.{is_some};
ghost use Rattle.std.specs.List.{position};
ghost use Rattle.elf_image.specs.Header.{section_count};
ghost use Rattle.elf_image.specs.Sections.{section};
ghost use Rattle.elf_image.specs.FaultTests.{is_out_of_file};
ghost use Rattle.rv_machine.specs.Memory.{put};
ghost use Rattle.rv_machine.specs.FileMemory.{is_loaded, section_bytes, loaded_sections};
ghost use Rattle.rv_machine.specs.FileMemory.{file_memory, is_too_much, first_of};
ghost use Rattle.rv_machine.specs.Inner.Parts.{has_address, part_bytes};
ghost use Rattle.rv_machine.specs.Inner.Extents.{extent_of, section_extent, stack_extent};
ghost use Rattle.rv_machine.specs.Inner.Extents.{zero_bytes, over, AreWhole, AreApart};
ghost use Rattle.rv_machine.specs.Inner.Extents.{CoverSection};

use crate::extent::{Extent, united};
use crate::part::Part;
use crate::ram::Ram;
use elf_image::{Image, Section};
use std::alloc::{AllocError, Global};

/// Where the stack lies: 65,536 bytes.
const STACK: Extent = Extent {
    start: 0x7FFE_0000,
    end: 0x7FFF_0000,
};

/// So few parts are looked through one by one.
const FEW: usize = 8;

/// The most bytes that sections may ask for: 256 MiB.
const MOST: u64 = 268_435_456;

/// Why a file gets no memory.
#[derive(Clone, Copy, Debug, PartialEq, Eq)]
pub enum RamError {
    /// Its sections ask for more than 256 MiB.
    TooMuch,
    /// Memory ran out.
    Memory,
}

/// The bytes of the sections of a file that take up memory, and 65,536 bytes of stack from 7FFE0000
/// on. If two sections share an address, the first in table order counts; a section counts before
/// the stack.
#[derive(Drop)]
pub struct Regions {
    /// Parts that do not touch each other, in rising order.
    parts: Vec<Part>,
    ghost apart: { AreApart (map extent_of parts.items) },
}

impl Regions {
    ghost use Rattle.std.specs.Prelude.{◌≡◌, ◌↔◌, IfOk, IfErr, OnOk, IsTrue, false};
    ghost use Rattle.rv_machine.specs.Regions.{bytes_of};

    /// The memory of a file. `TooMuch` if its sections ask for more than 256 MiB, which is decided
    /// before memory is taken; `Memory` if memory ran out.
    /// Time: O(n log n) in the sections, linear in their sizes. Memory: their sizes and 64 KiB.
    pub fn new(alloc: Global, image: &Image) -> Result<Regions, RamError>
        ensures bytes { IfOk result (λ regions. bytes_of regions ≡ file_memory image.now) }
        ensures little { OnOk result (is_too_much image.now ≡ false) }
        ensures too_much { IfErr result
            (λ e. (e ≡ RamError.TooMuch) ↔ IsTrue (is_too_much image.now)) }
    {
        if is_too_much(image) {
            return Err(RamError::TooMuch);
        }
        match parts_of(alloc, image) {
            Ok(parts) => Ok(Regions { parts }),
            Err(_) => Err(RamError::Memory),
        }
    }
}

impl Ram for Regions {
    ghost use Rattle.rv_machine.specs.Regions.{bytes_of};

    ghost bytes = { bytes_of };

    fn load(&self, a: u64) -> Option<u8> {
        let i = first_with(&self.parts, a)?;
        Some(self.parts[i].load(a))
    }

    fn store(&mut self, a: u64, b: u8) -> bool {
        store(&mut self.parts, a, b)
    }
}

/// Writes the byte at `a`; `false` if no part has it, and then nothing changes.
fn store(parts: &mut [Part], a: u64, b: u8) -> bool
    requires { AreApart (map extent_of parts.old) }
    ensures extents { map extent_of parts.new ≡ map extent_of parts.old }
    ensures there { result ≡ is_some (first_of (map part_bytes parts.old) a) }
    ensures bytes { first_of (map part_bytes parts.new)
        ≡ put (first_of (map part_bytes parts.old)) a b }
{
    match first_with(parts, a) {
        None => false,
        Some(i) => {
            parts[i].store(a, b);
            true
        }
    }
}

/// The place of the part that has the byte at `a`.
fn first_with(parts: &[Part], a: u64) -> Option<usize>
    requires { AreApart (map extent_of parts.now) }
    ensures { result ≡ position (has_address a) parts.now }
{
    if parts.len() <= FEW {
        parts.iter().position(|part| part.has(a))
    } else {
        find_by_halves(parts, a)
    }
}

/// The place of the part that has the byte at `a`: only the last that starts there or before may.
fn find_by_halves(parts: &[Part], a: u64) -> Option<usize>
    requires { AreApart (map extent_of parts.now) }
    ensures { result ≡ position (has_address a) parts.now }
{
    let after = parts.partition_point(|part| part.starts_by(a));
    if after == 0 {
        return None;
    }
    if parts[after - 1].has(a) {
        Some(after - 1)
    } else {
        None
    }
}

/// Whether a section takes up memory.
fn is_loaded(section: &Section) -> bool
    ensures { result ≡ is_loaded section.now }
{
    section.is_allocated() && section.kind != 0
}

/// Whether the sections of a file ask for more than 256 MiB.
fn is_too_much(image: &Image) -> bool
    ensures { result ≡ is_too_much image.now }
{
    let mut total = 0;
    for i in 0..image.section_count() {
        let section = image.section(i);
        if is_loaded(&section) {
            if section.size > MOST - total {
                return true;
            }
            total += section.size;
        }
    }
    false
}

/// The memory of a file: zeros wherever it has a byte, and then the sections, from the last in
/// table order to the first.
fn parts_of(alloc: Global, image: &Image) -> Result<Vec<Part>, AllocError>
    ensures apart { IfOk result (λ v. AreApart (map extent_of v.items)) }
    ensures bytes { IfOk result (λ v. first_of (map part_bytes v.items) ≡ file_memory image.now) }
{
    let extents = united(alloc, extents_of(alloc, image)?)?;
    let mut parts = zero_parts(alloc, &extents)?;
    write_sections(&mut parts, image);
    Ok(parts)
}

/// Where the sections of a file that take up memory lie, in table order, and the stack.
fn extents_of(alloc: Global, image: &Image) -> Result<Vec<Extent>, AllocError>
    ensures { IfOk result (λ v. v.items
        ≡ map section_extent (loaded_sections image.now) ++ stack_extent ∷ []) }
{
    let mut extents = Vec::new(alloc);
    for i in 0..image.section_count() {
        let section = image.section(i);
        if is_loaded(&section) {
            extents.push(Extent::of_section(&section))?;
        }
    }
    extents.push(STACK)?;
    Ok(extents)
}

/// Zeros at all addresses of some ranges.
fn zero_parts(alloc: Global, extents: &[Extent]) -> Result<Vec<Part>, AllocError>
    requires { AreWhole extents.now }
    ensures extents { IfOk result (λ v. map extent_of v.items ≡ extents.now) }
    ensures bytes { IfOk result (λ v. map part_bytes v.items ≡ map zero_bytes extents.now) }
{
    let mut parts = Vec::new(alloc);
    for i in 0..extents.len() {
        parts.push(Part::zeros(alloc, extents[i])?)?;
    }
    Ok(parts)
}

/// Writes the sections of a file that take up memory, from the last in table order to the first, so
/// that the first counts.
fn write_sections(parts: &mut [Part], image: &Image)
    requires apart { AreApart (map extent_of parts.old) }
    requires there { (i : ℕ) → i < section_count image.now → IsTrue (is_loaded (section image.now i))
        → CoverSection (map extent_of parts.old) (section image.now i) }
    ensures extents { map extent_of parts.new ≡ map extent_of parts.old }
    ensures bytes { (a : ℕ) → first_of (map part_bytes parts.new) a
        ≡ over (first_of (map (section_bytes image.now) (loaded_sections image.now)))
        (first_of (map part_bytes parts.old)) a }
{
    let mut left = image.section_count();
    while 0 < left {
        left -= 1;
        let section = image.section(left);
        if is_loaded(&section) {
            write_section(parts, image, &section);
        }
    }
}

/// Writes the bytes of a section of a file that takes up memory.
fn write_section(parts: &mut [Part], image: &Image, section: &Section)
    requires loaded { IsTrue (is_loaded section.now) }
    requires in_file { is_out_of_file (length image.now) section.now ≡ false }
    requires small { length image.now ≤ 67108864 }
    requires apart { AreApart (map extent_of parts.old) }
    requires there { CoverSection (map extent_of parts.old) section.now }
    ensures extents { map extent_of parts.new ≡ map extent_of parts.old }
    ensures bytes { (a : ℕ) → first_of (map part_bytes parts.new) a
        ≡ over (section_bytes image.now section.now) (first_of (map part_bytes parts.old)) a }
{
    if section.size == 0 {
        return;
    }
    if let Some(i) = first_with(parts, section.address) {
        parts[i].write_section(image, section);
    }
}
