//! A range of addresses and the bytes in it.

ghost use Rattle.std.specs.Prelude.{◌≡◌, ◌≤◌, ◌+◌, ◌-◌, ◌++◌, IfOk, IsTrue, nat_le, length, take};
ghost use Rattle.std.specs.Prelude.{drop, false};
ghost use Rattle.elf_image.specs.FaultTests.{is_out_of_file};
ghost use Rattle.rv_machine.specs.FileMemory.{is_loaded};
ghost use Rattle.rv_machine.specs.Inner.Parts.{section_items};

use crate::extent::Extent;
use elf_image::{Image, Section, Span};
use std::alloc::{AllocError, Global};

/// The bytes from `start` on.
#[derive(Drop)]
pub(crate) struct Part {
    start: u64,
    bytes: Vec<u8>,
}

impl Part {
    ghost use Rattle.std.specs.Prelude.{Some};
    ghost use Rattle.rv_machine.specs.Memory.{put};
    ghost use Rattle.rv_machine.specs.FileMemory.{section_bytes};
    ghost use Rattle.rv_machine.specs.Inner.Parts.{has_address, part_bytes};
    ghost use Rattle.rv_machine.specs.Inner.Extents.{extent_of, zero_bytes, over};

    /// Zeros at all addresses of a range.
    pub(crate) fn zeros(alloc: Global, extent: Extent) -> Result<Part, AllocError>
        requires { extent.start ≤ extent.end }
        ensures extent { IfOk result (λ part. extent_of part ≡ extent) }
        ensures bytes { IfOk result (λ part. part_bytes part ≡ zero_bytes extent) }
    {
        Ok(Part {
            start: extent.start,
            bytes: vec![in alloc; 0; (extent.end - extent.start) as usize]?,
        })
    }

    /// Whether it starts at `a` or before.
    pub(crate) fn starts_by(&self, a: u64) -> bool
        ensures { result ≡ nat_le self.now.start a }
    {
        self.start <= a
    }

    /// Whether it has the byte at `a`.
    pub(crate) fn has(&self, a: u64) -> bool
        ensures { result ≡ has_address a self.now }
    {
        a >= self.start && a - self.start < self.bytes.len() as u64
    }

    /// The byte at `a`, which it has.
    pub(crate) fn load(&self, a: u64) -> u8
        requires { IsTrue (has_address a self.now) }
        ensures { part_bytes self.now a ≡ Some result }
    {
        self.bytes[(a - self.start) as usize]
    }

    /// Writes the byte at `a`, which it has.
    pub(crate) fn store(&mut self, a: u64, b: u8)
        requires { IsTrue (has_address a self.old) }
        ensures extent { extent_of self.new ≡ extent_of self.old }
        ensures bytes { part_bytes self.new ≡ put (part_bytes self.old) a b }
    {
        self.bytes[(a - self.start) as usize] = b;
    }

    /// Writes the bytes of a section of a file that takes up memory; it has all their addresses.
    pub(crate) fn write_section(&mut self, image: &Image, section: &Section)
        requires loaded { IsTrue (is_loaded section.now) }
        requires in_file { is_out_of_file (length image.now) section.now ≡ false }
        requires small { length image.now ≤ 67108864 }
        requires start { self.old.start ≤ section.now.address }
        requires end { section.now.address + section.now.size
            ≤ self.old.start + length self.old.bytes.items }
        ensures extent { extent_of self.new ≡ extent_of self.old }
        ensures bytes { part_bytes self.new
            ≡ over (section_bytes image.now section.now) (part_bytes self.old) }
    {
        let at = (section.address - self.start) as usize;
        put_section(
            &mut self.bytes[at..at + section.size as usize],
            image,
            section,
        );
    }
}

/// Writes the bytes of a section of a file that takes up memory, one after the other.
fn put_section(target: &mut [u8], image: &Image, section: &Section)
    requires loaded { IsTrue (is_loaded section.now) }
    requires in_file { is_out_of_file (length image.now) section.now ≡ false }
    requires small { length image.now ≤ 67108864 }
    requires room { length target.old ≡ section.now.size }
    ensures { target.new ≡ section_items image.now section.now }
{
    if section.is_without_bytes() {
        target.fill(0);
        return;
    }
    let span = Span {
        at: section.offset as u32,
        len: section.size as u32,
    };
    target.copy_from_slice(image.bytes(span));
}
