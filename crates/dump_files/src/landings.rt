//! The ranges of a file that have landing pads.
//!
//! Each range gets a line, in the order of their beginnings: the address of its first byte as sixteen
//! hexadecimal digits, its length in bytes, and the address of its pad. A file that is not read here
//! gets the single line `fault NAME`.

use anyhow::{Result, bail};
use elf_image::{ElfError, Image};
use landing_pads::Landings;
use std::alloc::Global;
use std::io::Write;

/// The lines for a file with these bytes.
pub(crate) fn write_file<W: Write>(alloc: Global, out: &mut W, bytes: Vec<u8>) -> Result<()> {
    match Image::parse(alloc, bytes) {
        Ok(image) => write_ranges(alloc, out, &image),
        Err(ElfError::Malformed(fault)) => Ok(writeln!(out, "fault {}", fault.name())?),
        Err(ElfError::Memory) => bail!("out of memory"),
    }
}

fn write_ranges<W: Write>(alloc: Global, out: &mut W, image: &Image) -> Result<()> {
    let landings = Landings::of(alloc, image)?;
    for r in landings.ranges() {
        writeln!(out, "{:016x} {} {:016x}", r.begin, r.len, r.pad)?;
    }
    Ok(())
}
