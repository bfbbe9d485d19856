//! The seeds of a file and their names.
//!
//! Each seed gets a line, in rising order: its address as sixteen hexadecimal digits, a space, and
//! the bytes of its name, or `-` if it has none. A file that is not read here gets the single line
//! `fault NAME`.

ghost use Rattle.std.specs.Prelude.{ℕ, IfSome};
ghost use Rattle.elf_symbols.specs.Seeds.{name_in, LiesIn};

use anyhow::{Result, bail};
use elf_image::{ElfError, Image};
use elf_symbols::{Seeds, seeds};
use std::alloc::Global;
use std::io::Write;

/// The lines for a file with these bytes.
pub(crate) fn write_file<W: Write>(alloc: Global, out: &mut W, bytes: Vec<u8>) -> Result<()> {
    let image = match Image::parse(alloc, bytes) {
        Ok(image) => image,
        Err(e) => return write_refusal(out, e),
    };
    match seeds(alloc, &image) {
        Ok(seeds) => write_seeds(out, &image, &seeds),
        Err(e) => write_refusal(out, e),
    }
}

fn write_refusal<W: Write>(out: &mut W, error: ElfError) -> Result<()> {
    match error {
        ElfError::Malformed(fault) => Ok(writeln!(out, "fault {}", fault.name())?),
        ElfError::Memory => bail!("out of memory"),
    }
}

fn write_seeds<W: Write>(out: &mut W, image: &Image, seeds: &Seeds) -> Result<()>
    requires { (a : ℕ) → IfSome (name_in seeds.now a) (LiesIn image.now) }
{
    for a in seeds.addresses() {
        let name = match seeds.name_of(*a) {
            Some(span) => image.bytes(span),
            None => b"-",
        };
        write!(out, "{a:016x} ")?;
        out.write_all(name)?;
        out.write_all(b"\n")?;
    }
    Ok(())
}
