//! The jump tables of a file.
//!
//! Each even address of code with a jump through a table gets a line, in the order of the sections.
//! The line has the addresses of the jump and of the table, each in sixteen hexadecimal digits, and
//! the size of an entry. Then come how many entries count, how many may count, `bounded` or `open`,
//! and the target of each entry. A file that is not read here gets the single line `fault NAME`.

ghost use Rattle.jump_table.specs.Table.{IsTableOf};

use anyhow::{Result, bail};
use elf_image::{ElfError, Image};
use jump_table::{Table, entry_target, find_table};
use std::alloc::Global;
use std::io::Write;

/// The lines for a file with these bytes.
pub(crate) fn write_file<W: Write>(alloc: Global, out: &mut W, bytes: Vec<u8>) -> Result<()> {
    match Image::parse(alloc, bytes) {
        Ok(image) => write_tables(out, &image),
        Err(ElfError::Malformed(fault)) => Ok(writeln!(out, "fault {}", fault.name())?),
        Err(ElfError::Memory) => bail!("out of memory"),
    }
}

fn write_tables<W: Write>(out: &mut W, image: &Image) -> Result<()> {
    for i in 0..image.section_count() {
        let section = image.section(i);
        for parcel in 0..section.size / 2 {
            let Some(jump) = section.address.checked_add(2 * parcel) else {
                break;
            };
            if image.section_start(jump) != Some(section.address) {
                continue;
            }
            if image.is_code(jump) {
                if let Some(table) = find_table(image, jump) {
                    write_table(out, image, jump, &table)?;
                }
            }
        }
    }
    Ok(())
}

fn write_table<W: Write>(out: &mut W, image: &Image, jump: u64, table: &Table) -> Result<()>
    requires { IsTableOf image.now table.now }
{
    let form = if table.is_open { "open" } else { "bounded" };
    write!(
        out,
        "{jump:016x} {:016x} {} {} {} {form}",
        table.base, table.width, table.count, table.bound
    )?;
    for i in 0..table.count {
        write!(out, " {:016x}", entry_target(image, table, i))?;
    }
    writeln!(out)?;
    Ok(())
}
