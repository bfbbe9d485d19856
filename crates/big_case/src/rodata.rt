//! The read-only data: the jump tables.

ghost use Rattle.std.specs.Prelude.{◌≡◌, ◌+◌, ◌*◌, ◌≤◌, ◌<◌, ◌++◌, OnOk, IfOk};
ghost use Rattle.elf_maker.specs.Fields.{words};
ghost use Rattle.big_case.specs.Tables.{table, table_entry, rodata_bytes};

use crate::Memory;
use crate::place::{TABLE_SIZE, slot_at, table_at};
use byteorder::{ByteOrder, LittleEndian};
use std::alloc::Global;

/// The entry of table `j` for the instruction at `offset` in its function's slot.
fn table_entry(j: u32, offset: u32) -> u32
    requires known { j < 25000 }
    requires inside { offset < 128 }
    ensures { result ≡ table_entry j offset }
{
    (slot_at(4 * j + 3) + offset).wrapping_sub(table_at(j))
}

/// The entries of table `j`: the four instructions after the jump through it.
fn table_of(j: u32) -> [u32; 4]
    requires { j < 25000 }
    ensures { result ≡ table j }
{
    [
        table_entry(j, 52),
        table_entry(j, 56),
        table_entry(j, 60),
        table_entry(j, 64),
    ]
}

/// Appends table `j`.
#[tactic(auto, unfolding(elf_maker::specs::Fields::words))]
fn put_table(rodata: &mut Vec<u8>, j: u32) -> Result<(), Memory>
    requires { j < 25000 }
    ensures { OnOk result (rodata.new.items ≡ rodata.old.items ++ words (table j)) }
{
    let mut bytes = [0; TABLE_SIZE as usize];
    LittleEndian::write_u32_into(&table_of(j), &mut bytes);
    rodata.extend_from_slice(&bytes)?;
    Ok(())
}

/// The bytes of the tables of a program of `n` functions.
pub(crate) fn rodata_of(alloc: Global, n: u32) -> Result<Vec<u8>, Memory>
    requires { n ≤ 100000 }
    ensures { IfOk result (λ rodata. rodata.items ≡ rodata_bytes n) }
{
    let count = n / 4;
    let mut rodata = Vec::with_capacity(alloc, (TABLE_SIZE * count) as usize)?;
    for j in 0..count {
        put_table(&mut rodata, j)?;
    }
    Ok(rodata)
}
