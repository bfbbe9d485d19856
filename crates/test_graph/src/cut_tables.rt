//! Two tables that overlap: how many entries are kept of each, and the tables of all code.

ghost use Rattle.std.specs.Prelude.{IfOk};
ghost use Rattle.code_view.specs.Cuts.{cut_of, CutsFit};

use crate::asserts::{holds, same};
use cfg_model::{Chains, Flow};
use cfg_vectors::row_file;
use chain_index::ChainIndex;
use code_tables::{all_tables, all_tables_by};
use code_view::{AllTables, Calls, Code, Cuts};
use elf_image::Image;
use std::alloc::Global;
use std::marker::Sync;
use std::process::Abort;
use std::test::Fail;
use std::thread::Threads;
use table_cuts::cuts_of;

/// The jumps of row 15: one through a table of four entries, and one through a table of two that
/// begins at the third of them.
const FIRST: u64 = 0x1001C;

const SECOND: u64 = 0x10048;

/// The header of a section of the first 40 bytes of the code of that file, before the
/// function that its other symbol names.
const LOWER: [u8; 64] = [
    0, 0, 0, 0, 1, 0, 0, 0, 6, 0, 0, 0, 0, 0, 0, 0, 0, 0, 1, 0, 0, 0, 0, 0, 0x40, 0, 0, 0, 0, 0, 0,
    0, 0x28, 0, 0, 0, 0, 0, 0, 0, 0, 0, 0, 0, 0, 0, 0, 0, 0, 0, 0, 0, 0, 0, 0, 0, 0, 0, 0, 0, 0, 0,
    0, 0,
];

/// What else changes in the file: it has six sections, and of the code section, the first in the
/// table, the address, the offset and the size.
const UPPER: [(usize, u8); 4] = [(60, 6), (304, 0x28), (312, 0x68), (320, 0x30)];

/// The file of row 15 with its code in two sections. The one at the lower addresses stands last in
/// the table.
fn in_two_sections(alloc: Global) -> Result<Vec<u8>, Fail> {
    let mut file = row_file(alloc, 15, 0)?;
    file.extend_from_slice(&LOWER)?;
    for (at, byte) in UPPER {
        if let Some(place) = file.get_mut(at) {
            *place = byte;
        }
    }
    Ok(file)
}

/// The jump at `a` keeps these targets.
fn keeps(
    rt: &(impl Abort + AllocGlobal),
    code: &Code<'_>,
    a: u64,
    want: &[u64],
) -> Result<(), Fail> {
    assert!(rt; code.has(a));
    let targets = code.targets(a)?;
    same(rt, &targets.as_slice(), &want);
    Ok(())
}

/// The first table is cut to two entries, and the second is whole.
fn cuts_the_first(rt: &impl Abort, cuts: &Cuts) {
    same(rt, &cuts.count(FIRST), &Some(2));
    same(rt, &cuts.count(SECOND), &None);
}

/// The cuts of all tables of the code.
fn all_cuts(alloc: Global, code: &Code<'_>) -> Result<Cuts, Fail>
    ensures { IfOk result (λ cuts. CutsFit code.now.bytes (cut_of cuts)) }
{
    let tables = all_tables(alloc, code)?;
    Ok(cuts_of(alloc, &tables)?)
}

/// The flow of a jump at `a` through a table of two entries.
fn goes_through(rt: &impl Abort, code: &Code<'_>, a: u64, full: bool) {
    assert!(rt; code.has(a));
    let flow = Flow::Table {
        entries: 2,
        full,
        is_open: false,
    };
    same(rt, &code.flow(a), &flow);
}

#[test]
fn cuts_a_table_where_another_begins(rt: HostRuntime) -> Result<(), Fail> {
    let image = Image::parse(rt.alloc(), row_file(rt.alloc(), 15, 0)?)?;
    let index = ChainIndex::new(rt.alloc(), &image)?;
    let calls = Calls::of(rt.alloc(), &image)?;
    let none = Cuts::none(rt.alloc());
    let code = Code::new(&image, &index, &calls, &none);
    keeps(&rt, &code, FIRST, &[0x10020, 0x10020, 0x1004C, 0x1004C])?;
    keeps(&rt, &code, SECOND, &[0x10054, 0x10054])?;
    let cuts = all_cuts(rt.alloc(), &code)?;
    cuts_the_first(&rt, &cuts);
    let code = code.under(&cuts);
    keeps(&rt, &code, FIRST, &[0x10020, 0x10020])?;
    goes_through(&rt, &code, FIRST, false);
    goes_through(&rt, &code, SECOND, true);
    Ok(())
}

/// These are the tables of these two jumps, in this order.
fn are_tables(rt: &impl Abort, tables: &AllTables, first: u64, second: u64) {
    let jumps = tables.jumps();
    same(rt, &jumps.len(), &2);
    for (table, want) in jumps.iter().zip([first, second]) {
        same(rt, &table.jump, &want);
    }
}

/// Several threads find these tables.
fn are_found_by_threads<R: Threads + Abort + AllocGlobal + Sync>(
    rt: &R,
    code: &Code<'_>,
    tables: &AllTables,
) -> Result<(), Fail> {
    for workers in [1, 2, 4, 64] {
        let made = all_tables_by(rt, rt.alloc(), code, workers)?;
        holds(rt, made.jumps() == tables.jumps());
    }
    Ok(())
}

#[test]
fn tables_of_all_code(rt: HostRuntime) -> Result<(), Fail> {
    let image = Image::parse(rt.alloc(), row_file(rt.alloc(), 15, 0)?)?;
    let index = ChainIndex::new(rt.alloc(), &image)?;
    let calls = Calls::of(rt.alloc(), &image)?;
    let none = Cuts::none(rt.alloc());
    let code = Code::new(&image, &index, &calls, &none);
    are_tables(&rt, &all_tables(rt.alloc(), &code)?, FIRST, SECOND);
    for workers in [1, 2, 4, 64] {
        let tables = all_tables_by(&rt, rt.alloc(), &code, workers)?;
        are_tables(&rt, &tables, FIRST, SECOND);
    }
    Ok(())
}

#[test]
fn tables_of_sections_out_of_order(rt: HostRuntime) -> Result<(), Fail> {
    let image = Image::parse(rt.alloc(), in_two_sections(rt.alloc())?)?;
    let index = ChainIndex::new(rt.alloc(), &image)?;
    let calls = Calls::of(rt.alloc(), &image)?;
    let none = Cuts::none(rt.alloc());
    let code = Code::new(&image, &index, &calls, &none);
    let tables = all_tables(rt.alloc(), &code)?;
    are_tables(&rt, &tables, FIRST, SECOND);
    are_found_by_threads(&rt, &code, &tables)
}

#[test]
fn looks_up_known_tables(rt: HostRuntime) -> Result<(), Fail> {
    let image = Image::parse(rt.alloc(), row_file(rt.alloc(), 15, 0)?)?;
    let index = ChainIndex::new(rt.alloc(), &image)?;
    let calls = Calls::of(rt.alloc(), &image)?;
    let none = Cuts::none(rt.alloc());
    let uncut = Code::new(&image, &index, &calls, &none);
    let tables = all_tables(rt.alloc(), &uncut)?;
    let known = uncut.with_tables(&tables);
    keeps(&rt, &known, FIRST, &[0x10020, 0x10020, 0x1004C, 0x1004C])?;
    keeps(&rt, &known, SECOND, &[0x10054, 0x10054])?;
    let cuts = all_cuts(rt.alloc(), &known)?;
    cuts_the_first(&rt, &cuts);
    let code = known.under(&cuts);
    keeps(&rt, &code, FIRST, &[0x10020, 0x10020])?;
    goes_through(&rt, &code, SECOND, true);
    Ok(())
}
