//! The file of a row.

ghost use Rattle.std.specs.Prelude.{◌≡◌, IfOk};
ghost use Rattle.cfg_vectors.specs.Rows.{IsRow, row_parts};
ghost use Rattle.elf_maker.specs.MadeFile.{made_file};
ghost use Rattle.elf_maker.specs.MadeOf.{IsMadeOf};

use crate::Memory;
use crate::rows::{row_code, row_rodata};
use crate::symbols::row_symbols;
use elf_maker::{Bytes, MadeSymbols, Parts, make_elf};
use std::alloc::Global;

/// The address of the code, which is also where the program starts.
const CODE_AT: u64 = 0x10000;

/// The address of the read-only data.
const RODATA_AT: u64 = 0x20000;

/// The parts of the file of a row.
fn row_parts(alloc: Global, row: u32, part: u32) -> Result<Parts, Memory>
    requires { IsRow row part }
    ensures { IfOk result (λ parts. parts ≡ row_parts row part) }
{
    Ok(Parts {
        entry: CODE_AT,
        code_at: CODE_AT,
        code: Bytes::from_vec(row_code(alloc, row, part)?),
        rodata_at: RODATA_AT,
        rodata: Bytes::from_vec(row_rodata(alloc, row)?),
        symbols: MadeSymbols::from_vec(row_symbols(alloc, row, part)?),
    })
}

/// The file of a row of `docs/ROWS.md`: row 1, or one of the rows 5 to 17 and 28 to 34. `part` says
/// which of a row's files is wanted, from 0 on, in the order in which the row names them: rows 5
/// and 16 have four, the others one.
///
/// The only error is that memory ran out.
pub fn row_file(alloc: Global, row: u32, part: u32) -> Result<Vec<u8>, Memory>
    requires { IsRow row part }
    ensures bytes { IfOk result (λ file. file.items ≡ made_file (row_parts row part)) }
    ensures made { IfOk result (λ file. IsMadeOf (row_parts row part) file.items) }
{
    let parts = row_parts(alloc, row, part)?;
    let file = make_elf(alloc, &parts)?;
    Ok(file)
}
