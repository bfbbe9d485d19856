//! The jump tables of all code, reached or not.

ghost use Rattle.std.specs.Prelude.{IfOk, IsTrue, All};
ghost use Rattle.elf_image.specs.Code.{is_code};
ghost use Rattle.code_view.specs.Tables.{AreAllTables};
ghost use Rattle.code_tables.specs.Parts.{AreTablesAmong, AreTablesIn};

use code_view::{AllTables, Code, Memory, TableJump};
use parallel::AddressRange;
use std::alloc::Global;

/// All tables of `code`, of jumps that are reached or not. [`Memory`] if memory ran out.
///
/// It goes once over the halfwords of the code; the table of each jump through a register is found
/// once.
pub fn all_tables(alloc: Global, code: &Code<'_>) -> Result<AllTables, Memory>
    ensures { IfOk result (AreAllTables code.now.bytes) }
{
    let places = code.register_jumps(alloc)?;
    let jumps = tables_among(alloc, code, &places)?;
    Ok(AllTables::new(jumps))
}

/// The jumps in a range of addresses that go through a table, each with its table. It goes once over
/// the halfwords of the code there.
pub(crate) fn tables_in(
    alloc: Global,
    code: &Code<'_>,
    range: AddressRange,
) -> Result<Vec<TableJump>, Memory>
    ensures { IfOk result (λ jumps. AreTablesIn code.now.bytes range jumps.items) }
{
    let places = code.register_jumps_between(alloc, range.after, range.last)?;
    tables_among(alloc, code, &places)
}

/// The jumps at these code addresses that go through a table, in order, each with its table.
fn tables_among(alloc: Global, code: &Code<'_>, places: &[u64]) -> Result<Vec<TableJump>, Memory>
    requires { All (λ a. IsTrue (is_code code.now.bytes a)) places.now }
    ensures { IfOk result (λ jumps. AreTablesAmong code.now.bytes places.now jumps.items) }
{
    let mut jumps = Vec::new(alloc);
    for &jump in places {
        if let Some(table) = code.table(jump) {
            jumps.push(TableJump { jump, table })?;
        }
    }
    Ok(jumps)
}
