//! The jump tables of all code, found by several threads.

ghost use Rattle.std.specs.Prelude.{◌+◌, ◌≤◌, IfOk};
ghost use Rattle.parallel.specs.Gaps.{gap};
ghost use Rattle.code_view.specs.Tables.{AreAllTables};
ghost use Rattle.code_tables.specs.Parts.{AreTablesIn, AreTablesByGap};

use crate::everywhere::{all_tables, tables_in};
use code_view::{AllTables, Code, Memory, TableJump};
use parallel::{AddressRange, joined_if_made, map_drawn};
use std::alloc::Global;
use std::thread::Threads;

/// Into how many ranges the code is cut for each worker. With one each, all would wait for the one
/// that is slowest or begins last; of four each, fast workers draw more.
const RANGES_PER_WORKER: u32 = 4;

/// The answer of [`all_tables`]. The code is cut into four ranges of about the same size for each
/// worker, who draw one range after another. They find the jumps through a register there, and their
/// tables. With one worker no thread is started. [`Memory`] if memory ran out.
pub fn all_tables_by<R: Threads + Sync>(
    rt: &R,
    alloc: Global,
    code: &Code<'_>,
    workers: u32,
) -> Result<AllTables, Memory>
    requires { 1 ≤ workers }
    ensures { IfOk result (AreAllTables code.now.bytes) }
{
    if workers == 1 {
        return all_tables(alloc, code);
    }
    let bounds = code.bounds(alloc, workers.saturating_mul(RANGES_PER_WORKER))?;
    let parts = tables_by_gap(rt, alloc, code, &bounds, workers)?;
    let jumps = joined_if_made(alloc, parts)?;
    Ok(AllTables::new(jumps))
}

/// The tables of the jumps in each gap, in the order of the gaps. The workers draw the gaps.
fn tables_by_gap<R: Threads + Sync>(
    rt: &R,
    alloc: Global,
    code: &Code<'_>,
    bounds: &[u64],
    workers: u32,
) -> Result<Vec<Result<Vec<TableJump>, Memory>>, Memory>
    ensures { IfOk result (λ v. AreTablesByGap code.now.bytes bounds.now v.items) }
{
    let look_up = |i: usize| -> Result<Vec<TableJump>, Memory>
        ensures { IfOk result (λ jumps. AreTablesIn code.entry.now.bytes
            (gap bounds.entry.now i) jumps.items) }
    { tables_in(alloc, code, AddressRange::gap(bounds, i)) };
    Ok(map_drawn(rt, alloc, workers as usize, bounds.len() + 1, &look_up)?)
}
