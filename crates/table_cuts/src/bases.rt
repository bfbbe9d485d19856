//! The bases of jump tables, in order, and the cut of a table by them.

ghost use Rattle.std.specs.Prelude.{◌≡◌, ◌<◌, ℕ, List, IfOk};
ghost use Rattle.std.specs.List.Sorted.{IsNonDecreasing};
ghost use Rattle.table_cuts.specs.Extents.{extent_of};
ghost use Rattle.code_view.specs.Tables.{addresses_of, AreTablesOf};
ghost use Rattle.table_cuts.specs.Inner.{AreBases, CutBy};

use code_view::{Memory, TableJump};
use jump_table::Table;
use std::alloc::Global;

/// The bases of the tables of these jumps, in order.
pub(crate) fn bases_of(alloc: Global, jumps: &[TableJump]) -> Result<Vec<u64>, Memory>
    ensures bases { IfOk result (λ bases. (bytes : List ℕ)
        → AreTablesOf bytes jumps.now → AreBases bytes (addresses_of jumps.now) bases.items) }
    ensures sorted { IfOk result (λ bases. IsNonDecreasing bases.items) }
{
    let mut bases = Vec::new(alloc);
    for found in jumps {
        bases.push(found.table.base)?;
    }
    bases.sort_unstable();
    Ok(bases)
}

/// How many whole entries come before the least base inside the table, one at least; `None` if that
/// is all of them, or no base lies inside.
pub(crate) fn cut_by(bases: &[u64], table: &Table) -> Option<u32>
    requires sorted { IsNonDecreasing bases.now }
    requires width { 0 < (extent_of table.now).width }
    ensures { CutBy bases.now (extent_of table.now) result }
{
    let start = table.base;
    let after = bases.partition_point(|base| *base <= start);
    if after == bases.len() {
        return None;
    }
    let kept = ((bases[after] - start) / u64::from(table.width)).max(1);
    if kept < u64::from(table.count) {
        Some(kept as u32)
    } else {
        None
    }
}
