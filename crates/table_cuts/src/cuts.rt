//! The cuts of all jump tables of some code.

ghost use Rattle.std.specs.Prelude.{ℕ, List, IfOk};
ghost use Rattle.cfg_model.specs.Program.Cuts.{AreCuts};
ghost use Rattle.code_view.specs.Cuts.{cut_of, CutsFit};
ghost use Rattle.code_view.specs.Tables.{AreAllTables};
ghost use Rattle.table_cuts.specs.Extents.{extent_at};

use crate::bases::{bases_of, cut_by};
use code_view::{AllTables, Cuts, Memory};
use std::alloc::Global;

/// The cuts of the jump tables of some code, of which `tables` are all. Whether their jumps are
/// reached does not matter. [`Memory`] if memory ran out.
/// Time: O(n log n) for n tables.
pub fn cuts_of(alloc: Global, tables: &AllTables) -> Result<Cuts, Memory>
    requires { (bytes : List ℕ) × AreAllTables bytes tables.now }
    ensures cuts { IfOk result (λ cuts. (bytes : List ℕ) → AreAllTables bytes tables.now
        → AreCuts (extent_at bytes) (cut_of cuts)) }
    ensures fits { IfOk result (λ cuts. (bytes : List ℕ) → AreAllTables bytes tables.now
        → CutsFit bytes (cut_of cuts)) }
{
    let jumps = tables.jumps();
    let bases = bases_of(alloc, jumps)?;
    let mut cuts = Cuts::none(alloc);
    for found in jumps {
        if let Some(count) = cut_by(&bases, &found.table) {
            cuts.put(found.jump, count)?;
        }
    }
    Ok(cuts)
}
