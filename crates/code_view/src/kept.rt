//! The targets that are kept of a jump table.

ghost use Rattle.std.specs.Prelude.{◌≡◌, ◌≤◌, IfOk, take};
ghost use Rattle.jump_table.specs.Table.{IsTableOf, table_targets};
ghost use Rattle.code_view.specs.Flow.{kept_entries};

use cfg_model::Memory;
use elf_image::Image;
use jump_table::{Table, entry_target};
use std::alloc::Global;

/// The kept targets of a table of this image, in its order: the first `cut` of them, or all if
/// there is no cut. The only error is that memory ran out.
pub fn kept_targets(
    alloc: Global,
    image: &Image,
    cut: Option<u32>,
    table: Table,
) -> Result<Vec<u64>, Memory>
    requires found { IsTableOf image.now table }
    requires within { kept_entries cut table ≤ table.count }
    ensures { IfOk result
        (λ v. v.items ≡ take (kept_entries cut table) (table_targets image.now table)) }
{
    let count = cut.unwrap_or(table.count);
    let mut targets = Vec::with_capacity(alloc, count as usize)?;
    for i in 0..count {
        targets.push(entry_target(image, &table, i))?;
    }
    Ok(targets)
}
