//! All jump tables of some code, found once and looked up from then on.

ghost use Rattle.std.specs.Prelude.{◌≡◌, ℕ, List};
ghost use Rattle.jump_table.specs.Table.{table_at};
ghost use Rattle.code_view.specs.Tables.{AreAllTables};

use crate::table_jump::TableJump;
use jump_table::Table;
use std::marker::Model;

/// All jumps of some code that go through a table, reached or not, each with its table. They come
/// in the order of their addresses.
#[derive(Drop)]
pub struct AllTables {
    jumps: Vec<TableJump>,
}

impl Model for AllTables {
    ghost use Rattle.std.specs.Prelude.{List};
    ghost use Rattle.std.specs.List.Sorted.{IsNonDecreasingBy};
    ghost use Rattle.code_view.specs.declared.table_jump.TableJump.{TableJump};

    ghost Value = { List TableJump };

    ghost view = { λ a. a.jumps.items };

    ghost invariant = { λ a. IsNonDecreasingBy (λ (f : TableJump). f.jump) a.jumps.items };
}

impl AllTables {
    /// These jumps with their tables, in any order: all that the code of a file has.
    pub fn new(mut jumps: Vec<TableJump>) -> AllTables
        requires { (bytes : List ℕ) × AreAllTables bytes jumps.items }
        ensures { (bytes : List ℕ) → AreAllTables bytes jumps.items → AreAllTables bytes result }
    {
        jumps.sort_unstable_by_key(|found| found.jump);
        AllTables { jumps }
    }

    /// The jumps, in the order of their addresses, each with its table.
    pub fn jumps(&self) -> &[TableJump]
        ensures { result.now ≡ self.now }
    {
        &self.jumps
    }

    /// The table of the jump at `j`; `None` exactly if it has none.
    /// Time: O(log tables).
    pub fn table(&self, j: u64) -> Option<Table>
        ensures { (bytes : List ℕ) → AreAllTables bytes self.now → result ≡ table_at bytes j }
    {
        match self.jumps.binary_search_by_key(&j, |found| found.jump) {
            Ok(i) => Some(self.jumps[i].table),
            Err(_) => None,
        }
    }
}
