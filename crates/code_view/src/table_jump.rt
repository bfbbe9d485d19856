//! A jump with its table.

use jump_table::Table;

/// A jump through a table, and its table.
#[derive(Clone, Copy, Debug, PartialEq, Eq)]
pub struct TableJump {
    /// The address of the jump.
    pub jump: u64,
    /// Where its table lies, and how many entries it has before cuts.
    pub table: Table,
}
