//! The jump tables of all code, reached or not.
//!
//! - `everywhere`: the tables, found by one thread.
//! - `sharing`: the same, found by several threads.
#![tactic(auto)]

mod everywhere;
mod sharing;

pub use everywhere::all_tables;
pub use sharing::all_tables_by;
