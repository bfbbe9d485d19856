//! Small programs, given as lists, for the tests of the crates that build graphs.
//!
//! - [`sample`]: [`Sample`], a list of instructions seen as a program.
//! - [`rows`]: the worked programs that several crates test.
#![tactic(auto)]

pub mod rows;
pub mod sample;

pub use rows::{cut_table, row_6, row_8, row_9, row_10, row_12, row_17, table_jump};
pub use sample::{Sample, Slot};
