//! The graph of a file, made by workers: the steps of `file_graph`, each shared among threads.
//!
//! - `file`: the call.
//! - `workers`: workers as a builder of `file_graph`. `sharing`: the steps that they share.
//! - `measure`: how many workers a step is worth.
#![tactic(auto)]

mod file;
mod measure;
mod sharing;
mod workers;

pub use file::file_graph_by;
pub use measure::{LEAST_SHARES, Step, workers_worth};
pub use std::alloc::AllocError as Memory;
