//! The trace of the written machine through the graph of a file: which blocks it enters, and which
//! it leaves otherwise than along an edge.
//!
//! - [`trace`]: the trace of a file, as text.
//! - `walker`: a walk under way, and its steps.
//! - `decoded`: instructions that were decoded before.
//! - `lines`: the lines of a trace.
//! - [`laws`]: that a walk leaves its graph after an `out` line alone.
#![tactic(auto)]

mod decoded;
pub mod laws;
mod lines;
mod walker;
mod whole;

pub use laws::a_walk_leaves_by_out_alone;
pub use whole::trace;
