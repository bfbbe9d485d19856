//! The graph of a file: the least closure from its seeds under the cuts of its jump tables.
//!
//! - `file`: a file with its graph, and the call that makes it on the caller's thread.
//! - `survey`: what is known of a file before any of its program is followed.
//! - `graph`: the graph of a file, step by step.
//! - `builder`: who does the parts of this: the caller's thread here, or workers in `file_crew`.
#![tactic(auto)]

mod builder;
mod file;
mod graph;
mod survey;

pub use builder::Builder;
pub use file::{FileGraph, file_graph, graphed};
pub use std::alloc::AllocError as Memory;
pub use survey::Survey;
