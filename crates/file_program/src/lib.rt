//! What the program of a file is, and its graph: definitions, and that a file has one graph.
//!
//! - `specs/FileSeeds`: the seeds of a file, with their names.
//! - `specs/FileGraph`: the cuts of its jump tables, and its graph under them.
//! - [`laws`]: the cuts and the graph of a file are determined.
//!
//! No builder stands below these definitions, so a checker can stand on them as well.
#![tactic(auto)]

pub mod laws;

pub use laws::one_graph_of_a_file;
