//! The checker of certificates: whether a part of a certificate is valid for a program, and the graph
//! of a file from a certificate of it, whoever made that. It stands on no crate that builds a graph.
//!
//! Over any program whose addresses are numbered:
//!
//! - [`part`]: whether a part is valid, and the blocks and edges that a valid one tells.
//! - [`graph`]: the whole graph that a valid part tells.
//! - [`known`]: whether an instruction stands at each line, and whether each seed is a leader.
//! - `owners`, `blocks`: the blocks of the leaders, walked once, and whether they share an address.
//! - `edges`, `outline`: what the blocks lead to, and the blocks as those of a graph.
//! - `closed`: whether a leader is missing that a block leads to.
//! - `jumps`: which blocks come after which.
//! - `leads`: the reasons of the leaders.
//!
//! Of a file:
//!
//! - [`check`]: whether a certificate of a file is valid, and then the graph of the file.
//! - `error`: why there is no graph.
#![tactic(auto)]

mod blocks;
mod checker;
mod closed;
mod edges;
mod error;
pub mod graph;
mod jumps;
pub mod known;
mod leads;
mod outline;
mod owners;
pub mod part;

pub use cfg_model::Memory;
pub use checker::check;
pub use error::CheckError;
pub use graph::{graph_of_outline, graph_of_part};
pub use known::{are_in_code, seeds_lead};
pub use part::outline_of_part;
