//! The graph of a program, from what is reached from its seeds.
//!
//! What is known of each address is kept in arrays, by the number of the address. The addresses
//! that control is sent to start blocks. Only where two of these blocks overlap can two streams
//! join, which starts a block too: a walk from each that overlaps another goes over its
//! instructions once, and finds the joins. Each block is cut at the next start, its edges are those
//! of its last instruction, and the functions follow from blocks and edges.
//!
//! - [`graph`]: the graph.
//! - [`leaders`]: the addresses where blocks start.
//! - `cuts`: the blocks that start where marks are set, by ranges of numbers, and once more at joins.
//! - `overlaps`: which blocks overlap others.
//! - `walks`: the walks over blocks that overlap, which find joins.
//! - [`outline`]: the blocks and edges, from what is reached and from these leaders.
//! - `blocks`: one block, up to its last instruction.
//! - `edges`: the edges of one block, and all edges in order.
//! - [`sharing`]: blocks and edges, made by several threads.
#![tactic(auto)]

mod blocks;
mod cuts;
mod edges;
pub mod graph;
pub mod leaders;
pub mod outline;
mod overlaps;
pub mod sharing;
mod walks;

pub use cfg_model::Memory;
pub use graph::{graph_from, graph_of};
pub use leaders::leaders_of;
pub use outline::outline_from;
pub use sharing::outline_by;
