//! Steps of the written machine as moves in the graph of its program.
//!
//! - [`moves`]: the move that a step makes, and how it is judged.
//! - [`laws`]: that the graph accounts for every step, and that no step changes the code.
//! - `search`: the edge between two blocks.
#![tactic(auto)]

pub mod laws;
pub mod moves;
mod search;

pub use laws::{
    every_open_step_is_covered, every_step_is_covered, fixed_bytes_stay,
    fixed_bytes_stay_in_the_open,
};
pub use moves::{Move, judge_in};
