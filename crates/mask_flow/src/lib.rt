//! Masks that spread backwards along the ways of a graph, up to their least fixed point.
//!
//! - `fixed_point`: the fixed point.
//! - `ways`: one way, and the ways by the node that they enter.
//! - `todo`: the nodes that are to be looked at again.
#![tactic(auto)]

mod fixed_point;
mod todo;
mod ways;

pub use fixed_point::{Spreading, spread};
pub use ways::Way;
