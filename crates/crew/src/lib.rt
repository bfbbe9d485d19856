//! Workers that build a control-flow graph side by side, each in a thread of its own.
//!
//! The state that they build lies on a board, whose shards each worker locks one at a time. The
//! work items lie in a pool, from which each worker takes. Which worker does what, and in which
//! order, depends on the threads. Whatever they do, the state is kept, and what they leave undone
//! is done after they have ended. So the answer is a closed state, and all closed states of one
//! program and its seeds show the same graph. No contract says that each run makes the same state.
//!
//! - [`work`], [`build`]: the state that workers leave, and the closed state.
//! - [`Gate`]: what a worker passes before each operation, by which a test holds workers.
//! - [`Tally`]: what a worker counted, which it gives to the gate when it ends.
#![tactic(auto)]

mod cache;
mod closed;
mod desk;
mod gate;
mod hands;
mod known;
mod learn;
mod names;
mod rest;
mod shared;
mod tally;
mod team;
mod waiting;
mod worker;
mod worker_ids;
mod working;

pub use closed::{build, work};
pub use gate::{Gate, OpenGate};
pub use tally::Tally;
