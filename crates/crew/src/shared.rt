//! What the workers of a run share.

use crate::gate::Gate;
use crate::rest::AtWork;
use board::Board;
use core_state::{Job, Name, PlaceEnd};
use steal_pool::Pool;

/// What all workers of a run share.
#[derive(Drop)]
pub(crate) struct Shared<'a, J: Job, R, C, G> {
    /// The runtime.
    pub(crate) rt: &'a R,
    /// The board with the state that they build.
    pub(crate) board: &'a Board<J>,
    /// The pool with the names of the work that is to be done.
    pub(crate) pool: &'a Pool,
    /// The program.
    pub(crate) code: &'a C,
    /// Its seeds.
    pub(crate) seeds: &'a [u64],
    /// What they pass before each operation.
    pub(crate) gate: &'a G,
    /// How many of them have work.
    pub(crate) at_work: &'a AtWork,
}
