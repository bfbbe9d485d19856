//! What lies in a slot of the board.

use core_state::{Ends, Starts, Terms};

/// One shard of a builder's state.
#[derive(Drop)]
pub enum Piece {
    /// A shard of the starts of blocks.
    Starts(Starts),
    /// A shard of the ends of blocks.
    Ends(Ends),
    /// A shard of the terminators.
    Terms(Terms),
}
