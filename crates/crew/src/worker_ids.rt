//! What stays of a worker whatever it does.

use std::marker::Brand;

/// What a worker was given and has to give back: a seat of this board with this share, and the hand
/// with this number of this pool. An operation knows nothing else of its worker, so the worker's
/// type says it. It has no function, and contracts alone see it.
pub(crate) trait WorkerIds {
    ghost use Rattle.std.specs.Prelude.{ℕ, List};
    ghost use Rattle.board.specs.Locks.Share.{Share};
    ghost use Rattle.board.specs.Slots.{BoardId};
    ghost use Rattle.steal_pool.specs.Pool.{DequeId};

    /// The board that the seat is of.
    ghost board: { BoardId };

    /// The seat's share.
    ghost share: { Share };

    /// The deques of the pool.
    ghost deques: { List DequeId };

    /// The number of the hand.
    ghost number: { ℕ };
}

/// Where a worker's members are picked at a call, in its proof.
impl WorkerIds for Brand {
    ghost use Rattle.std.specs.Prelude.{[]};
    ghost use Rattle.board.specs.Locks.Share.{whole};
    ghost use Rattle.crew.specs.inner.Nowhere.{no_board};

    ghost board = { no_board };

    ghost share = { whole };

    ghost deques = { [] };

    ghost number = { 0 };
}
