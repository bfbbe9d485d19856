//! What the changes of the state answer, and how its shards and the work on it are named.

use crate::Memory;

/// What became of an end at which a start arrived.
#[derive(Clone, Copy, Debug, PartialEq, Eq)]
pub enum Arrival {
    /// No block was known to end there. The start is near now.
    First,
    /// The start was near already. Nothing changed.
    Same,
    /// Another start was near.
    Split {
        /// The start that is near now: the first address on the chains of both.
        near: u64,
        /// The lesser of the starts that have to leave the end now.
        first: u64,
        /// The greater one, if both have to.
        second: Option<u64>,
    },
}

/// The three kinds of shards.
#[derive(Clone, Copy, Debug, PartialEq, Eq)]
pub enum ShardKind {
    /// A shard of the starts of blocks.
    Starts,
    /// A shard of the ends of blocks.
    Ends,
    /// A shard of the terminators.
    Terms,
}

/// Why a place refuses a call. Nothing has changed then.
#[derive(Clone, Copy, Debug, PartialEq, Eq)]
pub enum PlaceEnd {
    /// The shard of the call's key is in other hands.
    Busy {
        /// The kind of that shard.
        kind: ShardKind,
        /// Its number.
        shard: u32,
    },
    /// Memory ran out.
    Memory,
}

impl From<Memory> for PlaceEnd {
    ghost use Rattle.std.specs.Prelude.{◌≡◌};
    ghost use Rattle.core_state.specs.declared.answer.PlaceEnd.TheVariants as refusals;

    ghost from_gives = { λ _ e. e ≡ refusals.Memory };

    fn from(_: Memory) -> Self {
        PlaceEnd::Memory
    }
}

/// The kinds of work that workers do.
#[derive(Clone, Copy, Debug, PartialEq, Eq)]
pub enum WorkKind {
    /// Make an address the start of a block.
    Want,
    /// Follow a start's chain to its end.
    Parse,
    /// Place a displaced start.
    Move,
    /// Follow the edges of a terminator.
    Edges,
    /// Tell a waiter that a terminator returns.
    Tell,
}

/// A piece of work: its kind, and the address that it is about.
#[derive(Clone, Copy, Debug, PartialEq, Eq)]
pub struct Name {
    /// What is to be done.
    pub kind: WorkKind,
    /// Where.
    pub key: u64,
}
