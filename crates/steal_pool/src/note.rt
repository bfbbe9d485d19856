//! What the proofs keep of each pass of a deque, and the rule that all passes keep.

use core_state::Name;
use crossbeam_deque::protocol::{Join, Outcome, Protocol, Split};
use std::collections::LinkedList;

/// What one pass has put into its deque and taken from it, and its part of all passes. The owner's
/// pass also knows how many parts there are; another one has none of them. No value of it is made.
pub struct Note {
    /// Its parts of the whole.
    pub parts: u64,
    /// All parts that there are, or 0 for a pass that is not the owner's.
    pub whole: u64,
    /// The names put, in order.
    pub put: LinkedList<Name>,
    /// The names taken, in order.
    pub taken: LinkedList<Name>,
}

/// Names leave a deque in the order in which they came, each once.
pub struct FirstOut;

impl Protocol<Name, Note> for FirstOut {
    ghost use Rattle.std.specs.Prelude.{[]};
    ghost use Rattle.steal_pool.specs.Rule.{note, Kept};

    ghost holds = { Kept };

    ghost first = { note 1 1 [] [] };

    ghost guest = { note 0 0 [] [] };
}

/// A pass with a part of its own, for a hand that steals.
pub struct Part;

impl Split<Note> for Part {
    ghost use Rattle.std.specs.Prelude.{◌+◌, []};
    ghost use Rattle.steal_pool.specs.Rule.{note};

    ghost left = { λ v. note v.parts (v.whole + 1) v.put v.taken };

    ghost right = { λ _. note 1 0 [] [] };
}

/// A pass with no part, which stands in the owner's own place among the passes of its hand.
pub struct Spare;

impl Split<Note> for Spare {
    ghost use Rattle.std.specs.Prelude.{[]};
    ghost use Rattle.steal_pool.specs.Rule.{note};

    ghost left = { λ v. v };

    ghost right = { λ _. note 0 0 [] [] };
}

/// The owner's pass takes in another one.
pub struct Gathered;

impl Join<Note> for Gathered {
    ghost use Rattle.std.specs.Prelude.{◌+◌, ◌++◌, []};
    ghost use Rattle.steal_pool.specs.Rule.{note};

    ghost both = { λ v w. note (v.parts + w.parts) v.whole v.put (v.taken ++ w.taken) };

    ghost spent = { note 0 0 [] [] };
}

/// A name that is put is the last one put.
pub struct Puts;

impl Outcome<Name, Note> for Puts {
    ghost use Rattle.std.specs.Prelude.{◌≡◌, ◌++◌};
    ghost use Rattle.steal_pool.specs.Rule.{note};

    ghost then = { λ v xs w. w ≡ note v.parts v.whole (v.put ++ xs) v.taken };
}

/// A name that is taken is the last one taken. A pass that has all parts sees which name it is, and
/// finds no name only if all are taken.
pub struct Takes;

impl Outcome<Name, Note> for Takes {
    ghost use Rattle.std.specs.Prelude.{◌≡◌, ◌++◌};
    ghost use Rattle.steal_pool.specs.Often.{EachAsOften};
    ghost use Rattle.steal_pool.specs.Rule.{note, HasAll, AreNext};

    ghost then = { λ v xs w. (w ≡ note v.parts v.whole v.put (v.taken ++ xs))
        × (HasAll v → AreNext v xs) };

    ghost empty = { λ v. HasAll v → EachAsOften v.put v.taken };
}
