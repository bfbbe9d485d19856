//! The rule that every step on the board keeps, and what each step tells the seat that makes it.

use crate::piece::Piece;
use crate::view::View;
use atomic_table::{Join, Play, Split, TableRule};
use core_state::Job;
use std::marker::PhantomData;

/// The rule of a board that works for `J`.
pub struct Ruled<J> {
    job: PhantomData<J>,
}

impl<J: Job> TableRule<Option<Piece>, View, ()> for Ruled<J> {
    ghost use Rattle.std.specs.Prelude.{None};
    ghost use Rattle.board.specs.Rule.{IsKept};
    ghost use Rattle.board.specs.Seat.{first_notes};

    ghost holds = { λ _ state. IsKept J.map J.seeds state };

    ghost first = { λ _. record { notes = first_notes; out = None } };
}

/// Tries the turn of a slot, once.
pub struct Try<J> {
    job: PhantomData<J>,
}

impl<J: Job> Play<Option<Piece>, View> for Try<J> {
    ghost use Rattle.board.specs.Plays.{Tries};

    ghost then = { Tries J.map J.seeds };
}

/// Makes the event by which the value in the slot is the step of the one before.
pub struct Make;

impl Play<Option<Piece>, View> for Make {
    ghost use Rattle.board.specs.Plays.{Makes};

    ghost then = { Makes };
}

/// Shows a seat that the terminator of a waiter is entered.
pub struct Learn;

impl Play<Option<Piece>, View> for Learn {
    ghost use Rattle.board.specs.Plays.{Learns};

    ghost then = { Learns };
}

/// Lays the empty slot back, after its value was taken out of it.
pub struct Leave;

impl Play<Option<Piece>, View> for Leave {
    ghost use Rattle.board.specs.Plays.{Leaves};

    ghost then = { Leaves };
}

/// Takes the empty slot, to put its value into it.
pub struct Reach;

impl Play<Option<Piece>, View> for Reach {
    ghost use Rattle.board.specs.Plays.{Reaches};

    ghost then = { Reaches };
}

/// Gives the slot back with its value, and its turn with it.
pub struct Return;

impl Play<Option<Piece>, View> for Return {
    ghost use Rattle.board.specs.Plays.{Returns};

    ghost then = { Returns };
}

/// Halves a seat's share between it and a new seat, which knows the same.
pub struct Halves;

impl Split<View> for Halves {
    ghost use Rattle.board.specs.Plays.{half_view, new_view};

    ghost left = { half_view };

    ghost right = { new_view };
}

/// Adds the share and the knowledge of another seat, which is spent.
pub struct Added;

impl Join<View> for Added {
    ghost use Rattle.board.specs.Plays.{both_view, spent_view};

    ghost both = { both_view };

    ghost spent = { spent_view };
}
