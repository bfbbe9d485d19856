//! What the rule of the board knows of one seat.
ghost use Rattle.std.specs.Prelude.{ℕ, Option};
ghost use Rattle.std.specs.Borrow.{ftrue};
ghost use Rattle.board.specs.Seat.{Notes, coded_notes};

use std::marker::Model;

/// No value of it is made: proofs alone see it.
pub struct View {
    /// What the seat notes.
    pub ghost notes: { Notes } by { coded_notes },
    /// The slot that is not at home, between two steps of one call.
    pub ghost out: { Option ℕ },
}

impl Model for View {
    ghost also_owns = { λ _. ftrue };
}
