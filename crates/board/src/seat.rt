//! What one thread makes changes with.
ghost use Rattle.std.specs.Prelude.{◌≡◌};
ghost use Rattle.board.specs.Locks.Share.{IsAboveZero};
ghost use Rattle.core_state.specs.Place.{Remembers};
ghost use Rattle.board.specs.Seat.{HoldsNothing, Knows, with_half, newcomer, with_both};
ghost use Rattle.board.specs.Calls.{KnowsTruth};
ghost use Rattle.board.specs.Inner.Inside.{state_of, IsSettled};

use crate::rule::{Added, Halves};
use crate::table::Board;
use crate::turn::TableSeat;
use core_state::Job;
use std::marker::{Model, PhantomData};

/// The right to take turns on a board, for one thread. It is used with the [`Board`] that it came
/// from alone.
///
/// Contracts see that board, the seat's share of the whole, how often its tries won, and how often
/// they were lost at each shard. They also see which shards it holds, the turn that it gave back
/// last, and the parts of the state that it has seen. It knows the facts that one of these parts
/// shows.
#[derive(Drop)]
pub struct Seat<J: Job> {
    pub(crate) seat: TableSeat,
    job: PhantomData<J>,
}

impl<J: Job> Model for Seat<J> {
    ghost use Rattle.board.specs.Inner.Inside.{state_of, IsSettled};
    ghost use Rattle.board.specs.Seat.{SeatState, coded_seat_state};

    ghost Value = { SeatState };

    ghost coded = { coded_seat_state };

    ghost view = { λ s. state_of s.seat };

    ghost invariant = { λ s. IsSettled J.map J.seeds s.seat };
}

impl<J: Job> Seat<J> {
    pub(crate) fn of(seat: TableSeat) -> Seat<J>
        requires { IsSettled J.map J.seeds seat }
        ensures { result ≡ state_of seat }
    {
        Seat {
            seat,
            job: PhantomData,
        }
    }

    pub(crate) fn into_seat(self) -> TableSeat
        ensures state { state_of result ≡ self }
        ensures settled { IsSettled J.map J.seeds result }
    {
        let Seat { seat, job: _ } = self;
        seat
    }

    /// Splits a seat that holds nothing in two, for two threads. Each has half of its share and
    /// knows what it knew.
    pub fn split(self, board: &Board<J>) -> (Seat<J>, Seat<J>)
        requires own { self.board ≡ board.now }
        requires nothing { HoldsNothing self }
        ensures stays { result.0 ≡ record self { notes = with_half self.notes } }
        ensures goes { result.1 ≡ record self { notes = newcomer self.notes } }
        ensures above_zero { IsAboveZero self.share }
        ensures truth { KnowsTruth J.map J.seeds self }
    {
        let mut seat = self.into_seat();
        let other = board.table.shared.split_seat::<Halves>(&mut seat);
        (Seat::of(seat), Seat::of(other))
    }

    /// Makes one seat of two that hold nothing, with the share of both. It knows what both knew.
    pub fn join(self, board: &Board<J>, other: Seat<J>) -> Seat<J>
        requires own { self.board ≡ board.now }
        requires other_own { other.board ≡ board.now }
        requires nothing { HoldsNothing self }
        requires other_nothing { HoldsNothing other }
        ensures both { result ≡ record self { notes = with_both self.notes other.notes } }
        ensures remembers { Remembers (Knows J.map self) (Knows J.map result) }
        ensures other_remembers { Remembers (Knows J.map other) (Knows J.map result) }
        ensures truth { KnowsTruth J.map J.seeds result }
    {
        let mut seat = self.into_seat();
        board
            .table
            .shared
            .join_seat::<Added>(&mut seat, other.into_seat());
        Seat::of(seat)
    }
}
