//! Where a worker makes its changes.

ghost use Rattle.std.specs.Prelude.{◌≡◌};
ghost use Rattle.crew.specs.inner.Worker.{IsSeatAt};

use crate::cache::Cache;
use crate::worker_ids::WorkerIds;
use board::{Board, Seat};
use core_state::Job;
use std::alloc::Global;
use std::marker::{Model, PhantomData};

/// A seat of the board of these ids, and what is kept in mind of what it knows.
///
/// Contracts see the seat. That it is the one of the ids, and knows what is kept in mind, holds of
/// every desk, so it holds after every operation.
#[derive(Drop)]
pub(crate) struct Desk<'a, J: Job, S: WorkerIds> {
    /// The board.
    pub(crate) board: &'a Board<J>,
    /// The seat.
    pub(crate) seat: Seat<J>,
    /// What is kept in mind.
    pub(crate) cache: Cache,
    ids: PhantomData<S>,
}

impl<'a, J: Job, S: WorkerIds> Model for Desk<'a, J, S> {
    ghost use Rattle.std.specs.Prelude.{◌≡◌};
    ghost use Rattle.board.specs.Seat.{SeatState, coded_seat_state};
    ghost use Rattle.crew.specs.inner.Worker.{IsSeatAt};
    ghost use Rattle.crew.specs.inner.Known.{AreCached};

    ghost Value = { SeatState };

    ghost coded = { coded_seat_state };

    ghost view = { λ d. d.seat };

    ghost invariant = { λ d. (d.board.now ≡ S.board) × IsSeatAt S.board S.share d.seat
        × AreCached J.map J.seeds d.cache d.seat };
}

impl<'a, J: Job, S: WorkerIds> Desk<'a, J, S> {
    /// A desk with this seat, at which nothing is kept in mind yet.
    pub(crate) fn new(alloc: Global, board: &'a Board<J>, seat: Seat<J>) -> Self
        requires board { board.now ≡ S.board }
        requires seat { IsSeatAt S.board S.share seat }
        ensures { result ≡ seat }
    {
        Desk {
            board,
            seat,
            cache: Cache::new(alloc),
            ids: PhantomData,
        }
    }

    /// The seat.
    pub(crate) fn into_seat(self) -> Seat<J>
        ensures { IsSeatAt S.board S.share result }
    {
        self.seat
    }
}
