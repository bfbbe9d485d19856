//! Holding a shard for a while.
ghost use Rattle.std.specs.Prelude.{◌≡◌, ◌↔◌, ◌<◌, Some, IfOk, IfErr};
ghost use Rattle.board.specs.Locks.Share.{IsWhole};
ghost use Rattle.board.specs.Slots.{shard_at, slot_of};
ghost use Rattle.board.specs.Seat.{HoldsShard, lost_of, with_shard, without_shard};
ghost use Rattle.board.specs.Calls.{AnswersBusy, IsBusyShard, IsHeldBy, IsPartOfKept, KnowsTruth};

use crate::piece::Piece;
use crate::seat::Seat;
use crate::table::Board;
use crate::turn::{give, lay, lift, slot_at, take};
use core_state::{Job, PlaceEnd, ShardKind};
use std::marker::{Model, PhantomData};

/// One shard, out with the seat that took it. It must be given back, so it has no `Drop`. Contracts
/// see which shard it is, and its value, which stays.
pub struct Held<J: Job> {
    kind: ShardKind,
    shard: u32,
    piece: Piece,
    job: PhantomData<J>,
}

impl<J: Job> Model for Held<J> {
    ghost use Rattle.board.specs.Calls.{HeldShard, coded_held};
    ghost use Rattle.board.specs.Pieces.{part_in};
    ghost use Rattle.board.specs.Inner.Inside.{IsHeldPiece};
    ghost use Rattle.board.specs.Slots.{shard_at};

    ghost Value = { HeldShard };

    ghost coded = { coded_held };

    ghost view = { λ h. record { shard = shard_at h.kind h.shard; value = part_in h.piece } };

    ghost invariant = { λ h. IsHeldPiece J.map J.seeds (shard_at h.kind h.shard) h.shard h.piece };
}

impl<J: Job> Seat<J> {
    /// One try of the turn of a shard, which this seat does not hold. `Ok` gives the shard, which
    /// has to be let go of; `Busy` if its turn was taken. No other refusal comes.
    pub fn hold(
        &mut self,
        board: &Board<J>,
        kind: ShardKind,
        shard: u32,
    ) -> Result<Held<J>, PlaceEnd>
        requires own { self.old.board ≡ board.now }
        requires shard { shard < 64 }
        requires free { ¬ HoldsShard self.old (shard_at kind shard) }
        ensures shard { IfOk result (λ held. held.shard ≡ shard_at kind shard) }
        ensures won { IfOk result (λ held. self.new ≡ with_shard self.old held.shard held.value) }
        ensures held { IfOk result (λ held. IsHeldBy self.new held) }
        ensures part { IfOk result (IsPartOfKept J.map J.seeds self.old) }
        ensures busy { IfErr result (IsBusyShard kind shard self.old self.new) }
        ensures lost { AnswersBusy result
            ↔ (lost_of self.old (shard_at kind shard) < lost_of self.new (shard_at kind shard)) }
        ensures only_seat { IsWhole self.old.share → ¬ AnswersBusy result }
        ensures truth { KnowsTruth J.map J.seeds self.new }
    {
        let slot = slot_at(kind, shard);
        if !take(board, &mut self.seat, slot) {
            return Err(PlaceEnd::Busy { kind, shard });
        }
        let piece = lift(board, &mut self.seat, slot);
        Ok(Held {
            kind,
            shard,
            piece,
            job: PhantomData,
        })
    }

    /// Gives a shard back that this seat holds, as it was. It cannot be refused.
    pub fn let_go(&mut self, board: &Board<J>, held: Held<J>)
        requires own { self.old.board ≡ board.now }
        requires held { IsHeldBy self.old held }
        ensures given { self.new ≡ without_shard self.old held.shard held.value }
        ensures truth { KnowsTruth J.map J.seeds self.new }
    {
        let Held {
            kind,
            shard,
            piece,
            job: _,
        } = held;
        let slot = slot_at(kind, shard);
        lay(board, &mut self.seat, slot, piece);
        give(board, &mut self.seat, slot);
    }
}
