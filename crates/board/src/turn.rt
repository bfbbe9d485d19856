//! One turn of a slot, step by step.
ghost use Rattle.std.specs.Prelude.{◌≡◌, ◌<◌, ◌∷◌, [], MatchBool, Some, None};
ghost use Rattle.cfg_model.specs.Program.Instructions.{IsLawful};
ghost use Rattle.board.specs.Slots.{slot_of, shard_at, shard_in};
ghost use Rattle.board.specs.Seat.{HasSlot};
ghost use Rattle.board.specs.Inner.Inside.{IsSettled, IsMade, IsShown, IsOut, IsInPlace};
ghost use Rattle.board.specs.Pieces.{part_in};
ghost use Rattle.board.specs.Plays.{Takes, Loses, values_at, giving, changed, learned};

use crate::piece::Piece;
use crate::rule::{Learn, Leave, Make, Reach, Return, Try};
use crate::table::Board;
use crate::view::View;
use core_state::{Job, ShardKind};

/// A seat of the table under the board.
pub(crate) type TableSeat = atomic_table::Seat<Option<Piece>, View>;

/// How many shards there are of each kind.
pub(crate) const SHARDS: usize = 64;

/// How many slots there are.
pub(crate) const SLOTS: usize = 3 * SHARDS;

/// Words from one turn word to the next, so that each slot has a cache line of its own.
const STRIDE: usize = 8;

/// Where the event word of the first slot lies: right after its turn word, in the same cache line.
/// A change steps on both, so it moves one line between processors.
const EVENTS: usize = STRIDE + 1;

/// How many words there are: eight in front and eight of each slot, so that nothing else lies in a
/// slot's cache line.
pub(crate) const WORDS: usize = STRIDE * (SLOTS + 1);

/// The slot of a shard.
pub(crate) fn slot_at(kind: ShardKind, shard: u32) -> usize
    requires { shard < 64 }
    ensures slot { result ≡ slot_of (shard_at kind shard) }
    ensures below { result < 192 }
    ensures place { shard_in result ≡ shard_at kind shard }
{
    let first = match kind {
        ShardKind::Starts => 0,
        ShardKind::Ends => SHARDS,
        ShardKind::Terms => 2 * SHARDS,
    };
    first + shard as usize
}

/// One try of the turn of a slot. Whether it won: then the shard is out.
pub(crate) fn take<J: Job>(board: &Board<J>, seat: &mut TableSeat, slot: usize) -> bool
    requires own { seat.old.table_id ≡ board.now }
    requires settled { IsSettled J.map J.seeds seat.old }
    requires slot { slot < 192 }
    requires free { ¬ HasSlot seat.old.me.0.notes slot }
    ensures own { seat.new.table_id ≡ seat.old.table_id }
    ensures lawful { IsLawful J.map }
    ensures tried { MatchBool result (Takes J.map J.seeds slot seat.old.me seat.new.me)
        (Loses slot seat.old.me seat.new.me) }
{
    let word = STRIDE * slot + STRIDE;
    board
        .table
        .shared
        .compare_exchange::<Try<J>>(seat, word, 0, 1)
        == 0
}

/// Makes the event by which the value in the slot is the step of the one that the seat noted.
pub(crate) fn note<J: Job>(board: &Board<J>, seat: &mut TableSeat, slot: usize)
    requires own { seat.old.table_id ≡ board.now }
    requires slot { slot < 192 }
    requires made { IsMade J.map J.seeds slot seat.old.me }
    ensures own { seat.new.table_id ≡ seat.old.table_id }
    ensures made { (piece : Piece) → seat.old.me.1 ≡ (slot, Some piece) ∷ []
        → seat.new.me ≡ (changed seat.old.me.0 slot (part_in piece), seat.old.me.1) }
{
    let word = STRIDE * slot + EVENTS;
    board.table.shared.fetch_add::<Make>(seat, word, 1);
}

/// Shows the seat that the terminator at `at` is entered, since a waiter in the slot is that one.
pub(crate) fn learn<J: Job>(board: &Board<J>, seat: &mut TableSeat, slot: usize, at: u64)
    requires own { seat.old.table_id ≡ board.now }
    requires slot { slot < 192 }
    requires shown { IsShown slot at seat.old.me }
    ensures own { seat.new.table_id ≡ seat.old.table_id }
    ensures learned { seat.new.me ≡ learned at seat.old.me }
{
    let word = STRIDE * slot + STRIDE;
    board
        .table
        .shared
        .compare_exchange::<Learn>(seat, word, at, at);
}

/// Gives the slot back, with its value and its turn.
pub(crate) fn give<J: Job>(board: &Board<J>, seat: &mut TableSeat, slot: usize)
    requires own { seat.old.table_id ≡ board.now }
    requires slot { slot < 192 }
    requires out { IsOut slot seat.old.me }
    ensures own { seat.new.table_id ≡ seat.old.table_id }
    ensures given { seat.new.me
        ≡ (
          record {
            notes = giving seat.old.me.0.notes slot (values_at seat.old.me.0.notes slot);
            out = None;
          },
          [],
        ) }
{
    let word = STRIDE * slot + STRIDE;
    board.table.shared.store::<Return>(seat, word, 0);
}

/// Takes the value out of the slot, which lies at home then, empty.
pub(crate) fn lift<J: Job>(board: &Board<J>, seat: &mut TableSeat, slot: usize) -> Piece
    requires own { seat.old.table_id ≡ board.now }
    requires slot { slot < 192 }
    requires out { IsOut slot seat.old.me }
    ensures own { seat.new.table_id ≡ seat.old.table_id }
    ensures value { seat.old.me.1 ≡ (slot, Some result) ∷ [] }
    ensures left { seat.new.me ≡ (record seat.old.me.0 { out = None }, []) }
{
    let shared = &board.table.shared;
    let word = STRIDE * slot + STRIDE;
    let piece = shared.exchange(seat, slot, None).unwrap();
    shared.load::<Leave>(seat, word);
    piece
}

/// Puts the value into the slot again, which is out then.
pub(crate) fn lay<J: Job>(board: &Board<J>, seat: &mut TableSeat, slot: usize, piece: Piece)
    requires own { seat.old.table_id ≡ board.now }
    requires slot { slot < 192 }
    requires place { IsInPlace slot seat.old.me }
    ensures own { seat.new.table_id ≡ seat.old.table_id }
    ensures laid { seat.new.me
        ≡ (record seat.old.me.0 { out = Some slot }, (slot, Some piece) ∷ []) }
{
    let shared = &board.table.shared;
    let word = STRIDE * slot + STRIDE;
    shared.load::<Reach>(seat, word);
    let empty = shared.exchange(seat, slot, Some(piece));
    let None = empty else { unreachable!() };
}
