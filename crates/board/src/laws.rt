//! What holds between any two steps, whatever the threads do. Each law is the contract of a
//! function that does nothing.
ghost use Rattle.board.specs.BoardLaws.{TakenIsHeldByOne, HeldOnce, AllTogetherAreKept};
ghost use Rattle.board.specs.BoardLaws.{KnownHolds, SharesAddUp, FirstKnowsNothing};
ghost use Rattle.board.specs.BoardLaws.{TurnKeepsShards, LettingGoUndoesHolding};
ghost use Rattle.board.specs.BoardLaws.{TriesAreCounted, OtherStepsMoveNoCount};

use core_state::Job;

/// A turn word is taken only while one seat, and no other, holds that shard. So no two seats hold
/// one shard.
pub fn a_taken_turn_has_one_holder<J: Job>()
    ensures one { TakenIsHeldByOne J.map J.seeds }
    ensures once { HeldOnce J.map J.seeds }
{}

/// All shards together are a kept state: each that lies in its slot, and each that a seat holds,
/// with the value that it will give back. All that any seat knows holds of that state.
pub fn all_shards_together_are_kept<J: Job>()
    ensures kept { AllTogetherAreKept J.map J.seeds }
    ensures known { KnownHolds J.map J.seeds }
{}

/// The shares of all seats add up to one.
pub fn the_shares_of_all_seats_add_up<J: Job>()
    ensures { SharesAddUp J.map J.seeds }
{}

/// A seat of a new board holds nothing and knows nothing. A turn that was given back leaves what
/// the seat holds as it was. So does a shard that was held and let go.
pub fn a_call_moves_its_own_shard_alone<J: Job>()
    ensures first { FirstKnowsNothing J.map }
    ensures turn { TurnKeepsShards }
    ensures held { LettingGoUndoesHolding }
{}

/// What a seat's counts mean. A try that finds a turn free is won, and one that finds it taken
/// counts as lost for that shard. No other step moves either count. The last turn, and the states
/// that the seat has seen, are those that it gave back, and what waiters showed it.
pub fn what_a_seat_counts<J: Job>()
    ensures tries { TriesAreCounted J.map J.seeds }
    ensures others { OtherStepsMoveNoCount }
{}
