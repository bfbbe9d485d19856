//! The hands of a new pool, with the names of the seeds.

ghost use Rattle.std.specs.Prelude.{◌≡◌, ◌<◌, ℕ, [], vec_len, IfOk};
ghost use Rattle.steal_pool.specs.Pool.{AreFresh, AreAllHands, IsSameHand, workers_of};

use core_state::{Memory, Name, WorkKind};
use std::alloc::Global;
use steal_pool::{Hand, Hands, Pool};

/// All hands of a new pool, each with the names of its share of the seeds. The seeds rise. The
/// shares lie side by side and are of about the same size. So what a worker finds lies most often
/// in its own part of the code, and others seldom write the memory that it reads.
pub(crate) fn dealt(
    alloc: Global,
    pool: &Pool,
    hands: Hands,
    seeds: &[u64],
) -> Result<Vec<Hand>, Memory>
    requires fresh { AreFresh pool.now 0 hands }
    ensures { IfOk result (λ dealt. AreAllHands pool.now dealt.items) }
{
    let mut all = in_order(alloc, pool, hands)?;
    let mut rest = seeds;
    let workers = all.len();
    for number in 0..workers {
        let (share, behind) = rest.split_at(rest.len() / (workers - number));
        deal(&mut all[number], share);
        rest = behind;
    }
    Ok(all)
}

/// Puts the names of these seeds into the hand, the last one first. So each of many seeds on one
/// run of instructions finds its neighbour before it. A name that comes back is dropped, and its
/// work is found when all workers have ended.
fn deal(hand: &mut Hand, seeds: &[u64])
    ensures { IsSameHand hand.old hand.new }
{
    for seed in seeds.iter().rev() {
        let _ = hand.put(Name {
            kind: WorkKind::Want,
            key: *seed,
        });
    }
}

/// All hands of a new pool, by their numbers.
fn in_order(alloc: Global, pool: &Pool, hands: Hands) -> Result<Vec<Hand>, Memory>
    requires { AreFresh pool.now 0 hands }
    ensures { IfOk result (λ all. AreAllHands pool.now all.items) }
{
    let mut rest = hands;
    let mut all = Vec::with_capacity(alloc, pool.workers() as usize)?;
    while let Some(hand) = rest.next() {
        all.push(hand)?;
    }
    Ok(all)
}
