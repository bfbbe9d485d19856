//! Workers side by side.

ghost use Rattle.std.specs.Prelude.{◌≡◌, ◌<◌, IfOk, vec_len};
ghost use Rattle.std.specs.Thread.{IsSend, IsSync};
ghost use Rattle.crew.specs.inner.Team.{IsJob, IsFree, IsBack, AreBack, AreOf};

use crate::gate::Gate;
use crate::shared::Shared;
use crate::working::employ;
use board::Seat;
use cfg_model::Chains;
use core_state::{Job, Memory};
use std::alloc::Global;
use std::marker::{Send, Sync};
use std::sync::Wait;
use std::thread::{Threads, join};
use steal_pool::Hand;

/// The seat and the hands that workers give back.
pub(crate) type Back<J> = (Seat<J>, Vec<Hand>);

/// Lets a worker work for each of these hands, in a thread of its own, the first with this number.
/// The caller's thread starts all others and is the last worker itself, since what a thread starts
/// that was just started begins late at times. The seat is split for them, and joined as it was
/// split. [`Memory`] if memory ran out: then the seat and the hands are gone.
pub(crate) fn employ_all<J: Job + Send + Sync, R: Threads + Wait + Sync, C: Chains, G: Gate>(
    alloc: Global,
    shared: &Shared<J, R, C, G>,
    seat: Seat<J>,
    hands: Vec<Hand>,
    first: u32,
) -> Result<Back<J>, Memory>
    requires job { IsJob J.map J.seeds (C.map shared.now.code.now) shared.now.seeds.now }
    requires seat { IsFree shared.now.board.now seat }
    requires hands { AreOf shared.now.pool.now first hands.items }
    ensures seat { IfOk result (λ back. IsBack seat back.0) }
    ensures hands { IfOk result (λ back. AreBack hands.items back.1.items) }
{
    let mut low = hands;
    if low.len() < 2 {
        return employ_one(alloc, shared, seat, low, first);
    }
    let high = low.split_off(1)?;
    let next = first + 1;
    let (left, right) = seat.split(shared.board);
    let (left, right) = join(
        shared.rt,
        move || -> Result<Back<J>, Memory>
            requires { IsSync R.row × IsSync C.row × IsSync G.row × IsSend J.row × IsSync J.row
                × IsJob J.map J.seeds (C.map shared.now.code.now) shared.now.seeds.now
                × IsFree shared.now.board.now left × AreOf shared.now.pool.now first low.items }
            ensures { IfOk result (λ back. IsBack left back.0 × AreBack low.items back.1.items) }
        { employ_all(alloc, shared, left, low, first) },
        move || -> Result<Back<J>, Memory>
            requires { IsSync R.row × IsSync C.row × IsSync G.row × IsSend J.row × IsSync J.row
                × IsJob J.map J.seeds (C.map shared.now.code.now) shared.now.seeds.now
                × IsFree shared.now.board.now right × AreOf shared.now.pool.now next high.items }
            ensures { IfOk result (λ back. IsBack right back.0 × AreBack high.items back.1.items) }
        { employ_all(alloc, shared, right, high, next) },
    );
    let (left, mut low) = left?;
    let (right, mut high) = right?;
    low.append(&mut high)?;
    Ok((left.join(shared.board, right), low))
}

/// The same for one hand at most, in this thread.
fn employ_one<J: Job, R: Wait, C: Chains, G: Gate>(
    alloc: Global,
    shared: &Shared<J, R, C, G>,
    seat: Seat<J>,
    hands: Vec<Hand>,
    number: u32,
) -> Result<Back<J>, Memory>
    requires few { vec_len hands < 2 }
    requires job { IsJob J.map J.seeds (C.map shared.now.code.now) shared.now.seeds.now }
    requires seat { IsFree shared.now.board.now seat }
    requires hands { AreOf shared.now.pool.now number hands.items }
    ensures seat { IfOk result (λ back. IsBack seat back.0) }
    ensures hands { IfOk result (λ back. AreBack hands.items back.1.items) }
{
    let mut hands = hands;
    let Some(hand) = hands.pop() else {
        return Ok((seat, hands));
    };
    let (seat, hand) = employ(alloc, shared, seat, hand, number);
    hands.push(hand)?;
    Ok((seat, hands))
}
