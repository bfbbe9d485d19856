//! Waiters of one terminator, few and many: each is told once, in their order.

ghost use Rattle.std.specs.Prelude.{◌<◌};
ghost use Rattle.builder_model.specs.State.{IsEntered};

use crate::asserts::same;
use builder_model::{WaitKind, Waiter};
use core_state::Terms;
use std::alloc::Global;
use std::process::Abort;
use std::test::Fail;

/// The terminator at which all of them wait.
const CALLEE: u64 = 0x10000;

/// The waiter at this place of their order, two of each terminator.
fn waiter_at(place: u64) -> Waiter {
    Waiter {
        terminator: place / 2,
        kind: if place % 2 == 0 {
            WaitKind::Follow
        } else {
            WaitKind::Release
        },
    }
}

/// Asserts that the terminator `k` is entered.
fn assert_entered(rt: &impl Abort, terms: &Terms, k: u64)
    ensures { IsEntered terms.now k }
{
    let done = terms.done(k);
    assert!(rt; done.is_some());
}

/// A shard with the terminator alone.
fn entered(rt: &impl Abort, alloc: Global) -> Result<Terms, Fail> {
    let mut terms = Terms::empty(alloc);
    same(rt, &terms.term(CALLEE)?, &true);
    Ok(terms)
}

/// The terminator is noted to return.
fn returns(rt: &impl Abort, terms: &mut Terms) {
    assert_entered(rt, terms, CALLEE);
    same(rt, &terms.returned(CALLEE), &true);
}

/// All of them wait, in another order than theirs: every seventh in turn.
fn wait_all(rt: &impl Abort, terms: &mut Terms, count: u8) -> Result<(), Fail> {
    for i in 0..count {
        let waiter = waiter_at(u64::from(i) * 7 % u64::from(count));
        assert_entered(rt, terms, CALLEE);
        same(rt, &terms.wait(CALLEE, waiter)?, &true);
        assert_entered(rt, terms, CALLEE);
        same(rt, &terms.place_waiter(CALLEE, waiter)?, &false);
    }
    Ok(())
}

/// All of them are told.
fn tell_all(rt: &impl Abort, terms: &mut Terms, count: u8) {
    for place in 0..u64::from(count) {
        let next = terms.untold(CALLEE);
        same(rt, &next, &Some(waiter_at(place)));
        assert_entered(rt, terms, CALLEE);
        let left = terms.mark_told(CALLEE, waiter_at(place));
        same(rt, &left, &(place + 1 < u64::from(count)));
    }
    same(rt, &terms.untold(CALLEE), &None);
}

/// None, in place, in a row and in a crowd.
#[test]
fn told_in_order(rt: HostRuntime) -> Result<(), Fail> {
    for count in [0, 1, 2, 3, 26, 100] {
        let mut terms = entered(&rt, rt.alloc())?;
        wait_all(&rt, &mut terms, count)?;
        same(&rt, &terms.untold(CALLEE), &None);
        returns(&rt, &mut terms);
        tell_all(&rt, &mut terms, count);
    }
    Ok(())
}

/// In which order waiters come, and in which they are told.
#[derive(Clone, Copy)]
enum Turns {
    Rising,
    Falling,
    /// Every seventh in turn.
    Mixed,
}

impl Turns {
    /// The place, in the order of this many waiters, of the one whose turn it is.
    fn place(self, turn: u8, count: u8) -> u64
        requires { turn < count }
    {
        match self {
            Turns::Rising => u64::from(turn),
            Turns::Falling => u64::from(count - 1 - turn),
            Turns::Mixed => u64::from(turn) * 7 % u64::from(count),
        }
    }
}

/// The first untold one of a plain list of places, each with whether its waiter was told.
fn first_untold(plain: &[(u64, bool)]) -> Option<Waiter> {
    let mut first = None;
    for (place, told) in plain {
        let lower = match first {
            Some(other) => *place < other,
            None => true,
        };
        if !*told && lower {
            first = Some(*place);
        }
    }
    Some(waiter_at(first?))
}

/// Notes in a plain list that the waiter at this place was told.
fn mark(plain: &mut [(u64, bool)], place: u64) {
    for pair in plain.iter_mut() {
        if pair.0 == place {
            pair.1 = true;
        }
    }
}

/// The waiter at this place comes; then once more, which changes nothing.
fn comes(
    rt: &impl Abort,
    terms: &mut Terms,
    plain: &mut Vec<(u64, bool)>,
    place: u64,
) -> Result<(), Fail> {
    assert_entered(rt, terms, CALLEE);
    same(rt, &terms.wait(CALLEE, waiter_at(place))?, &true);
    plain.push((place, false))?;
    assert_entered(rt, terms, CALLEE);
    same(rt, &terms.place_waiter(CALLEE, waiter_at(place))?, &false);
    same(rt, &terms.untold(CALLEE), &first_untold(plain.as_slice()));
    Ok(())
}

/// The waiter at this place is told, if it has come.
fn is_told(rt: &impl Abort, terms: &mut Terms, plain: &mut [(u64, bool)], place: u64) {
    assert_entered(rt, terms, CALLEE);
    let left = terms.mark_told(CALLEE, waiter_at(place));
    mark(plain, place);
    let first = first_untold(plain);
    same(rt, &left, &first.is_some());
    same(rt, &terms.untold(CALLEE), &first);
}

/// Waiters come in one order, and are told in another. Every third is told at once.
fn come_and_are_told(
    rt: &impl Abort,
    alloc: Global,
    count: u8,
    coming: Turns,
    telling: Turns,
) -> Result<(), Fail> {
    let mut terms = entered(rt, alloc)?;
    let mut plain = Vec::new(alloc);
    returns(rt, &mut terms);
    for turn in 0..count {
        let place = coming.place(turn, count);
        is_told(rt, &mut terms, plain.as_mut_slice(), place);
        comes(rt, &mut terms, &mut plain, place)?;
        if turn % 3 == 0 {
            is_told(rt, &mut terms, plain.as_mut_slice(), place);
        }
    }
    for turn in 0..count {
        is_told(
            rt,
            &mut terms,
            plain.as_mut_slice(),
            telling.place(turn, count),
        );
    }
    same(rt, &terms.untold(CALLEE), &None);
    Ok(())
}

/// A row, and a row with a small crowd, in all orders.
#[test]
fn few_in_any_order(rt: HostRuntime) -> Result<(), Fail> {
    for count in [3, 4, 5, 9, 16, 23, 24, 25, 26, 30] {
        for coming in [Turns::Rising, Turns::Falling, Turns::Mixed] {
            for telling in [Turns::Rising, Turns::Falling, Turns::Mixed] {
                come_and_are_told(&rt, rt.alloc(), count, coming, telling)?;
            }
        }
    }
    Ok(())
}
