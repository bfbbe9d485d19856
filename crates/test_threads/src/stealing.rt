//! Row 25 of the worked examples, rounds over deques that are made for the test, and threads that
//! put and take side by side.

ghost use Rattle.std.specs.Prelude.{◌≡◌, ◌<◌, IfOk, IfSome};
ghost use Rattle.steal_pool.specs.Pool.{workers_of, IsHandOf, IsSameHand};

use crate::asserts::{holds, holds_at, same};
use core_state::{Name, WorkKind};
use std::alloc::Global;
use std::process::Abort;
use std::sync::Wait;
use std::test::Fail;
use std::thread::{Threads, join};
use steal_pool::{Deques, Hand, Memory, Names, Pool, Round, Tried, first_of};

/// How many names each thread puts.
const PUTS: u64 = 300;

fn parse(key: u64) -> Name {
    Name {
        kind: WorkKind::Parse,
        key,
    }
}

/// A pool of two, and its hands.
#[tactic(auto, using(crate::proofs::TestHands::two_hands))]
fn two(alloc: Global) -> Result<Option<(Pool, Hand, Hand)>, Memory>
    ensures workers { IfOk result (λ found. IfSome found (λ r. workers_of r.0 ≡ 2)) }
    ensures hands { IfOk result (λ found. IfSome found (λ r. IsHandOf r.0 r.1 × IsHandOf r.0 r.2)) }
    ensures numbers { IfOk result
        (λ found. IfSome found (λ r. (r.1.number ≡ 0) × (r.2.number ≡ 1))) }
{
    let (pool, mut hands) = Pool::new(alloc, 2)?;
    let Some(zero) = hands.next() else {
        return Ok(None);
    };
    let Some(one) = hands.next() else {
        return Ok(None);
    };
    Ok(Some((pool, zero, one)))
}

/// What is left once both hands are given back.
#[tactic(auto, using(crate::proofs::TestHands::both_hands))]
fn left_of_two(alloc: Global, pool: Pool, zero: Hand, one: Hand) -> Result<Names, Memory>
    requires workers { workers_of pool ≡ 2 }
    requires hands { IsHandOf pool zero × IsHandOf pool one }
    requires numbers { (zero.number ≡ 0) × (one.number ≡ 1) }
{
    pool.gather(alloc, Vec::from_array(alloc, [zero, one])?)
}

/// The keys that are named; each may be named once.
fn marked(rt: &impl Abort, marks: &mut Vec<bool>, keys: &[u64]) {
    for key in keys {
        let at = *key as usize;
        assert!(rt; at < marks.len(), "no such name was put: {at}");
        holds_at(rt, &at, !marks[at]);
        marks[at] = true;
    }
}

/// Puts names with keys from `first` on, takes one after every third, and then takes some more.
/// Answers the keys of those taken.
fn work<R: Wait>(rt: &R, pool: &Pool, hand: Hand, keys: Vec<u64>, first: u64) -> (Hand, Vec<u64>)
    requires { IsHandOf pool.now hand }
    ensures { IsSameHand hand result.0 }
{
    let mut hand = hand;
    let mut keys = keys;
    for k in 0..PUTS {
        let _ = hand.put(parse(first.wrapping_add(k)));
        if k % 3 == 0 {
            if let Some(name) = hand.take(rt, pool) {
                let _ = keys.push(name.key);
            }
        }
    }
    for _ in 0..PUTS / 4 {
        if let Some(name) = hand.take(rt, pool) {
            let _ = keys.push(name.key);
        }
    }
    (hand, keys)
}

/// Two hands at work in two threads.
fn both<R: Threads + Wait + Sync>(
    rt: &R,
    pool: &Pool,
    zero: (Hand, Vec<u64>),
    one: (Hand, Vec<u64>),
) -> ((Hand, Vec<u64>), (Hand, Vec<u64>))
    requires { IsHandOf pool.now zero.0 × IsHandOf pool.now one.0 }
    ensures { IsSameHand zero.0 result.0.0 × IsSameHand one.0 result.1.0 }
{
    let (zero, zero_keys) = zero;
    let (one, one_keys) = one;
    join(
        rt,
        move || -> (Hand, Vec<u64>)
            requires { IsHandOf pool.now zero }
            ensures { IsSameHand zero result.0 }
        { work(rt, pool, zero, zero_keys, 0) },
        move || -> (Hand, Vec<u64>)
            requires { IsHandOf pool.now one }
            ensures { IsSameHand one result.0 }
        { work(rt, pool, one, one_keys, PUTS) },
    )
}

/// Three deques with answers that are fixed beforehand. A try that would get a second name is
/// beaten.
#[derive(Drop)]
struct Script {
    answers: [Tried; 3],
    misses: u64,
    got: Option<Name>,
}

impl Deques for Script {
    ghost use Rattle.std.specs.Prelude.{⊤};
    ghost use Rattle.std.specs.Option.{option_to_list};

    ghost size = { λ _. 3 };

    ghost empties = { λ s _. s.misses };

    ghost beaten = { λ s _. s.misses };

    ghost got = { λ s. option_to_list s.got };

    ghost try_made = { λ _ _ _ _. ⊤ };

    fn try_end(&mut self, i: u32) -> Tried {
        match (self.answers[i as usize], self.got) {
            (Tried::Got { name }, None) => {
                self.got = Some(name);
                Tried::Got { name }
            }
            (Tried::Empty, _) => {
                self.misses = self.misses.saturating_add(1);
                Tried::Empty
            }
            _ => {
                self.misses = self.misses.saturating_add(1);
                Tried::Beaten
            }
        }
    }
}

/// What a round over these three answers from number `own` on.
fn round_over(answers: [Tried; 3], own: u32) -> Round
    requires { own < 3 }
{
    let mut script = Script {
        answers,
        misses: 0,
        got: None,
    };
    first_of(&mut script, own, 3)
}

#[test]
fn rounds(rt: HostRuntime) -> Result<(), Fail> {
    let five = Tried::Got { name: parse(5) };
    let six = Tried::Got { name: parse(6) };
    let (beaten, empty) = (Tried::Beaten, Tried::Empty);
    same(
        &rt,
        &round_over([empty, five, six], 0),
        &Round::Got { name: parse(5) },
    );
    same(
        &rt,
        &round_over([empty, five, six], 2),
        &Round::Got { name: parse(6) },
    );
    same(
        &rt,
        &round_over([five, empty, beaten], 1),
        &Round::Got { name: parse(5) },
    );
    same(&rt, &round_over([empty, beaten, empty], 1), &Round::Again);
    same(&rt, &round_over([empty, empty, empty], 1), &Round::Dry);
    Ok(())
}

/// Puts names with these keys.
fn put_all<R: Abort>(rt: &R, hand: &mut Hand, keys: &[u64])
    ensures { IsSameHand hand.old hand.new }
{
    for key in keys {
        same(rt, &hand.put(parse(*key)), &Ok(()));
    }
}

/// Hand 0 puts three names. Hand 1 takes the first of them, in a thread of its own, and then hand 0
/// the second.
fn taken_in_turn<R: Threads + Wait + Abort + Sync>(
    rt: &R,
    pool: &Pool,
    zero: Hand,
    one: Hand,
) -> (Hand, Hand)
    requires { IsHandOf pool.now zero × IsHandOf pool.now one }
    ensures { IsSameHand zero result.0 × IsSameHand one result.1 }
{
    let mut zero = zero;
    same(rt, &zero.take(rt, pool), &None);
    put_all(rt, &mut zero, &[1, 2, 3]);
    let (one, taken) = first_there(rt, pool, one);
    same(rt, &taken, &Some(parse(1)));
    same(rt, &zero.take(rt, pool), &Some(parse(2)));
    (zero, one)
}

/// Row 25, where hand 1 takes in a thread of its own.
#[test]
fn row_25(rt: HostRuntime) -> Result<(), Fail> {
    let Ok(Some((pool, zero, one))) = two(rt.alloc()) else {
        panic!(rt; "no pool");
    };
    let (zero, one) = taken_in_turn(&rt, &pool, zero, one);
    let Ok(left) = left_of_two(rt.alloc(), pool, zero, one) else {
        panic!(rt; "no memory");
    };
    same(&rt, &left.as_slice(), &[parse(3)].as_slice());
    Ok(())
}

/// What a hand takes first, in another thread.
fn first_there<R: Threads + Wait + Sync>(rt: &R, pool: &Pool, hand: Hand) -> (Hand, Option<Name>)
    requires { IsHandOf pool.now hand }
    ensures { IsSameHand hand result.0 }
{
    let (there, ()) = join(
        rt,
        move || -> (Hand, Option<Name>)
            requires { IsHandOf pool.now hand }
            ensures { IsSameHand hand result.0 }
        { first_of_pool(rt, pool, hand) },
        || (),
    );
    there
}

fn first_of_pool<R: Wait>(rt: &R, pool: &Pool, hand: Hand) -> (Hand, Option<Name>)
    requires { IsHandOf pool.now hand }
    ensures { IsSameHand hand result.0 }
{
    let mut hand = hand;
    let name = hand.take(rt, pool);
    (hand, name)
}

/// Two threads put and take hundreds of names, and each name is taken or left, once.
#[test]
fn all_are_accounted_for(rt: HostRuntime) -> Result<(), Fail> {
    let Ok(Some((pool, zero, one))) = two(rt.alloc()) else {
        panic!(rt; "no pool");
    };
    let a = Vec::with_capacity(rt.alloc(), 2 * PUTS as usize)?;
    let b = Vec::with_capacity(rt.alloc(), 2 * PUTS as usize)?;
    let ((zero, a), (one, b)) = both(&rt, &pool, (zero, a), (one, b));
    let Ok(left) = left_of_two(rt.alloc(), pool, zero, one) else {
        panic!(rt; "no memory");
    };
    let mut marks = Vec::from_elem(rt.alloc(), false, 2 * PUTS as usize)?;
    marked(&rt, &mut marks, a.as_slice());
    marked(&rt, &mut marks, b.as_slice());
    for name in left.as_slice() {
        marked(&rt, &mut marks, &[name.key]);
    }
    for mark in marks.as_slice() {
        holds(&rt, *mark);
    }
    Ok(())
}
