//! A pool of deques, one for each worker: how it is made, and how it ends.

ghost use Rattle.std.specs.Prelude.{◌≡◌, ℕ, ◌+◌, ◌<◌, ◌≤◌, List, [], ◌∷◌, ◌++◌, map, length};
ghost use Rattle.std.specs.Prelude.{reverse, cond, flat_map, IfOk, OnOk, MatchOption};
ghost use Rattle.crossbeam_deque.specs.Handles.{worker_deque, worker_flavor, worker_view};
ghost use Rattle.crossbeam_deque.specs.Handles.{stealer_deque};
ghost use Rattle.steal_pool.specs.Often.{EachAsOften};
ghost use Rattle.steal_pool.specs.Pool.{workers_of, AreFresh, AreAllHands, IsLeftInOrder};
ghost use Rattle.steal_pool.specs.Rule.{note, HasAll};
ghost use Rattle.steal_pool.specs.inner.Ends.{deque_of, note_of, IsWired};
ghost use Rattle.steal_pool.specs.inner.Building.{whole_of, IsNew, AreOwners, AreEnds, AreRows};
ghost use Rattle.steal_pool.specs.inner.Building.{AreApart, AreJoined, AreDrained, IsDrained, Each};

use crate::Memory;
use crate::end::{End, Owner, Row, Thief};
use crate::hand::Hand;
use crate::names::Names;
use crate::note::{Gathered, Part, Spare, Takes};
use core_state::Name;
use std::alloc::Global;
use std::marker::Model;

/// The room that each deque has at the start. It grows as names are put.
const FIRST_ROOM: usize = 64;

/// The deques of some workers. Any number of threads may share it.
#[derive(Drop)]
pub struct Pool {
    thieves: Vec<Thief>,
}

impl Model for Pool {
    ghost use Rattle.std.specs.Prelude.{map, length, ◌≤◌};
    ghost use Rattle.crossbeam_deque.specs.Handles.{stealer_deque};
    ghost use Rattle.steal_pool.specs.Pool.{PoolValue};

    ghost Value = { PoolValue };

    ghost view = { λ p. record { deques = map stealer_deque p.thieves.items } };

    ghost invariant = { λ p. length p.thieves.items ≤ 64 };
}

/// The hands of a pool that are still to be given out. Contracts see them as a list.
#[derive(Drop)]
pub struct Hands {
    // The last one is given out next.
    rest: Vec<Hand>,
}

impl Model for Hands {
    ghost use Rattle.std.specs.Prelude.{List, reverse};
    ghost use Rattle.steal_pool.specs.Pool.{HandValue};

    ghost Value = { List HandValue };

    ghost view = { λ h. reverse h.rest.items };
}

impl Hands {
    /// The next hand: number 0 first, and so on.
    pub fn next(&mut self) -> Option<Hand>
        ensures { MatchOption result ((self.old ≡ []) × (self.new ≡ []))
            (λ hand. self.old ≡ hand ∷ self.new) }
    {
        self.rest.pop()
    }
}

impl Pool {
    /// A pool for `workers` workers, and a hand for each. [`Memory`] if memory ran out.
    pub fn new(alloc: Global, workers: u32) -> Result<(Pool, Hands), Memory>
        requires some { 0 < workers }
        requires few { workers ≤ 64 }
        ensures workers { IfOk result (λ made. workers_of made.0 ≡ workers) }
        ensures hands { IfOk result (λ made. AreFresh made.0 0 made.1) }
    {
        let mut owners = owners_of(alloc, workers as usize)?;
        let thieves = thieves_of(alloc, &owners)?;
        let rows = rows_of(alloc, &mut owners)?;
        let rest = hands_of(alloc, owners, rows)?;
        Ok((Pool { thieves }, Hands { rest }))
    }

    /// How many workers there are.
    pub fn workers(&self) -> u32
        ensures { result ≡ workers_of self.now }
    {
        self.thieves.len() as u32
    }

    /// Ends the pool, and gives the names that are left in its deques. [`Memory`] if memory ran
    /// out, and then the names are gone.
    /// Time: O(names + workers²).
    pub fn gather(self, alloc: Global, hands: Vec<Hand>) -> Result<Names, Memory>
        requires hands { AreAllHands self hands.items }
        ensures as_often { IfOk result
            (λ left. EachAsOften (flat_map (λ hand. hand.put) hands.items)
            (flat_map (λ hand. hand.taken) hands.items ++ left)) }
        ensures order { IfOk result (λ left. IsLeftInOrder hands.items left) }
    {
        let parts = apart(alloc, hands)?;
        let (mut owners, mut rows) = parts;
        while let Some(row) = rows.pop() {
            absorb_all(&mut owners, row);
        }
        let left = drain_all(alloc, owners)?;
        Ok(Names::from_vec(left))
    }
}

/// Owners of new deques.
fn owners_of(alloc: Global, count: usize) -> Result<Vec<Owner>, Memory>
    ensures length { IfOk result (λ owners. length owners.items ≡ count) }
    ensures new { IfOk result (λ owners. AreOwners 0 owners.items) }
{
    let mut owners = Vec::with_capacity(alloc, count)?;
    for _ in 0..count {
        owners.push(Owner::fifo_as(alloc, FIRST_ROOM)?)?;
    }
    Ok(owners)
}

/// The other side of each deque.
fn thieves_of(alloc: Global, owners: &Vec<Owner>) -> Result<Vec<Thief>, Memory>
    ensures { IfOk result
        (λ thieves. map stealer_deque thieves.items ≡ map worker_deque owners.now.items) }
{
    let mut thieves = Vec::with_capacity(alloc, owners.len())?;
    for k in 0..owners.len() {
        thieves.push(owners[k].stealer()?)?;
    }
    Ok(thieves)
}

/// One more end of a deque: a spare one for its owner's hand, or one for a hand that steals there.
fn end_of(own: &mut Owner, spare: bool) -> Result<End, Memory>
    requires new { IsNew own.old }
    ensures new { IsNew own.new }
    ensures deque { worker_deque own.new ≡ worker_deque own.old }
    ensures whole { OnOk result (whole_of own.new ≡ whole_of own.old + cond spare 0 1) }
    ensures fits { IfOk result (λ e. (deque_of e ≡ worker_deque own.old) × IsWired e) }
    ensures note { IfOk result (λ e. note_of e ≡ note (cond spare 0 1) 0 [] []) }
{
    let thief = own.stealer()?;
    let pass = if spare {
        own.another::<Spare>()
    } else {
        own.another::<Part>()
    };
    Ok(End {
        thief,
        pass,
        empties: 0,
        beaten: 0,
    })
}

/// The ends of the hand with this number, one of each deque.
fn ends_of(alloc: Global, owners: &mut Vec<Owner>, number: usize) -> Result<Row, Memory>
    requires inside { number < length owners.old.items }
    requires new { AreOwners number owners.old.items }
    ensures deques { OnOk result
        (map worker_deque owners.new.items ≡ map worker_deque owners.old.items) }
    ensures new { OnOk result (AreOwners (number + 1) owners.new.items) }
    ensures ends { IfOk result
        (λ row. AreEnds number (map worker_deque owners.old.items) row.ends.items) }
{
    let mut ends = Vec::with_capacity(alloc, owners.len())?;
    for k in 0..owners.len() {
        ends.push(end_of(&mut owners[k], k == number)?)?;
    }
    Ok(Row { ends })
}

/// The ends of all hands.
fn rows_of(alloc: Global, owners: &mut Vec<Owner>) -> Result<Vec<Row>, Memory>
    requires new { AreOwners 0 owners.old.items }
    ensures deques { OnOk result
        (map worker_deque owners.new.items ≡ map worker_deque owners.old.items) }
    ensures new { OnOk result (AreOwners (length owners.old.items) owners.new.items) }
    ensures rows { IfOk result
        (λ rows. (length rows.items ≡ length owners.old.items)
        × AreRows (map worker_deque owners.old.items) rows.items) }
{
    let mut rows = Vec::with_capacity(alloc, owners.len())?;
    for number in 0..owners.len() {
        rows.push(ends_of(alloc, owners, number)?)?;
    }
    Ok(rows)
}

/// All hands, the last one first: each has its own deque, and its ends of all.
fn hands_of(alloc: Global, owners: Vec<Owner>, rows: Vec<Row>) -> Result<Vec<Hand>, Memory>
    requires few { length owners.items ≤ 64 }
    requires length { length rows.items ≡ length owners.items }
    requires new { AreOwners (length owners.items) owners.items }
    requires rows { AreRows (map worker_deque owners.items) rows.items }
    ensures { IfOk result
        (λ hands. AreFresh (record { deques = map worker_deque owners.items }) 0
        (reverse hands.items)) }
{
    let mut owners = owners;
    let mut rows = rows;
    let mut hands = Vec::with_capacity(alloc, rows.len())?;
    while let Some(own) = owners.pop() {
        let Some(row) = rows.pop() else {
            unreachable!()
        };
        hands.push(Hand::new(owners.len() as u32, own, row.ends))?;
    }
    Ok(hands)
}

/// Takes all hands apart.
fn apart(alloc: Global, hands: Vec<Hand>) -> Result<(Vec<Owner>, Vec<Row>), Memory>
    ensures { IfOk result (λ r. AreApart hands.items r.0.items r.1.items) }
{
    let mut owners = Vec::with_capacity(alloc, hands.len())?;
    let mut rows = Vec::with_capacity(alloc, hands.len())?;
    for hand in hands {
        let (own, ends) = hand.into_parts();
        owners.push(own)?;
        rows.push(Row { ends })?;
    }
    Ok((owners, rows))
}

/// The owner of each deque takes in the pass of that deque's end.
fn absorb_all(owners: &mut Vec<Owner>, row: Row)
    requires deques { map deque_of row.ends.items ≡ map worker_deque owners.old.items }
    requires wired { Each IsWired row.ends.items }
    requires wholes { Each (λ own. 0 < whole_of own) owners.old.items }
    ensures { AreJoined 0 owners.old.items row.ends.items owners.new.items }
{
    let Row { mut ends } = row;
    while let Some(end) = ends.pop() {
        owners[ends.len()].absorb::<Gathered>(end.pass);
    }
}

/// Takes the names that are left in all deques.
fn drain_all(alloc: Global, owners: Vec<Owner>) -> Result<Vec<Name>, Memory>
    requires all { Each (λ own. HasAll (worker_view own) × (worker_flavor own ≡ 0)) owners.items }
    ensures { IfOk result (λ left. AreDrained owners.items left.items) }
{
    let mut owners = owners;
    let mut left = Vec::new(alloc);
    while let Some(own) = owners.pop() {
        drain(own, &mut left)?;
    }
    Ok(left)
}

/// Takes the names that are left in a deque, for an owner that has all its parts.
fn drain(own: Owner, left: &mut Vec<Name>) -> Result<(), Memory>
    requires all { HasAll (worker_view own) }
    requires first_out { worker_flavor own ≡ 0 }
    ensures { OnOk result (IsDrained (worker_view own) left.old.items left.new.items) }
{
    let mut own = own;
    while let Some(name) = own.pop_as::<Takes>() {
        left.push(name)?;
    }
    Ok(())
}
