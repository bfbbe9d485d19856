//! A worker's hand in the pool: it puts names into its own deque, and takes names from any.

ghost use Rattle.std.specs.Prelude.{◌≡◌, ◌≢◌, ◌↔◌, ℕ, ◌+◌, ◌<◌, ◌≤◌, List, [], ◌∷◌, ◌++◌, length};
ghost use Rattle.std.specs.Prelude.{map, slice_get, Some, None, MatchResult, IfNone, IsOk};
ghost use Rattle.std.specs.Option.{option_to_list};
ghost use Rattle.crossbeam_deque.specs.Handles.{worker_view};
ghost use Rattle.steal_pool.specs.Rose.{Rose};
ghost use Rattle.steal_pool.specs.Tries.{MatchTried};
ghost use Rattle.steal_pool.specs.Pool.{IsHandOf, IsOnly, IsSameHand, workers_of};
ghost use Rattle.steal_pool.specs.Taking.{TryOfHand, CountsTry, LastRound, CountsLast, empties_at};
ghost use Rattle.steal_pool.specs.inner.Ends.{deque_of, first_room, IsWell};
ghost use Rattle.steal_pool.specs.inner.Building.{IsApart};

use crate::deques::{Deques, Round, Tried, first_of};
use crate::end::{End, Owner};
use crate::note::{Puts, Takes};
use crate::noted::{Find, Noted};
use crate::pool::Pool;
use core_state::Name;
use std::marker::Model;
use std::sync::Wait;

/// A name that came back, since the deque did not take it: for want of memory, or at a limit of its
/// own.
#[derive(Clone, Copy, Debug, PartialEq, Eq)]
pub struct Back {
    /// The name.
    pub name: Name,
}

/// A worker's hand in a pool. Contracts see what it has put and taken, and how often it found the
/// deques without a name or was beaten there.
#[derive(Drop)]
pub struct Hand {
    number: u32,
    own: Owner,
    ends: Vec<End>,
    noted: Noted,
    stolen: u64,
}

impl Model for Hand {
    ghost use Rattle.std.specs.Prelude.{map};
    ghost use Rattle.crossbeam_deque.specs.Handles.{worker_view};
    ghost use Rattle.steal_pool.specs.Pool.{HandValue};
    ghost use Rattle.steal_pool.specs.inner.Ends.{deque_of, IsWell};

    ghost Value = { HandValue };

    ghost view = { λ h. record {
      deques = map deque_of h.ends.items;
      number = h.number;
      put = (worker_view h.own).put;
      taken = h.noted.names;
      empties = map (λ e. e.empties) h.ends.items;
      beaten = map (λ e. e.beaten) h.ends.items;
    } };

    ghost invariant = { λ h. IsWell h.number h.own h.ends.items h.noted.names };
}

impl Hand {
    /// A new hand with this number, its own deque, and its ends of all.
    pub(crate) fn new(number: u32, own: Owner, ends: Vec<End>) -> Hand
        requires { IsWell number own ends.items [] }
        ensures deques { result.deques ≡ map deque_of ends.items }
        ensures number { result.number ≡ number }
        ensures put { result.put ≡ (worker_view own).put }
        ensures taken { result.taken ≡ [] }
    {
        Hand {
            number,
            own,
            ends,
            noted: Noted::new(),
            stolen: 0,
        }
    }

    /// How many names it has taken from other hands' deques, a measurement. It stops at 2^64 - 1.
    pub fn stolen(&self) -> u64 {
        self.stolen
    }

    /// The hand's own deque, and its ends of all.
    pub(crate) fn into_parts(self) -> (Owner, Vec<End>)
        ensures { IsApart self result.0 result.1.items }
    {
        (self.own, self.ends)
    }

    /// Puts a name after all others of the hand's own deque, or gives it back. The first 64 names
    /// never come back.
    pub fn put(&mut self, name: Name) -> Result<(), Back>
        ensures put { MatchResult result
            (λ _. self.new ≡ record self.old { put = self.old.put ++ name ∷ [] })
            (λ back. (back.name ≡ name) × (self.new ≡ self.old)) }
        ensures room { length self.old.put < first_room → IsOk result }
    {
        match self.own.push_as::<Puts>(name) {
            Ok(()) => Ok(()),
            Err(name) => Err(Back { name }),
        }
    }

    /// Takes the first name of the hand's own deque, or else of another's: by rising number from
    /// its own on and round. Tries again while another taker wins.
    pub fn take<R: Wait>(&mut self, rt: &R, pool: &Pool) -> Option<Name>
        requires pool { IsHandOf pool.now self.old }
        ensures same { IsSameHand self.old self.new }
        ensures put { self.new.put ≡ self.old.put }
        ensures taken { self.new.taken ≡ self.old.taken ++ option_to_list result }
        ensures round { LastRound self.old result self.new }
        ensures none { IfNone result
            ((i : ℕ) → i < workers_of pool.now
            → Rose (empties_at self.old i) (empties_at self.new i)) }
        ensures counts { CountsLast self.old self.new }
        ensures first { IsOnly self.old → result ≡ slice_get self.old.put (length self.old.taken) }
        ensures only { IsOnly self.old → (result ≡ None)
            ↔ (length self.old.taken ≡ length self.old.put) }
    {
        let own = self.number;
        for _ in rt.forever() {
            match first_of(self, own, pool.workers()) {
                Round::Got { name } => return Some(name),
                Round::Again => {}
                Round::Dry => return None,
            }
        }
        unreachable!()
    }

    /// Tries to take the first name of its own deque.
    fn try_own(&mut self) -> Tried
        ensures made { TryOfHand self.old self.old.number result self.new }
        ensures counts { CountsTry self.old self.old.number result self.new }
    {
        match self.own.pop_as::<Takes>() {
            Some(name) => {
                self.noted = Noted::with(&self.noted, &Find { name });
                Tried::Got { name }
            }
            None => {
                self.ends[self.number as usize].found_empty();
                Tried::Empty
            }
        }
    }

    /// Tries to take the first name of deque number `i`, which is another hand's.
    fn try_other(&mut self, i: u32) -> Tried
        requires deque { i < length self.old.deques }
        requires other { i ≢ self.old.number }
        ensures made { TryOfHand self.old i result self.new }
        ensures counts { CountsTry self.old i result self.new }
    {
        match self.ends[i as usize].steal() {
            Tried::Got { name } => {
                self.noted = Noted::with(&self.noted, &Find { name });
                self.stolen = self.stolen.saturating_add(1);
                Tried::Got { name }
            }
            Tried::Beaten => Tried::Beaten,
            Tried::Empty => Tried::Empty,
        }
    }
}

impl Deques for Hand {
    ghost use Rattle.std.specs.Prelude.{length};
    ghost use Rattle.steal_pool.specs.Taking.{TryOfHand, empties_at, beaten_at};

    ghost size = { λ h. length h.deques };

    ghost empties = { empties_at };

    ghost beaten = { beaten_at };

    ghost got = { λ h. h.taken };

    ghost try_made = { TryOfHand };

    fn try_end(&mut self, i: u32) -> Tried {
        if i == self.number {
            self.try_own()
        } else {
            self.try_other(i)
        }
    }
}
