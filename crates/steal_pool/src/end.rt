//! A hand's end of one deque.

ghost use Rattle.std.specs.Prelude.{◌≡◌, ◌<◌, ◌≤◌, [], ◌∷◌, ◌++◌};
ghost use Rattle.crossbeam_deque.specs.Handles.{stealer_deque};
ghost use Rattle.steal_pool.specs.Rose.{Rose};
ghost use Rattle.steal_pool.specs.Tries.{MatchTried};
ghost use Rattle.steal_pool.specs.inner.Ends.{deque_of, note_of, IsWired};

use crate::deques::Tried;
use crate::note::{FirstOut, Note, Takes};
use core_state::Name;
use crossbeam_deque::{Pass, Steal, Stealer, Worker};
use std::alloc::Global;

/// The side of a deque that belongs to one hand, which puts and takes.
pub(crate) type Owner = Worker<Name, Global, Note, FirstOut>;

/// The side of a deque from which any hand takes.
pub(crate) type Thief = Stealer<Name, Global, Note, FirstOut>;

/// A hand's end of one deque, and what it counted there.
#[derive(Drop)]
pub(crate) struct End {
    /// The deque.
    pub(crate) thief: Thief,
    /// What the hand's proofs keep of it.
    pub(crate) pass: Pass<Name, Note>,
    /// How often it held no name.
    pub(crate) empties: u64,
    /// How often another taker was faster.
    pub(crate) beaten: u64,
}

/// All ends of one hand, one of each deque.
#[derive(Drop)]
pub(crate) struct Row {
    /// The ends, in the order of the deques.
    pub(crate) ends: Vec<End>,
}

impl End {
    /// Tries once to take the first name.
    pub(crate) fn steal(&mut self) -> Tried
        requires wired { IsWired self.old }
        requires part { 0 < (note_of self.old).parts }
        ensures deque { deque_of self.new ≡ deque_of self.old }
        ensures wired { IsWired self.new }
        ensures part { (note_of self.new).parts ≡ (note_of self.old).parts }
        ensures taken { MatchTried result
            (λ name. (note_of self.new).taken ≡ (note_of self.old).taken ++ name ∷ [])
            ((note_of self.new).taken ≡ (note_of self.old).taken)
            ((note_of self.new).taken ≡ (note_of self.old).taken) }
        ensures cause { MatchTried result
            (λ _. Unit {0}) (Rose self.old.beaten self.new.beaten)
            (Rose self.old.empties self.new.empties) }
        ensures empties { self.old.empties ≤ self.new.empties }
        ensures beaten { self.old.beaten ≤ self.new.beaten }
    {
        match self.thief.steal_as::<Takes>(&mut self.pass) {
            Steal::Success(name) => Tried::Got { name },
            Steal::Retry => {
                self.beaten = self.beaten.saturating_add(1);
                Tried::Beaten
            }
            Steal::Empty => {
                self.found_empty();
                Tried::Empty
            }
        }
    }

    /// Counts that the deque held no name.
    pub(crate) fn found_empty(&mut self)
        ensures same { self.new ≡ record self.old { empties = self.new.empties } }
        ensures rose { Rose self.old.empties self.new.empties }
        ensures more { self.old.empties ≤ self.new.empties }
    {
        self.empties = self.empties.saturating_add(1);
    }
}
