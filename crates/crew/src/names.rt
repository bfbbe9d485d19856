//! The work items that a worker found and keeps for itself, and its hand.

ghost use Rattle.std.specs.Prelude.{◌≡◌};
ghost use Rattle.crew.specs.inner.Worker.{IsHandAt};

use crate::tally::{Tally, add_one};
use crate::worker_ids::WorkerIds;
use core_state::Name;
use std::alloc::Global;
use std::marker::{Model, PhantomData};
use std::sync::Wait;
use steal_pool::{Hand, Pool};

/// How many names a worker keeps for itself. What it found before lies in its deque, where others
/// take it too.
const KEPT: usize = 64;

/// The names that a worker found last, and the hand of these ids, into which the others go. The
/// newest is done first.
///
/// Contracts see the hand.
#[derive(Drop)]
pub(crate) struct Names<S: WorkerIds> {
    names: Vec<Name>,
    hand: Hand,
    ids: PhantomData<S>,
}

impl<S: WorkerIds> Model for Names<S> {
    ghost use Rattle.steal_pool.specs.Pool.{HandValue};
    ghost use Rattle.crew.specs.inner.Worker.{IsHandAt};

    ghost Value = { HandValue };

    ghost view = { λ n. n.hand };

    ghost invariant = { λ n. IsHandAt S.deques S.number n.hand };
}

impl<S: WorkerIds> Names<S> {
    /// No names yet, and this hand.
    pub(crate) fn new(alloc: Global, hand: Hand) -> Self
        requires { IsHandAt S.deques S.number hand }
    {
        Names {
            names: Vec::new(alloc),
            hand,
            ids: PhantomData,
        }
    }

    /// The hand.
    pub(crate) fn into_hand(self) -> Hand
        ensures { IsHandAt S.deques S.number result }
    {
        self.hand
    }

    /// How many names the hand has taken from other hands' deques.
    pub(crate) fn stolen(&self) -> u64 {
        self.hand.stolen()
    }

    /// The newest name that was kept.
    #[inline]
    pub(crate) fn take_kept(&mut self, tally: &mut Tally) -> Option<Name> {
        let name = self.names.pop()?;
        add_one(&mut tally.from_kept);
        Some(name)
    }

    /// The oldest name of a deque.
    #[inline(never)]
    pub(crate) fn take_from_deque<R: Wait>(
        &mut self,
        tally: &mut Tally,
        rt: &R,
        pool: &Pool,
    ) -> Option<Name>
        requires { pool.now.deques ≡ S.deques }
    {
        let name = self.hand.take(rt, pool)?;
        add_one(&mut tally.from_deques);
        Some(name)
    }

    /// Takes the newest name, if it is this one. Whether it was.
    pub(crate) fn take_newest(&mut self, tally: &mut Tally, name: Name) -> bool {
        if self.names.last() != Some(&name) {
            return false;
        }
        self.names.pop();
        add_one(&mut tally.from_kept);
        true
    }

    /// Keeps a name. If there are many already, the oldest goes into the hand's deque. If that
    /// gives it back, or memory is missing, the new name is dropped; its work is found after all
    /// workers have ended.
    #[inline]
    pub(crate) fn keep(&mut self, tally: &mut Tally, name: Name) {
        if self.names.len() < self.names.capacity() {
            self.names.push_reserved(name);
            add_one(&mut tally.kept);
        } else {
            self.keep_more(tally, name);
        }
    }

    /// The same, if there is no room for another name.
    #[cold]
    #[inline(never)]
    fn keep_more(&mut self, tally: &mut Tally, name: Name) {
        if self.names.len() >= KEPT && !self.pass_on(tally) {
            return;
        }
        if self.names.push(name).is_ok() {
            add_one(&mut tally.kept);
        }
    }

    /// Puts the oldest name into the deque. Whether there is room for another now.
    fn pass_on(&mut self, tally: &mut Tally) -> bool {
        let Some(oldest) = self.names.first() else {
            return true;
        };
        if self.hand.put(*oldest).is_err() {
            return false;
        }
        self.names.remove(0);
        add_one(&mut tally.put);
        true
    }

    /// Puts a name off: into the deque, after all others. If that gives it back it is kept.
    pub(crate) fn put_off(&mut self, tally: &mut Tally, name: Name) {
        match self.hand.put(name) {
            Ok(()) => add_one(&mut tally.put),
            Err(_) => self.keep(tally, name),
        }
    }
}
