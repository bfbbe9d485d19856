//! What a program reaches from its seeds.

ghost use Rattle.std.specs.Prelude.{◌≡◌, ◌↔◌, ℕ, List, IfOk, IsSome, IsTrue, All};
ghost use Rattle.std.specs.Prelude.{Contains};
ghost use Rattle.std.specs.List.Sorted.{IsStrictlyIncreasing};
ghost use Rattle.cfg_model.specs.Program.Chain.{IsTerminator};
ghost use Rattle.cfg_model.specs.Program.Reach.{Reached};
ghost use Rattle.cfg_model.specs.Program.Status.{Returns};
ghost use Rattle.reached_terms.specs.Reached.{AreReachedTerms};

use crate::closure::closure_of;
use cfg_model::Memory;
use numbered::{Numbered, marked_addresses, marked_among};
use std::alloc::Global;
use std::marker::Model;

/// What a program reaches from its seeds: of each terminator whether it is reached, of each reached
/// one whether it returns, and of each address whether a block is known to start there. Blocks are
/// known to start at least where control is sent. To a contract it is these marks, by number.
#[derive(Drop)]
pub struct ReachedTerms {
    pub(crate) reached: Vec<bool>,
    pub(crate) returns: Vec<bool>,
    pub(crate) starts: Vec<bool>,
}

impl Model for ReachedTerms {
    ghost use Rattle.reached_terms.specs.Reached.{Reach};

    ghost Value = { Reach };

    ghost view = { λ terms. record {
      reached = terms.reached.items;
      returns = terms.returns.items;
      starts = terms.starts.items;
    } };
}

impl ReachedTerms {
    /// These marks, by number: of each terminator whether it is reached, and whether it returns, and
    /// of each address whether a block starts there. They are taken as they are. Whoever made them
    /// says of which program they are.
    pub fn from_marks(reached: Vec<bool>, returns: Vec<bool>, starts: Vec<bool>) -> ReachedTerms
        ensures { result ≡ record {
          reached = reached.items;
          returns = returns.items;
          starts = starts.items;
        } }
    {
        ReachedTerms {
            reached,
            returns,
            starts,
        }
    }

    /// What the program `code` reaches from `seeds`. The only error is that memory ran out.
    ///
    /// Each reached terminator is looked at once, and whoever waits for another is told once. Time:
    /// linear in the reached terminators and the kept targets of table jumps, but for that of
    /// [`term`](cfg_model::Chains::term), and in the numbers. Memory: three bytes for each number,
    /// and meanwhile four more for each number and some 60 for each reached terminator.
    pub fn of<C: Numbered>(alloc: Global, code: &C, seeds: &[u64]) -> Result<ReachedTerms, Memory>
        requires { All (λ a. IsSome (C.map code.now a)) seeds.now }
        ensures { IfOk result (AreReachedTerms (C.map code.now) (C.number code.now) seeds.now) }
    {
        Ok(closure_of(alloc, code, seeds)?.into_terms())
    }

    /// Whether the terminator at `k` is reached.
    pub fn has<C: Numbered>(&self, code: &C, k: u64) -> bool
        requires terms { (seeds : List ℕ)
            × AreReachedTerms (C.map code.now) (C.number code.now) seeds self.now }
        requires ends { IsTerminator (C.map code.now) k }
        ensures { (seeds : List ℕ)
            → AreReachedTerms (C.map code.now) (C.number code.now) seeds self.now
            → IsTrue result ↔ Reached (C.map code.now) seeds k }
    {
        self.reached[code.number(k) as usize]
    }

    /// Whether the reached address `a` returns. Time: that of
    /// [`term`](cfg_model::Chains::term).
    pub fn returns<C: Numbered>(&self, code: &C, a: u64) -> bool
        requires terms { (seeds : List ℕ)
            × AreReachedTerms (C.map code.now) (C.number code.now) seeds self.now
            × Reached (C.map code.now) seeds a }
        ensures { IsTrue result ↔ Returns (C.map code.now) a }
    {
        self.returns[code.number(code.term(a)) as usize]
    }

    /// Of each address, by its number, whether a block is known to start there.
    pub fn starts(&self) -> &[bool]
        ensures { result.now ≡ self.now.starts }
    {
        &self.starts
    }

    /// The reached terminators that return, rising. [`Memory`] if memory ran out. Time: linear in
    /// the numbers. Memory: eight bytes for each reached terminator, and for each that returns.
    pub fn returning<C: Numbered>(&self, alloc: Global, code: &C) -> Result<Vec<u64>, Memory>
        requires { (seeds : List ℕ)
            × AreReachedTerms (C.map code.now) (C.number code.now) seeds self.now }
        ensures rising { IfOk result (λ v. IsStrictlyIncreasing v.items) }
        ensures exact { IfOk result (λ v. (seeds : List ℕ)
            → AreReachedTerms (C.map code.now) (C.number code.now) seeds self.now
            → (k : ℕ) → Contains v.items k
            ↔ IsTerminator (C.map code.now) k × Reached (C.map code.now) seeds k
            × Returns (C.map code.now) k) }
    {
        let reached = marked_addresses(alloc, code, &self.reached)?;
        marked_among(alloc, code, &self.returns, &reached)
    }
}
