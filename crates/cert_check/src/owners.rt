//! Whose block each address of a program lies in.

ghost use Rattle.std.specs.Prelude.{◌≡◌, ◌<◌, ℕ, IfOk, IsSome, MatchBool, length, None};
ghost use Rattle.numbered.specs.Numbering.{IsNumbering};
ghost use Rattle.cert_check.specs.Inner.Blocks.{IsClaimed, owner_by};

use cfg_model::Memory;
use numbered::Numbered;
use std::alloc::Global;

/// For each address of a program, the place of the leader whose block it lies in.
#[derive(Drop)]
pub(crate) struct Owners {
    /// By the number of the address.
    pub(crate) places: Vec<Option<u32>>,
}

impl Owners {
    /// No address lies in a block yet.
    /// Memory: eight bytes for each number.
    pub(crate) fn new<C: Numbered>(alloc: Global, code: &C) -> Result<Owners, Memory>
        ensures numbering { IfOk result (λ owners.
            IsNumbering (C.map code.now) (C.number code.now) (length owners.places.items)) }
        ensures none { IfOk result (λ owners.
            (a : ℕ) → owner_by (C.number code.now) owners.places.items a ≡ None) }
    {
        Ok(Owners {
            places: vec![in alloc; None; code.numbers() as usize]?,
        })
    }

    /// The place of the leader whose block the address `a` lies in.
    pub(crate) fn of<C: Numbered>(&self, code: &C, a: u64) -> Option<u32>
        requires numbering { IsNumbering (C.map code.now) (C.number code.now)
            (length self.now.places.items) }
        requires stands { IsSome (C.map code.now a) }
        ensures { result ≡ owner_by (C.number code.now) self.now.places.items a }
    {
        self.places[code.number(a) as usize]
    }

    /// Puts the address `a` into the block of the leader at place `i`, unless it lies in one
    /// already. It tells whether it did.
    pub(crate) fn claim<C: Numbered>(&mut self, code: &C, a: u64, i: u32) -> bool
        requires numbering { IsNumbering (C.map code.now) (C.number code.now)
            (length self.old.places.items) }
        requires stands { IsSome (C.map code.now a) }
        ensures kept { length self.new.places.items ≡ length self.old.places.items }
        ensures cases { MatchBool result
            (IsClaimed (C.map code.now) (owner_by (C.number code.now) self.old.places.items)
            (owner_by (C.number code.now) self.new.places.items) a i)
            (IsSome (owner_by (C.number code.now) self.old.places.items a)) }
    {
        let number = code.number(a) as usize;
        if self.places[number].is_some() {
            return false;
        }
        self.places[number] = Some(i);
        true
    }
}
