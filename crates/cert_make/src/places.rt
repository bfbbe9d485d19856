//! The places of addresses in a list, found by their numbers.

ghost use Rattle.std.specs.Prelude.{◌≡◌, ℕ, All, Contains, IfOk, IsSome, MatchOption, length};
ghost use Rattle.std.specs.List.Sorted.{IsStrictlyIncreasing};
ghost use Rattle.numbered.specs.Numbering.{IsNumbering};
ghost use Rattle.cert_make.specs.Inner.Places.{ArePlaced, IsAt, placed_by};

use cfg_model::Memory;
use numbered::Numbered;
use std::alloc::Global;

/// The places of addresses in a list that rises, each of which is found in one step.
#[derive(Drop)]
pub(crate) struct Places<'a> {
    /// The addresses.
    pub(crate) addresses: &'a [u64],
    /// By the number of an address, its place, from 1 on; 0 if it is not listed.
    pub(crate) places: Vec<u32>,
}

impl<'a> Places<'a> {
    /// The places of these addresses, at each of which an instruction stands. [`Memory`] if memory
    /// ran out.
    /// Time: O(addresses + numbers). Memory: four bytes for each number.
    pub(crate) fn new<C: Numbered>(
        alloc: Global,
        code: &C,
        addresses: &'a [u64],
    ) -> Result<Places<'a>, Memory>
        requires rise { IsStrictlyIncreasing addresses.now }
        requires stand { All (λ a. IsSome (C.map code.now a)) addresses.now }
        ensures placed { IfOk result (ArePlaced (C.map code.now) (C.number code.now)) }
        ensures addresses { IfOk result (λ places. places.addresses.now ≡ addresses.now) }
    {
        // There are no more addresses than numbers, so each place has 32 bits.
        let mut places = vec![in alloc; 0; code.numbers() as usize]?;
        for i in 0..addresses.len() {
            places[code.number(addresses[i]) as usize] = i as u32 + 1;
        }
        Ok(Places { addresses, places })
    }

    /// The place of the address `a`, if it is listed.
    /// Time: that of finding the number of the address.
    pub(crate) fn of<C: Numbered>(&self, code: &C, a: u64) -> Option<usize>
        requires placed { ArePlaced (C.map code.now) (C.number code.now) self.now }
        ensures { MatchOption result (¬ Contains self.now.addresses.now a)
            (λ i. IsAt self.now.addresses.now i a) }
    {
        if !code.has(a) {
            return None;
        }
        let place = self.place(code, a) as usize;
        if place == 0 {
            return None;
        }
        Some(place - 1)
    }

    /// The place of the address `a` of an instruction, from 1 on; 0 if it is not listed.
    fn place<C: Numbered>(&self, code: &C, a: u64) -> u32
        requires numbering { IsNumbering (C.map code.now) (C.number code.now)
            (length self.now.places.items) }
        requires stands { IsSome (C.map code.now a) }
        ensures { result ≡ placed_by (C.number code.now) self.now.places.items a }
    {
        self.places[code.number(a) as usize]
    }
}
