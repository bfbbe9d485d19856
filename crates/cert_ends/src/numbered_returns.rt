//! Terminators that return, found by the numbers of their addresses.

ghost use Rattle.std.specs.Prelude.{◌≡◌, ◌↔◌, All, Contains, IfOk, IsSome, IsTrue, MatchOption, length};
ghost use Rattle.numbered.specs.Numbering.{IsNumbering};
ghost use Rattle.cert_laws.specs.Lines.{IsReturn, IsReturnBelow};
ghost use Rattle.cert_ends.specs.Places.{AreNumbered, ReturnsRise, place_by};

use cert_text::ReturnLine;
use cfg_model::Memory;
use numbered::Numbered;
use std::alloc::Global;

/// The lines of the terminators that return, each of which is found in one step.
#[derive(Drop)]
pub struct NumberedReturns<'a> {
    /// The lines, by rising address.
    pub lines: &'a [ReturnLine],
    /// By the number of an address, the place of its line, from 1 on; 0 if there is none.
    pub places: Vec<u32>,
}

impl<'a> NumberedReturns<'a> {
    /// These lines, each at the address of an instruction. [`Memory`] if memory ran out.
    /// Time: O(lines + numbers). Memory: four bytes for each number.
    pub fn new<C: Numbered>(
        alloc: Global,
        code: &C,
        lines: &'a [ReturnLine],
    ) -> Result<NumberedReturns<'a>, Memory>
        requires rise { ReturnsRise lines.now }
        requires stand { All (λ line. IsSome (C.map code.now line.at)) lines.now }
        ensures numbered { IfOk result (AreNumbered (C.map code.now) (C.number code.now)) }
        ensures lines { IfOk result (λ returns. returns.lines.now ≡ lines.now) }
    {
        // There are no more lines than numbers, so each place has 32 bits.
        let mut places = vec![in alloc; 0; code.numbers() as usize]?;
        for i in 0..lines.len() {
            places[code.number(lines[i].at) as usize] = i as u32 + 1;
        }
        Ok(NumberedReturns { lines, places })
    }

    /// The place of the line of the terminator at `k`, from 1 on; 0 if it has none.
    fn place<C: Numbered>(&self, code: &C, k: u64) -> u32
        requires numbering { IsNumbering (C.map code.now) (C.number code.now)
            (length self.now.places.items) }
        requires stands { IsSome (C.map code.now k) }
        ensures { result ≡ place_by (C.number code.now) self.now.places.items k }
    {
        self.places[code.number(k) as usize]
    }

    /// The line of the terminator at `k`, if it is listed as one that returns.
    /// Time: that of finding the number of the address.
    pub fn line<C: Numbered>(&self, code: &C, k: u64) -> Option<ReturnLine>
        requires numbered { AreNumbered (C.map code.now) (C.number code.now) self.now }
        requires stands { IsSome (C.map code.now k) }
        ensures { MatchOption result (¬ IsReturn self.now.lines.now k)
            (λ line. Contains self.now.lines.now line × (line.at ≡ k)) }
    {
        let place = self.place(code, k) as usize;
        if place == 0 {
            return None;
        }
        Some(self.lines[place - 1])
    }

    /// Whether the terminator at `k` is listed as one that returns.
    /// Time: that of finding the number of the address.
    pub fn has<C: Numbered>(&self, code: &C, k: u64) -> bool
        requires numbered { AreNumbered (C.map code.now) (C.number code.now) self.now }
        requires stands { IsSome (C.map code.now k) }
        ensures { IsTrue result ↔ IsReturn self.now.lines.now k }
    {
        match self.line(code, k) {
            Some(_) => true,
            None => false,
        }
    }

    /// Whether the terminator at `k` is listed as one that returns with a rank below `rank`.
    /// Time: that of finding the number of the address.
    pub fn has_below<C: Numbered>(&self, code: &C, rank: u64, k: u64) -> bool
        requires numbered { AreNumbered (C.map code.now) (C.number code.now) self.now }
        requires stands { IsSome (C.map code.now k) }
        ensures { IsTrue result ↔ IsReturnBelow self.now.lines.now rank k }
    {
        match self.line(code, k) {
            Some(line) => line.rank < rank,
            None => false,
        }
    }
}
