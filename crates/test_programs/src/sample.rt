//! A program given as a list of instructions.

ghost use Rattle.std.specs.Prelude.{◌≡◌, ◌<◌, ◌^◌, IsTrue, length};
ghost use Rattle.cfg_model.specs.Program.Instructions.{IsLawful};
ghost use Rattle.cfg_model.specs.Program.Reach.{AreSeeds};
ghost use Rattle.test_programs.specs.Listed.{slot_at, listed_at, are_lawful, are_seeds};

use cfg_model::{Chains, Flow, Memory};
use numbered::Numbered;
use std::alloc::Global;

/// What stands at an address: the length of an instruction, in bytes, and its flow. `None` if no
/// instruction starts.
pub type Slot = Option<(u8, Flow)>;

/// A program with its seeds. Both lists of it were tested: the instructions are a lawful program,
/// and the seeds rise and are addresses of instructions. Each address is its own number.
#[derive(Drop)]
pub struct Sample<'a> {
    /// Where lists of targets are made.
    pub alloc: Global,
    /// What stands at each address, from 0 on.
    pub slots: &'a [Slot],
    /// The kept targets of every table jump.
    pub targets: &'a [u64],
    /// The addresses where the program may start, rising.
    pub seeds: &'a [u64],
    pub ghost lawful: { IsTrue (are_lawful slots.now targets.now) },
    pub ghost few: { length slots.now < 2 ^ 32 },
    pub ghost seeded: { IsTrue (are_seeds slots.now targets.now seeds.now) },
}

impl<'a> Sample<'a> {
    /// The seeds.
    pub fn seeds(&self) -> &'a [u64]
        ensures same { result.now ≡ self.now.seeds.now }
        ensures seeds { AreSeeds (listed_at self.now.slots.now self.now.targets.now) result.now }
    {
        self.seeds
    }

    /// What stands at this address.
    fn slot(&self, a: u64) -> Slot
        ensures slot { result ≡ slot_at self.now.slots.now a }
        ensures lawful { IsLawful (listed_at self.now.slots.now self.now.targets.now) }
    {
        match self.slots.get(a as usize) {
            Some(slot) => *slot,
            None => None,
        }
    }
}

impl Chains for Sample<'_> {
    ghost map = { λ s. listed_at s.slots.now s.targets.now };

    fn has(&self, a: u64) -> bool {
        self.slot(a).is_some()
    }

    fn flow(&self, a: u64) -> Flow {
        match self.slot(a) {
            Some((_, flow)) => flow,
            None => unreachable!(),
        }
    }

    fn length(&self, a: u64) -> u8 {
        match self.slot(a) {
            Some((bytes, _)) => bytes,
            None => unreachable!(),
        }
    }

    fn targets(&self, a: u64) -> Result<Vec<u64>, Memory> {
        match self.slot(a) {
            Some((_, Flow::Table { .. })) => Ok(Vec::from_slice(self.alloc, self.targets)?),
            _ => Ok(Vec::new(self.alloc)),
        }
    }

    // No call has a landing pad.
    fn landing(&self, a: u64) -> Option<u64> {
        let _slot = self.slot(a);
        None
    }
}

impl Numbered for Sample<'_> {
    ghost number = { λ _ a. a };

    fn numbers(&self) -> u32 {
        let _lawful = self.has(0);
        self.slots.len() as u32
    }

    fn number(&self, a: u64) -> u32 {
        a as u32
    }

    fn address(&self, n: u32) -> Option<u64> {
        let a = u64::from(n);
        if self.has(a) { Some(a) } else { None }
    }
}
