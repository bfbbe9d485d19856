//! Table cuts: of some jump tables fewer entries are kept than are there.

ghost use Rattle.std.specs.Prelude.{◌≡◌, ◌≤◌, OnOk, OnErr};
ghost use Rattle.std.specs.FinMap as map;
ghost use Rattle.code_view.specs.Cuts.{cut_of};

use crate::Memory;
use std::alloc::Global;
use std::collections::BTreeMap;
use std::marker::Model;

/// The number of entries that are kept of a jump table, by the address of its jump. A table without
/// a cut keeps all its entries.
#[derive(Drop)]
pub struct Cuts {
    alloc: Global,
    counts: BTreeMap<u64, u32>,
}

impl Model for Cuts {
    ghost use Rattle.std.specs.Prelude.{ℕ};
    ghost use Rattle.std.specs.Ordering.{nat_cmp};
    ghost use Rattle.std.specs.Coded.{coded_ℕ};
    ghost use Rattle.std.specs.FinMap as map;

    ghost Value = { map.FinMap nat_cmp ℕ };

    ghost coded = { map.code coded_ℕ coded_ℕ };

    ghost view = { λ a. map.from_entries a.counts.entries };
}

impl Cuts {
    /// No cuts.
    pub fn none(alloc: Global) -> Self
        ensures { result ≡ map.empty }
    {
        Cuts {
            alloc,
            counts: BTreeMap::new(alloc),
        }
    }

    /// The allocator that the cuts were made with.
    pub(crate) fn alloc(&self) -> Global {
        self.alloc
    }

    /// The cut of the jump at `j`; `None` exactly if it has no cut.
    pub fn count(&self, j: u64) -> Option<u32>
        ensures { result ≡ cut_of self.now j }
    {
        self.counts.get(&j).copied()
    }

    /// Cuts the table of the jump at `j` to `count` entries, at least 1. A cut that it had is
    /// replaced. Every other cut stays.
    ///
    /// The only error is that memory ran out; then all cuts stay.
    pub fn put(&mut self, j: u64, count: u32) -> Result<(), Memory>
        requires { 1 ≤ count }
        ensures put { OnOk result (self.new ≡ map.insert self.old j count) }
        ensures unchanged { OnErr result (self.new ≡ self.old) }
    {
        self.counts.insert(j, count)?;
        Ok(())
    }
}
