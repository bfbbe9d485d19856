//! Which blocks overlap others.

ghost use Rattle.std.specs.Prelude.{◌≡◌, ◌++◌, ◌∷◌, [], ℕ, List, All, IfOk, OnOk, length};
ghost use Rattle.reached_graph.specs.Inner.Overlaps.{AreOverlaps, IsFound};
ghost use Rattle.reached_graph.specs.Inner.Overlaps.{AreSized, lasts_of, starts_of};

use crate::leaders::Leaders;
use cfg_model::Memory;
use std::alloc::Global;

/// The blocks that overlap others, among those that were gone over so far.
#[derive(Drop)]
pub(crate) struct Overlaps {
    /// Starts of blocks, among them those of all that overlap others.
    pub(crate) starts: Vec<u64>,
    /// The start of the last block so far.
    before: Option<u64>,
    /// No last address so far is above it.
    top: u64,
}

impl Overlaps {
    /// Those among all these blocks, which rise from list to list.
    pub(crate) fn of(alloc: Global, lists: &[Leaders]) -> Result<Overlaps, Memory>
        requires { All AreSized lists.now }
        ensures { IfOk result (AreOverlaps (starts_of lists.now) (lasts_of lists.now)) }
    {
        let mut overlaps = Overlaps {
            starts: Vec::new(alloc),
            before: None,
            top: 0,
        };
        for blocks in lists {
            overlaps.add_all(&blocks.starts, &blocks.lasts)?;
        }
        Ok(overlaps)
    }

    /// Goes over these blocks.
    fn add_all(&mut self, starts: &[u64], lasts: &[u64]) -> Result<(), Memory>
        requires { length lasts.now ≡ length starts.now }
        ensures { OnOk result ((xs ks : List ℕ) → AreOverlaps xs ks self.old
            → AreOverlaps (xs ++ starts.now) (ks ++ lasts.now) self.new) }
    {
        for i in 0..starts.len() {
            self.add(starts[i], lasts[i])?;
        }
        Ok(())
    }

    /// Goes over the block from `s` to the instruction at `k`. If it starts in an earlier block, it
    /// overlaps that, and maybe the one before it does so.
    fn add(&mut self, s: u64, k: u64) -> Result<(), Memory>
        ensures { OnOk result ((xs ks : List ℕ) → AreOverlaps xs ks self.old
            → AreOverlaps (xs ++ s ∷ []) (ks ++ k ∷ []) self.new) }
    {
        if s <= self.top {
            self.add_starts(s)?;
        }
        self.before = Some(s);
        if self.top < k {
            self.top = k;
        }
        Ok(())
    }

    /// Adds `s` and the start of the last block so far.
    #[cold]
    fn add_starts(&mut self, s: u64) -> Result<(), Memory>
        ensures { OnOk result (IsFound s self.old self.new) }
    {
        if let Some(before) = self.before {
            self.starts.push(before)?;
        }
        self.starts.push(s)?;
        Ok(())
    }
}
