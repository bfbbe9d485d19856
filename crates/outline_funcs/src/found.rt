//! Blocks that are found for one function after another.

ghost use Rattle.std.specs.Prelude.{◌≡◌, ◌<◌, [], ◌∷◌, All, IfOk, OnOk, length, replicate};
ghost use Rattle.cfg_model.specs.Graph.Listing.{Extends};
ghost use Rattle.outline_funcs.specs.Inner.Found.{AreStamped};

use crate::Memory;
use std::alloc::Global;

/// The blocks found, by their places in the list of all blocks. What is noted of each block, in
/// four bytes, is never cleared: a later function has a greater stamp.
#[derive(Drop)]
pub(crate) struct Found {
    /// The blocks of the function at hand, in the order found.
    pub(crate) order: Vec<usize>,
    /// For each block, the stamp of the last function that it was found for; 0 if there is none.
    pub(crate) stamps: Vec<u32>,
}

impl Found {
    /// Nothing is found of this many blocks.
    pub(crate) fn new(alloc: Global, blocks: usize) -> Result<Self, Memory>
        ensures { IfOk result (λ found. found.stamps.items ≡ replicate blocks 0) }
    {
        Ok(Found {
            order: Vec::new(alloc),
            stamps: vec![in alloc; 0; blocks]?,
        })
    }

    /// Begins with another function: its first block alone is found.
    pub(crate) fn begin(&mut self, stamp: u32, block: usize) -> Result<(), Memory>
        requires new { All (λ s. s < stamp) self.old.stamps.items }
        requires within { block < length self.old.stamps.items }
        ensures stamped { OnOk result
            (AreStamped stamp self.new.order.items self.new.stamps.items) }
        ensures one { OnOk result (self.new.order.items ≡ block ∷ []) }
        ensures as_many { length self.new.stamps.items ≡ length self.old.stamps.items }
    {
        self.order.clear();
        self.stamps[block] = stamp;
        self.order.push(block)?;
        Ok(())
    }

    /// Adds a block, unless it is there.
    pub(crate) fn add(&mut self, stamp: u32, block: usize) -> Result<(), Memory>
        requires stamped { AreStamped stamp self.old.order.items self.old.stamps.items }
        requires within { block < length self.old.stamps.items }
        ensures stamped { OnOk result
            (AreStamped stamp self.new.order.items self.new.stamps.items) }
        ensures adds { OnOk result (Extends self.old.order.items self.new.order.items
            (λ b. b ≡ block)) }
        ensures as_many { length self.new.stamps.items ≡ length self.old.stamps.items }
    {
        if self.stamps[block] != stamp {
            self.stamps[block] = stamp;
            self.order.push(block)?;
        }
        Ok(())
    }
}
