//! Ranks that are handed out by levels: first all of rank 0, then those that rest on these, and so
//! on. A table of lines begins with such ranks. Nothing is promised of them: whether they are right
//! shows when the table is settled, and where they are, one step shows it.

use cfg_model::Memory;
use std::alloc::Global;

/// The ranks of lines, by their places, as far as they are known.
#[derive(Drop)]
pub(crate) struct Levels {
    ranks: Vec<Option<u32>>,
    /// The places of the lines that have ranks, in the order in which they got them.
    order: Vec<usize>,
}

impl Levels {
    /// No line of so many has a rank.
    /// Memory: 16 bytes for each line.
    pub(crate) fn new(alloc: Global, count: usize) -> Result<Levels, Memory> {
        Ok(Levels {
            ranks: vec![in alloc; None; count]?,
            order: Vec::new(alloc),
        })
    }

    /// Gives the line at this place its rank, unless it has one.
    pub(crate) fn give(&mut self, place: usize, rank: u32) -> Result<(), Memory> {
        if let Some(None) = self.ranks.get(place) {
            self.order.push(place)?;
            self.ranks[place] = Some(rank);
        }
        Ok(())
    }

    /// The line that was given its rank after so many others: its place and its rank.
    pub(crate) fn nth(&self, n: usize) -> Option<(usize, u32)> {
        let place = *self.order.get(n)?;
        Some((place, self.rank(place)))
    }

    /// The rank of the line at this place, or 0.
    pub(crate) fn rank(&self, place: usize) -> u32 {
        match self.ranks.get(place) {
            Some(Some(rank)) => *rank,
            _ => 0,
        }
    }
}
