//! The ways of a graph.

ghost use Rattle.std.specs.Prelude.{◌≡◌, ◌<◌, ◌≤◌, All, IsTrue, OnOk, length, slice_set, sum};
ghost use Rattle.mask_flow.specs.Reaches.{IsWithin};
ghost use Rattle.mask_flow.specs.Inner.{passed, AreLinked, IsSettled};

use std::alloc::{AllocError, Global};

/// A way from one node of a graph to another. Nodes are numbered from 0.
#[derive(Clone, Copy, Debug, PartialEq, Eq)]
pub struct Way {
    pub from: usize,
    pub to: usize,
}

impl Way {
    /// Hands the bits of the node that the way enters to the one that it leaves, but for those that
    /// stop there. Answers whether that has more bits now.
    pub(crate) fn pass(self, stops: &[u32], masks: &mut [u32]) -> bool
        requires within { IsWithin (length masks.old) self }
        requires stops { length stops.now ≡ length masks.old }
        ensures new { masks.new ≡ slice_set masks.old self.from (passed stops.now masks.old self) }
        ensures grows { sum masks.old ≤ sum masks.new }
        ensures more { IsTrue result → sum masks.old < sum masks.new }
        ensures same { ¬ IsTrue result → masks.new ≡ masks.old }
        ensures settled { ¬ IsTrue result → IsSettled stops.now masks.old self }
    {
        let old = masks[self.from];
        let new = old | masks[self.to] & !stops[self.from];
        masks[self.from] = new;
        new != old
    }
}

/// The ways by the node that they enter: for each node the number of one of them, and for each way
/// the number of another one into the same node. A number is one above the place of the way in the
/// list of all ways, and 0 stands for none.
#[derive(Drop)]
pub(crate) struct Entering {
    pub(crate) lasts: Vec<usize>,
    pub(crate) others: Vec<usize>,
}

impl Entering {
    /// No ways.
    pub(crate) fn new(alloc: Global) -> Entering {
        Entering {
            lasts: Vec::new(alloc),
            others: Vec::new(alloc),
        }
    }

    /// Takes these ways in place of what was there. They lead among `nodes` nodes.
    pub(crate) fn begin(&mut self, nodes: usize, ways: &[Way]) -> Result<(), AllocError>
        requires { All (IsWithin nodes) ways.now }
        ensures { OnOk result (AreLinked nodes (length ways.now) self.new) }
    {
        self.lasts.clear();
        self.lasts.resize(nodes, 0)?;
        self.others.clear();
        for way in ways {
            self.others.push(self.lasts[way.to])?;
            self.lasts[way.to] = self.others.len();
        }
        Ok(())
    }
}
