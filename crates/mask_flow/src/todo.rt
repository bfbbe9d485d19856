//! The nodes that are to be looked at again.

ghost use Rattle.std.specs.Prelude.{◌≡◌, ◌+◌, ◌<◌, ◌≤◌, All, IfSome, OnOk, length, vec_len};

use std::alloc::{AllocError, Global};

/// The nodes that are to be looked at again, each once: the last one is the next.
#[derive(Drop)]
pub(crate) struct Todo {
    pub(crate) nodes: Vec<usize>,
    /// For each node whether it is among them.
    pub(crate) waits: Vec<bool>,
    ghost known: { All (λ node. node < length waits.items) nodes.items },
}

impl Todo {
    /// None.
    pub(crate) fn new(alloc: Global) -> Todo {
        Todo {
            nodes: Vec::new(alloc),
            waits: Vec::new(alloc),
        }
    }

    /// All nodes below the number `nodes`. The greatest one is the next.
    pub(crate) fn begin(&mut self, nodes: usize) -> Result<(), AllocError>
        ensures { OnOk result (length self.new.waits.items ≡ nodes) }
    {
        self.nodes.clear();
        self.waits.clear();
        self.waits.resize(nodes, true)?;
        for node in 0..nodes {
            self.nodes.push(node)?;
        }
        Ok(())
    }

    /// Takes the next node.
    pub(crate) fn take(&mut self) -> Option<usize>
        ensures as_many { length self.new.waits.items ≡ length self.old.waits.items }
        ensures some { IfSome result (λ node. (node < length self.old.waits.items)
            × (vec_len self.new.nodes + 1 ≡ vec_len self.old.nodes)) }
    {
        let node = self.nodes.pop()?;
        self.waits[node] = false;
        Some(node)
    }

    /// Adds a node, unless it is among them.
    pub(crate) fn add(&mut self, node: usize) -> Result<(), AllocError>
        requires { node < length self.old.waits.items }
        ensures as_many { length self.new.waits.items ≡ length self.old.waits.items }
        ensures one { vec_len self.new.nodes ≤ vec_len self.old.nodes + 1 }
    {
        if !self.waits[node] {
            self.waits[node] = true;
            self.nodes.push(node)?;
        }
        Ok(())
    }
}
