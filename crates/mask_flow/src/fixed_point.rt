//! The least fixed point.

ghost use Rattle.std.specs.Prelude.{◌≡◌, ◌+◌, ◌<◌, ◌≤◌, All, IsTrue, OnOk, length, sum, vec_len};
ghost use Rattle.mask_flow.specs.Reaches.{IsWithin, HaveAll};
ghost use Rattle.mask_flow.specs.Inner.{AreLinked, IsSettled, KeepsSpread};

use crate::todo::Todo;
use crate::ways::{Entering, Way};
use std::alloc::{AllocError, Global};

/// What is kept from one graph to the next, so that memory is asked for seldom.
#[derive(Drop)]
pub struct Spreading {
    entering: Entering,
    todo: Todo,
}

impl Spreading {
    /// Nothing is kept yet.
    pub fn new(alloc: Global) -> Spreading {
        Spreading {
            entering: Entering::new(alloc),
            todo: Todo::new(alloc),
        }
    }
}

/// Spreads the masks of the nodes of a graph backwards along its ways, but for the bits that stop at
/// the node that a way leaves, until no way changes anything. On [`AllocError`], which means that
/// memory ran out, the masks have some of these bits.
///
/// Time: O(ways x 32) at most, and mostly O(ways). Memory: O(nodes + ways).
pub fn spread(
    spreading: &mut Spreading,
    ways: &[Way],
    stops: &[u32],
    masks: &mut [u32],
) -> Result<(), AllocError>
    requires within { All (IsWithin (length masks.old)) ways.now }
    requires stops { length stops.now ≡ length masks.old }
    ensures { OnOk result (HaveAll masks.old stops.now ways.now masks.new) }
{
    hurry(spreading, ways, stops, masks)?;
    while look(ways, stops, masks) {}
    Ok(())
}

/// Spreads the masks, a node after another: whenever one has more bits, the ways into it are tried.
/// That no bit is missing then is not needed.
fn hurry(
    spreading: &mut Spreading,
    ways: &[Way],
    stops: &[u32],
    masks: &mut [u32],
) -> Result<(), AllocError>
    requires within { All (IsWithin (length masks.old)) ways.now }
    requires stops { length stops.now ≡ length masks.old }
    ensures keeps { KeepsSpread stops.now ways.now masks.old masks.new }
{
    spreading.entering.begin(stops.len(), ways)?;
    spreading.todo.begin(stops.len())?;
    while let Some(node) = spreading.todo.take() {
        visit(
            &spreading.entering,
            node,
            ways,
            stops,
            masks,
            &mut spreading.todo,
        )?;
    }
    Ok(())
}

/// Tries the ways into this node. The nodes that have more bits then are to be looked at again.
fn visit(
    entering: &Entering,
    node: usize,
    ways: &[Way],
    stops: &[u32],
    masks: &mut [u32],
    todo: &mut Todo,
) -> Result<(), AllocError>
    requires within { All (IsWithin (length masks.old)) ways.now }
    requires stops { length stops.now ≡ length masks.old }
    requires linked { AreLinked (length masks.old) (length ways.now) entering.now }
    requires node { node < length masks.old }
    requires todo { length todo.old.waits.items ≡ length masks.old }
    ensures keeps { KeepsSpread stops.now ways.now masks.old masks.new }
    ensures todo { length todo.new.waits.items ≡ length masks.old }
    ensures ends { vec_len todo.new.nodes + sum masks.old ≤ vec_len todo.old.nodes + sum masks.new }
{
    let mut number = entering.lasts[node];
    while number > 0 {
        let way = ways[number - 1];
        if way.pass(stops, masks) {
            todo.add(way.from)?;
        }
        number = entering.others[number - 1];
    }
    Ok(())
}

/// Tries all ways. Answers whether a node has more bits now.
fn look(ways: &[Way], stops: &[u32], masks: &mut [u32]) -> bool
    requires within { All (IsWithin (length masks.old)) ways.now }
    requires stops { length stops.now ≡ length masks.old }
    ensures keeps { KeepsSpread stops.now ways.now masks.old masks.new }
    ensures more { IsTrue result → sum masks.old < sum masks.new }
    ensures settled { ¬ IsTrue result → All (IsSettled stops.now masks.old) ways.now }
    ensures same { ¬ IsTrue result → masks.new ≡ masks.old }
{
    let mut more = false;
    for way in ways {
        if way.pass(stops, masks) {
            more = true;
        }
    }
    more
}
