//! Blocks and edges by their addresses.

ghost use Rattle.std.specs.Prelude.{◌<◌, ◌≤◌, ◌-◌, AllPairs, Contains, IfNone, IfSome, IsTrue, length};
ghost use Rattle.std.specs.Prelude.{◌≡◌, drop, slice_index_or, take};
ghost use Rattle.std.specs.List.Sorted.{IsNonDecreasingBy, IsStrictlyIncreasing};
ghost use Rattle.cfg_model.specs.declared.graph.Edge.{Edge};
ghost use Rattle.cfg_model.specs.Graph.Graph.{BlockBefore};
ghost use Rattle.live_regs.specs.Noted.{AreBetween};
ghost use Rattle.live_regs.specs.Inner.{HasBlockAt, IsFirst, IsNumber, IsPlace};

use cfg_model::{Block, Edge};

/// The place of the block that starts at `a`, where there is one: first looked for at `near`.
pub(crate) fn number_near(blocks: &[Block], near: usize, a: u64) -> Option<usize>
    requires { AllPairs BlockBefore blocks.now }
    ensures some { IfSome result (IsNumber blocks.now a) }
    ensures none { IfNone result (¬ HasBlockAt blocks.now a) }
{
    if near < blocks.len() && blocks[near].start == a {
        return Some(near);
    }
    match blocks.binary_search_by_key(&a, |block| block.start) {
        Ok(number) => Some(number),
        Err(_) => None,
    }
}

/// The place of the address `a`, where it is one of these: first looked for at `near`.
pub(crate) fn place_near(addresses: &[u64], near: usize, a: u64) -> Option<usize>
    requires { IsStrictlyIncreasing addresses.now }
    ensures some { IfSome result (IsPlace addresses.now a) }
    ensures none { IfNone result (¬ Contains addresses.now a) }
{
    if near < addresses.len() && addresses[near] == a {
        return Some(near);
    }
    match addresses.binary_search(&a) {
        Ok(place) => Some(place),
        Err(_) => None,
    }
}

/// The place of the first edge that leaves `a` or a later address: first looked for at `near`.
pub(crate) fn first_near(edges: &[Edge], near: usize, a: u64) -> usize
    requires { IsNonDecreasingBy (λ edge. edge.from) edges.now }
    ensures { IsFirst edges.now a result }
{
    if is_first(edges, near, a) {
        near
    } else {
        edges.partition_point(|edge| edge.from < a)
    }
}

/// Whether this is the place of the first edge that leaves `a` or a later address.
fn is_first(edges: &[Edge], place: usize, a: u64) -> bool
    requires { IsNonDecreasingBy (λ edge. edge.from) edges.now }
    ensures { IsTrue result → IsFirst edges.now a place }
{
    if place > edges.len() {
        return false;
    }
    let before = ends_before(edges, place, a);
    let after = begins_after(edges, place, a);
    before && after
}

/// Whether the edge before this place leaves a lower address, where there is one.
fn ends_before(edges: &[Edge], place: usize, a: u64) -> bool
    requires { place ≤ length edges.now }
    ensures { IsTrue result → 0 < place
        → (d : Edge) → (slice_index_or edges.now (place - 1) d).from < a }
{
    place == 0 || edges[place - 1].from < a
}

/// Whether the edge at this place leaves `a` or a later address, where there is one.
fn begins_after(edges: &[Edge], place: usize, a: u64) -> bool
    requires { place ≤ length edges.now }
    ensures { IsTrue result → place < length edges.now
        → (d : Edge) → a ≤ (slice_index_or edges.now place d).from }
{
    place == edges.len() || edges[place].from >= a
}

/// The end of the edges that leave `a`: the place after the last one. They begin at `first`.
pub(crate) fn end_from(edges: &[Edge], first: usize, a: u64) -> usize
    requires in_order { IsNonDecreasingBy (λ edge. edge.from) edges.now }
    requires first { IsFirst edges.now a first }
    ensures { AreBetween edges.now a first result }
{
    let mut end = first;
    while end < edges.len() && edges[end].from == a {
        end += 1;
    }
    end
}

/// The edges from one place on and before another.
pub(crate) fn between(edges: &[Edge], first: usize, end: usize) -> &[Edge]
    requires ordered { first ≤ end }
    requires within { end ≤ length edges.now }
    ensures { result.now ≡ take (end - first) (drop first edges.now) }
{
    &edges[first..end]
}
