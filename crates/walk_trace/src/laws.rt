//! A law of traces, as the contract of a function that does nothing.

ghost use Rattle.walk_trace.specs.Laws.{EntryIsEntered, EdgesAreEntered};

/// In the graph of a program each walk enters a block first, and each step along an edge enters
/// one. So `end left` comes right after an `out` alone.
pub fn a_walk_leaves_by_out_alone()
    ensures entry { EntryIsEntered }
    ensures edges { EdgesAreEntered }
{}
