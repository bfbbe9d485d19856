//! A whole run of the open machine stays in the graph of its program, across calls and returns, and
//! what the graph calls no-return does not return. The laws are proved as the contract of a function
//! that does nothing.
#![tactic(auto)]

ghost use Rattle.run_laws.specs.Whole.{OfEachFile, RunsStay, ReturnsAreSaid};
ghost use Rattle.run_laws.specs.Whole.{NoReturnIsNotTaken, NoReturnNeverEnds, ReturnsHaveEdges};

/// An orderly run that begins at a seed, or at the entry of a function of the graph, stays in the
/// graph, however long it is. Every address that it executes lies in a block. Every step stays within
/// its block or goes along an edge; or it returns, is unwound, goes through a register to a function
/// of the graph, or goes to where no code is. No function that the graph calls no-return returns, and
/// a return goes back to a call only along its edge of kind `after`.
///
/// A run is orderly if what its report does not know is as compiled code does it: a return goes back
/// to the last call that has not come back, an unknown jump or a call through a register goes to the
/// entry of a function, a jump through an open or a cut table to a kept target, and what is unwound
/// lands at the pad of a call. It comes to the second half of an address pair from the first, and to
/// a jump through a full table through its bound test.
///
/// The steps are those of the written machine and of its surroundings, whatever these are: they go
/// straight on. With surroundings that always end the run, it is one of the written machine.
pub fn whole_runs_stay_in_the_graph()
    ensures stays { OfEachFile RunsStay }
    ensures returns { OfEachFile ReturnsAreSaid }
    ensures not_taken { OfEachFile NoReturnIsNotTaken }
    ensures never_ends { OfEachFile NoReturnNeverEnds }
    ensures edges { OfEachFile ReturnsHaveEdges }
{}
