//! The open machine: the written machine of `rv_machine`, and surroundings that make the steps that
//! it does not. Definitions, and what ties them to the written machine.
#![tactic(auto)]

ghost use Rattle.open_machine.specs.Laws.{WrittenStepsAreOpen, AloneItIsTheWritten};

/// The open machine goes on wherever the written one does, and in the same way. With surroundings
/// that always end the run it goes on nowhere else.
pub fn open_machine_goes_on()
    ensures written { WrittenStepsAreOpen }
    ensures alone { AloneItIsTheWritten }
{}
