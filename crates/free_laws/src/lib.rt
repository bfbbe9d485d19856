//! What registers the open machine reads and writes, and that it does not matter what the registers
//! hold that are not live. Each law is proved as the contract of a function that does nothing.
#![tactic(auto)]

ghost use Rattle.free_laws.specs.Steps.{StepsReadWhatIsSaid, StepsWriteWhatIsSaid};
ghost use Rattle.free_laws.specs.Steps.{OpenStepsReadWhatIsSaid, OpenStepsWriteWhatIsSaid};
ghost use Rattle.free_laws.specs.Free.{RunsWithinAreAlike, FreeRegistersAreFree};
ghost use Rattle.free_laws.specs.Free.{MasksSayWhatIsLive};
ghost use Rattle.free_laws.specs.Keeping.{PreparedRunsKeepToGraph};

/// Every step of the written machine depends on the registers alone that its instruction reads, and
/// changes those alone that it writes: as the effects of the instruction say, on which live
/// registers rest. Every step of the open machine depends on those alone too, and changes at most
/// those that its instruction reads or writes. This holds for all bytes of a file, every state and
/// every memory, whatever the surroundings are.
pub fn steps_do_what_is_said()
    ensures reads { StepsReadWhatIsSaid }
    ensures writes { StepsWriteWhatIsSaid }
    ensures open_reads { OpenStepsReadWhatIsSaid }
    ensures open_writes { OpenStepsWriteWhatIsSaid }
{}

/// Two states at the start of a block of a function that differ only in registers that are not live
/// there go the same way on the open machine, with the same surroundings. Within the function they
/// come to the same blocks, by as many steps. They agree there in what is live, and at each
/// instruction in what it is said to read. They leave the function by the same step, and agree in all
/// registers where the block that they leave is one that leaves the function. If one of them keeps to
/// the graph within the function, both make the same steps for ever, with the same memory and hidden
/// state.
///
/// A run keeps to the graph unless it comes to the second half of an address pair without the first,
/// or to a jump through a full table without its bound test. What is live at a block is what its mask
/// in a report says. With surroundings that always end the run these are runs of the written machine,
/// as `open_machine_goes_on` of `open_machine` says.
pub fn free_registers_are_free()
    ensures within { RunsWithinAreAlike }
    ensures always { FreeRegistersAreFree }
    ensures keeps { PreparedRunsKeepToGraph }
    ensures masks { MasksSayWhatIsLive }
{}
