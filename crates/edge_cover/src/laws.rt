//! Steps of the written machine go along the edges of the graph of its program.

ghost use Rattle.edge_cover.specs.Cover.{StepsAreCovered, PairsAreCovered, TableRunsAreCovered};
ghost use Rattle.edge_cover.specs.Fixed.{FixedBytesStay};
ghost use Rattle.edge_cover.specs.OpenCover.{OpenStepsAreCovered, OpenPairsAreCovered};
ghost use Rattle.edge_cover.specs.OpenCover.{OpenTableRunsAreCovered, OpenFixedBytesStay};

/// Every step of the machine stays within its block, goes along an edge, or leaves a block whose
/// kind says that control may leave it. This holds for every accepted file, all cuts that fit, all
/// seeds, and every state whose program counter is reachable.
///
/// Two kinds of steps depend on those before them. A step at the JALR of a pair is covered right
/// after the step at its LUI or AUIPC. A jump through a full table with a bound test goes along an
/// edge of kind `table`, if it ends a run that sets the limit of the test and then goes through the
/// test.
pub fn every_step_is_covered()
    ensures steps { StepsAreCovered }
    ensures pairs { PairsAreCovered }
    ensures tables { TableRunsAreCovered }
{}

/// The same of the open machine, whatever its surroundings are: every step, also one of the
/// surroundings, stays within its block, goes along an edge, or leaves a block whose kind says that
/// control may leave it. No surroundings change this, since their steps go straight on. Between the
/// bound test of a full table and its jump they are to make none.
pub fn every_open_step_is_covered()
    ensures steps { OpenStepsAreCovered }
    ensures pairs { OpenPairsAreCovered }
    ensures tables { OpenTableRunsAreCovered }
{}

/// No store of the machine changes a byte of a code section or of a read-only section. So the code
/// whose graph is known is the code that runs. This holds for all bytes of a file, every state and
/// any number of steps.
pub fn fixed_bytes_stay()
    ensures fixed_bytes { FixedBytesStay }
{}

/// The same of runs of the open machine whose surroundings change no such byte.
pub fn fixed_bytes_stay_in_the_open()
    ensures fixed_bytes { OpenFixedBytesStay }
{}
