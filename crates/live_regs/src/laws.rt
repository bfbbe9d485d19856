//! Laws of the definitions, as contracts of a function that does nothing.

ghost use Rattle.live_regs.specs.Unique.{MaskIsUnique, LivesAreUnique, AllLivesAreUnique};

/// What is said of a mask determines it, and so the live registers of a function, and of all.
pub fn one_mask()
    ensures mask { MaskIsUnique }
    ensures lives { LivesAreUnique }
    ensures all { AllLivesAreUnique }
{}
