//! Laws of the answer, as the contract of a function that does nothing.

ghost use Rattle.walk_run.specs.Laws.{WalkAnswerIsUnique};

/// A run has one answer: what the definitions say of it determines it.
pub fn one_walk_answer()
    ensures { WalkAnswerIsUnique }
{}
