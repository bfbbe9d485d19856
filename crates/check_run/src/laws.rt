//! Laws of the answer, as the contract of a function that does nothing.

ghost use Rattle.check_run.specs.Laws.{CheckAnswerIsUnique};

/// A run has one answer: what the definitions say of it determines it.
pub fn one_check_answer()
    ensures { CheckAnswerIsUnique }
{}
