//! Laws of the answer, as the contract of a function that does nothing.

ghost use Rattle.file_program.specs.Laws.{CutsAreUnique, FileGraphIsUnique};
ghost use Rattle.cfg_run.specs.Laws.{AnswerIsUnique};

/// A file has one graph, under the one way to cut its tables, and a run has one answer: what the
/// definitions say of them determines them.
pub fn one_answer()
    ensures cuts { CutsAreUnique }
    ensures graph { FileGraphIsUnique }
    ensures answer { AnswerIsUnique }
{}
