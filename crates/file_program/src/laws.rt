//! Laws of the graph of a file, as the contract of a function that does nothing.

ghost use Rattle.file_program.specs.Laws.{CutsAreUnique, FileGraphIsUnique};

/// A file has one graph, under the one way to cut its jump tables: what the definitions say of them
/// determines them.
pub fn one_graph_of_a_file()
    ensures cuts { CutsAreUnique }
    ensures graph { FileGraphIsUnique }
{}
