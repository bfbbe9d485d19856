//! Laws of the definitions, as contracts of functions that do nothing.

ghost use Rattle.cfg_model.specs.Program.Cuts.{CutsAreUnique};
ghost use Rattle.cfg_model.specs.Graph.Joined.{EdgesJoinBlocks, EntriesStartBlocks};
ghost use Rattle.cfg_model.specs.Graph.Joined.{BodiesListBlocks};
ghost use Rattle.cfg_model.specs.Graph.Places.{EachAddressHasABlock, BlocksAreApart};
ghost use Rattle.cfg_model.specs.Graph.Unique.{GraphIsUnique, OutlineIsUnique};
ghost use Rattle.cfg_model.specs.Graph.Unique.{BlockIsUnique, FunctionIsUnique};

/// A program has one graph: what the definitions say of a graph determines it, with its order.
pub fn one_graph()
    ensures whole { GraphIsUnique }
    ensures outline { OutlineIsUnique }
    ensures block { BlockIsUnique }
    ensures function { FunctionIsUnique }
{}

/// A program has one map of table cuts: what the definition says of cuts determines them.
pub fn one_map_of_cuts()
    ensures { CutsAreUnique }
{}

/// Whatever a graph names by the address of a block is a block of that graph: both ends of every
/// edge, the entry of every function, and what its body lists.
pub fn parts_are_blocks()
    ensures edges { EdgesJoinBlocks }
    ensures entries { EntriesStartBlocks }
    ensures bodies { BodiesListBlocks }
{}

/// Every reachable address lies in one block of an outline, and in no other.
pub fn one_block_for_each_address()
    ensures each { EachAddressHasABlock }
    ensures apart { BlocksAreApart }
{}
