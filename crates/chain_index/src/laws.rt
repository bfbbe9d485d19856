//! Laws of the definitions, as contracts of functions that do nothing.

ghost use Rattle.chain_index.specs.Chain.{ChainEndIsUnique};
ghost use Rattle.chain_index.specs.Numbers.{NumbersRise, NumbersAreBelow};

/// A chain has one end: what the definition says of the end of a chain determines it.
pub fn one_chain_end()
    ensures { ChainEndIsUnique }
{}

/// Different code addresses have different numbers, in the same order, and all are below their
/// count.
pub fn numbers_differ()
    ensures rise { NumbersRise }
    ensures below { NumbersAreBelow }
{}
