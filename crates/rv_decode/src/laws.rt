//! Laws of the instruction table, each proved as the contract of a function that does nothing.

ghost use Rattle.rv_decode.specs.Laws.{AtMostOneRowHolds, ARowDecides, EachComesFromARow};
ghost use Rattle.rv_decode.specs.Laws.{NoneWhereNoRowHolds, EachHas32Bits};

/// At most one row of the instruction table holds of a word.
pub fn at_most_one_row_holds()
    ensures { AtMostOneRowHolds }
{}

/// If a row holds of a word, the word is the instruction that this row means.
pub fn a_row_decides()
    ensures { ARowDecides }
{}

/// Each instruction comes from a row that holds of its word.
pub fn each_comes_from_a_row()
    ensures { EachComesFromARow }
{}

/// A word is no instruction exactly if no row holds of it.
pub fn none_where_no_row_holds()
    ensures { NoneWhereNoRowHolds }
{}

/// An instruction's word is in the encoding space of 32-bit instructions.
pub fn each_has_32_bits()
    ensures { EachHas32Bits }
{}
