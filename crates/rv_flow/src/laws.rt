//! What the compressed table and the instruction table keep together, each law proved as the
//! contract of a function that does nothing. So a 16-bit instruction has a meaning exactly if it
//! has an expansion, and the meaning is the one that the compressed table names.

ghost use Rattle.rv_flow.specs.Laws.{EveryExpansionDecodes, EachWordIsItsInstruction};

/// Every expansion of a halfword is a word of the instruction table.
pub fn every_expansion_decodes()
    ensures { EveryExpansionDecodes }
{}

/// Each word that the compressed table writes is the instruction of that name, with the registers
/// and the immediate that were written.
pub fn each_word_is_its_instruction()
    ensures { EachWordIsItsInstruction }
{}
