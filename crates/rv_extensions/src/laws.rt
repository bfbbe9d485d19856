//! Laws of the two tables of extensions, each proved as the contract of a function that does
//! nothing.

ghost use Rattle.rv_extensions.specs.Laws.{AtMostOneRowHolds, AtMostOneFormHolds, TablesAreApart};
ghost use Rattle.rv_extensions.specs.Laws.{FormsAreApart, UnnamedIsNone};

/// At most one row of the table holds of a word.
pub fn at_most_one_row_holds()
    ensures { AtMostOneRowHolds }
{}

/// At most one compressed form holds of a halfword.
pub fn at_most_one_form_holds()
    ensures { AtMostOneFormHolds }
{}

/// An instruction of an extension is none of RV64GC.
pub fn tables_are_apart()
    ensures { TablesAreApart }
{}

/// A compressed form of an extension is none of RV64GC.
pub fn forms_are_apart()
    ensures { FormsAreApart }
{}

/// Of a file that names no extension nothing is an instruction of one.
pub fn unnamed_is_none()
    ensures { UnnamedIsNone }
{}
