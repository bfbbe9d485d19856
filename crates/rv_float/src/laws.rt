//! Laws of the float table and of the four compressed forms, each proved as the contract of a
//! function that does nothing.

ghost use Rattle.rv_float.specs.Laws.{AtMostOneRowHolds, TablesAreApart, FormsAreApart};

/// At most one row of the float table holds of a word.
pub fn at_most_one_row_holds()
    ensures { AtMostOneRowHolds }
{}

/// No word is an instruction of both tables.
pub fn tables_are_apart()
    ensures { TablesAreApart }
{}

/// No halfword expands by both tables of compressed forms.
pub fn forms_are_apart()
    ensures { FormsAreApart }
{}
