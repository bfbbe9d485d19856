//! Laws of the compressed table, each proved as the contract of a function that does nothing.

ghost use Rattle.rvc_expand.specs.Laws.{AtMostOneFormHolds, AFormDecides, EachComesFromAForm};
ghost use Rattle.rvc_expand.specs.Laws.{NoneWhereNoFormHolds, NoneOfQuadrant3};

/// At most one form of the compressed table holds of a halfword.
pub fn at_most_one_form_holds()
    ensures { AtMostOneFormHolds }
{}

/// If a form holds of a halfword, the halfword expands to the word of this form.
pub fn a_form_decides()
    ensures { AFormDecides }
{}

/// Each expansion comes from a form that holds of its halfword.
pub fn each_comes_from_a_form()
    ensures { EachComesFromAForm }
{}

/// A halfword does not expand exactly if no form holds of it.
pub fn none_where_no_form_holds()
    ensures { NoneWhereNoFormHolds }
{}

/// No halfword of quadrant 3, whose lowest two bits are 11, expands: it begins an instruction of 32
/// bits or more.
pub fn none_of_quadrant_3()
    ensures { NoneOfQuadrant3 }
{}
