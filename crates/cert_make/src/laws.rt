//! Laws of canonical certificates.

ghost use Rattle.cert_make.specs.Canonical.{CanonicalIsUnique};
ghost use Rattle.cert_make.specs.Validity.{CanonicalIsValid};
ghost use Rattle.cert_make.specs.Ranked.{ReturnsHaveRanks, LeadersHaveRanks};

/// A program has one canonical part.
pub fn one_part()
    ensures { CanonicalIsUnique }
{}

/// The terminators with ranks are exactly those that return.
pub fn returns_have_ranks()
    ensures { ReturnsHaveRanks }
{}

/// The addresses with ranks are exactly the leaders.
pub fn leaders_have_ranks()
    ensures { LeadersHaveRanks }
{}

/// The canonical part of a program is valid.
pub fn a_canonical_part_is_valid()
    ensures { CanonicalIsValid }
{}
