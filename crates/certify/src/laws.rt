//! Laws of the canonical certificate of a file, as the contract of a function that does nothing.

ghost use Rattle.certify.specs.Laws.{CanonicalOfFileIsUnique, CanonicalOfFileIsValid};
ghost use Rattle.certify.specs.Laws.{CanonicalOfFileRises};

/// A file has one canonical certificate. It is a valid one, so that whoever tests it says yes, and
/// its lists rise, so that it has a text.
pub fn one_canonical_certificate()
    ensures one { CanonicalOfFileIsUnique }
    ensures valid { CanonicalOfFileIsValid }
    ensures rises { CanonicalOfFileRises }
{}
