//! A law of the definitions of `specs/`.

ghost use Rattle.cert_text.specs.Unique.{TextsAreUnique};

/// The text of a certificate determines it.
pub fn one_certificate()
    ensures { TextsAreUnique }
{}
