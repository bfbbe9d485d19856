//! What tests assert. Each call ends the test if it does not hold; the report names the place of
//! the call, and `case` says which of many cases failed.
//!
//! An `assert_eq!` in a test is proved where it stands, with all of its printing. These are proved
//! once, and a call takes a fortieth of that time. They end the program, as no library may here: so
//! each crate of tests has this file, with the same text.

ghost use Rattle.std.specs.Prelude.{IsTrue};

use std::cmp::PartialEq;
use std::fmt::Debug;
use std::process::Abort;

/// Both are the same.
pub(crate) fn same<T: PartialEq + Debug>(rt: &impl Abort, got: &T, want: &T) {
    assert_eq!(rt; *got, *want);
}

/// Both are the same in this case.
pub(crate) fn same_at<T: PartialEq + Debug>(rt: &impl Abort, case: &impl Debug, got: &T, want: &T) {
    assert_eq!(rt; *got, *want, "case {case:?}");
}

/// It holds.
pub(crate) fn holds(rt: &impl Abort, fact: bool)
    ensures { IsTrue fact }
{
    assert!(rt; fact);
}

/// It holds in this case.
pub(crate) fn holds_at(rt: &impl Abort, case: &impl Debug, fact: bool)
    ensures { IsTrue fact }
{
    assert!(rt; fact, "case {case:?}");
}
