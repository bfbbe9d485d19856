//! What a hand has taken. It exists in proofs alone.

ghost use Rattle.std.specs.Prelude.{◌≡◌, List, [], ◌∷◌, ◌++◌};
ghost use Rattle.std.specs.Borrow.{ftrue};
ghost use Rattle.core_state.specs.declared.answer.Name.{Name};

use core_state::Name;
use std::marker::Model;

/// One name that was taken.
#[derive(Clone, Copy)]
pub(crate) struct Find {
    pub(crate) name: Name,
}

/// The names that were taken, in order. It takes no bytes.
#[derive(Drop)]
pub(crate) struct Noted {
    pub(crate) ghost names: { List Name },
}

impl Model for Noted {
    ghost also_owns = { λ _. ftrue };
}

impl Noted {
    /// No name yet.
    pub(crate) fn new() -> Noted
        ensures { result.names ≡ [] }
    {
        Noted {}
    }

    /// The names so far, and one more.
    pub(crate) fn with(_before: &Noted, _find: &Find) -> Noted
        ensures { result.names ≡ _before.now.names ++ _find.now.name ∷ [] }
    {
        Noted {}
    }
}

unsafe impl Send for Noted {}
