//! A list of names.

ghost use Rattle.std.specs.Prelude.{◌≡◌};

use core_state::Name;
use std::marker::Model;

/// Names, in order. Contracts see the list.
#[derive(Drop)]
pub struct Names {
    items: Vec<Name>,
}

impl Model for Names {
    ghost use Rattle.std.specs.Prelude.{List};
    ghost use Rattle.core_state.specs.declared.answer.Name.{Name};

    ghost Value = { List Name };

    ghost view = { λ a. a.items.items };
}

impl Names {
    /// The list of these items.
    pub fn from_vec(items: Vec<Name>) -> Self
        ensures { result ≡ items.items }
    {
        Self { items }
    }

    /// The items, in order.
    pub fn as_slice(&self) -> &[Name]
        ensures { result.now ≡ self.now }
    {
        self.items.as_slice()
    }
}
