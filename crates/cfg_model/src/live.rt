//! Live registers of the blocks of functions as plain data, and their lists.

ghost use Rattle.std.specs.Prelude.{◌≡◌};

use std::marker::Model;

/// A block of a function, and the integer registers whose value on entry may still be used there.
#[derive(Clone, Copy, Debug, PartialEq, Eq)]
pub struct Live {
    /// The address of the block's first instruction.
    pub block: u64,
    /// Bit r stands for register xr. Bit 0 is 0.
    pub mask: u32,
}

/// The live registers of one function: one item for each block of its body.
#[derive(Drop)]
pub struct Lives {
    items: Vec<Live>,
}

impl Model for Lives {
    ghost use Rattle.std.specs.Prelude.{List};
    ghost use Rattle.cfg_model.specs.declared.live.Live.{Live};

    ghost Value = { List Live };

    ghost view = { λ a. a.items.items };
}

impl Lives {
    /// The list of these items.
    pub fn from_vec(items: Vec<Live>) -> Self
        ensures { result ≡ items.items }
    {
        Self { items }
    }

    /// The items, in order.
    pub fn as_slice(&self) -> &[Live]
        ensures { result.now ≡ self.now }
    {
        self.items.as_slice()
    }
}

/// The live registers of all functions: one item for each function.
#[derive(Drop)]
pub struct AllLives {
    items: Vec<Lives>,
}

impl Model for AllLives {
    ghost use Rattle.std.specs.Prelude.{List};
    ghost use Rattle.cfg_model.specs.declared.live.Lives.{Lives};

    ghost Value = { List Lives };

    ghost view = { λ a. a.items.items };
}

impl AllLives {
    /// The list of these items.
    pub fn from_vec(items: Vec<Lives>) -> Self
        ensures { result ≡ items.items }
    {
        Self { items }
    }

    /// The items, in order.
    pub fn as_slice(&self) -> &[Lives]
        ensures { result.now ≡ self.now }
    {
        self.items.as_slice()
    }
}
