//! The lines of a certificate: leaders, and terminators that return. Each has a rank, which is
//! above the ranks of the lines that its reason rests on.

ghost use Rattle.std.specs.Prelude.{◌≡◌};

use std::marker::Model;

/// Why a terminator returns.
#[derive(Clone, Copy, Debug, PartialEq, Eq)]
pub enum ReturnWhy {
    /// It returns by itself.
    Itself,
    /// Control goes on to `target`, and the terminator of the chain there returns.
    To {
        /// The address of a successor within the function.
        target: u64,
    },
    /// It is a call, and both its target and the instruction after it lead to a terminator that
    /// returns.
    CallBoth,
}

/// A terminator that returns.
#[derive(Clone, Copy, Debug, PartialEq, Eq)]
pub struct ReturnLine {
    /// The address of the terminator.
    pub at: u64,
    /// Above the ranks of all lines of returns that the reason rests on.
    pub rank: u64,
    /// The reason.
    pub why: ReturnWhy,
}

/// Why an address is a leader.
#[derive(Clone, Copy, Debug, PartialEq, Eq)]
pub enum LeadWhy {
    /// It is one of the entries from which the graph is built.
    Seed,
    /// The terminator of the chain of the leader `lead` goes here: by a jump or a call, or past a
    /// call that returns.
    From {
        /// The address of a leader.
        lead: u64,
    },
    /// Two chains meet here, one by an instruction of two bytes and one by an instruction of four.
    Join {
        /// A leader whose chain has the two-byte instruction.
        first: u64,
        /// A leader whose chain has the four-byte instruction.
        second: u64,
    },
}

/// A leader.
#[derive(Clone, Copy, Debug, PartialEq, Eq)]
pub struct LeadLine {
    /// The address of the leader.
    pub at: u64,
    /// Above the ranks of all lines of leaders that the reason rests on.
    pub rank: u64,
    /// The reason.
    pub why: LeadWhy,
}

/// A list of terminators that return. Making or reading it takes no memory.
#[derive(Drop)]
pub struct ReturnLines {
    items: Vec<ReturnLine>,
}

impl Model for ReturnLines {
    ghost use Rattle.std.specs.Prelude.{List};
    ghost use Rattle.cert_text.specs.declared.lines.ReturnLine.{ReturnLine};

    ghost Value = { List ReturnLine };

    ghost view = { λ a. a.items.items };
}

impl ReturnLines {
    /// The list of these items.
    pub fn from_vec(items: Vec<ReturnLine>) -> Self
        ensures { result ≡ items.items }
    {
        Self { items }
    }

    /// The items, in order.
    pub fn as_slice(&self) -> &[ReturnLine]
        ensures { result.now ≡ self.now }
    {
        self.items.as_slice()
    }
}

/// A list of leaders. Making or reading it takes no memory.
#[derive(Drop)]
pub struct LeadLines {
    items: Vec<LeadLine>,
}

impl Model for LeadLines {
    ghost use Rattle.std.specs.Prelude.{List};
    ghost use Rattle.cert_text.specs.declared.lines.LeadLine.{LeadLine};

    ghost Value = { List LeadLine };

    ghost view = { λ a. a.items.items };
}

impl LeadLines {
    /// The list of these items.
    pub fn from_vec(items: Vec<LeadLine>) -> Self
        ensures { result ≡ items.items }
    {
        Self { items }
    }

    /// The items, in order.
    pub fn as_slice(&self) -> &[LeadLine]
        ensures { result.now ≡ self.now }
    {
        self.items.as_slice()
    }
}
