//! A program whose addresses are numbered.

use cfg_model::Chains;

/// A program that has a number for each address of an instruction, so that what is known of it can
/// be kept in an array.
pub trait Numbered: Chains {
    ghost use Rattle.std.specs.Prelude.{◌≡◌, ◌≢◌, ℕ, IsSome, MatchOption};
    ghost use Rattle.cfg_model.specs.Program.Instructions.{IsLawful};
    ghost use Rattle.numbered.specs.Numbering.{IsNumbering, NumbersRise};

    /// The number of each address.
    ghost number: { Self → ℕ → ℕ };

    /// How many numbers there are: all are below.
    fn numbers(&self) -> u32
        ensures numbers { IsNumbering (Self.map self.now) (number self.now) result }
        ensures rise { NumbersRise (Self.map self.now) (number self.now) }
        ensures lawful { IsLawful (Self.map self.now) };

    /// The number of the address `a` of an instruction.
    fn number(&self, a: u64) -> u32
        requires { IsSome (Self.map self.now a) }
        ensures { result ≡ number self.now a };

    /// The address of the instruction with the number `n`; `None` exactly if none has it.
    fn address(&self, n: u32) -> Option<u64>
        ensures { MatchOption result
            ((a : ℕ) → IsSome (Self.map self.now a) → n ≢ number self.now a)
            (λ a. IsSome (Self.map self.now a) × (n ≡ number self.now a)) };
}
