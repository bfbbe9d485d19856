//! Where the chains of the leaders end.

ghost use Rattle.std.specs.Prelude.{◌≡◌, All, IfOk, IsSome, OnOk};
ghost use Rattle.cert_make.specs.Inner.Ends.{AreEnds, IsEnded, IsGiven};

use cfg_model::{Chains, Memory};
use std::alloc::Global;

/// The terminators at which the chains of leaders end.
#[derive(Drop)]
pub(crate) struct Ends {
    /// By the place of a leader, the place of the terminator of its chain.
    pub(crate) of: Vec<usize>,
    /// The addresses of the terminators. Leaders of one chain that follow each other share one.
    pub(crate) terms: Vec<u64>,
}

impl Ends {
    /// The ends of the chains of these leaders. [`Memory`] if memory ran out.
    /// Time: that of finding the end of each chain. Memory: 16 bytes for each leader.
    pub(crate) fn of_leaders<C: Chains>(
        alloc: Global,
        code: &C,
        leaders: &[u64],
    ) -> Result<Ends, Memory>
        requires { All (λ a. IsSome (C.map code.now a)) leaders.now }
        ensures { IfOk result (AreEnds (C.map code.now) leaders.now) }
    {
        let mut ends = Ends {
            of: Vec::new(alloc),
            terms: Vec::new(alloc),
        };
        for a in leaders {
            ends.add(code, *a)?;
        }
        Ok(ends)
    }

    /// Adds the end of the chain of this leader.
    fn add<C: Chains>(&mut self, code: &C, a: u64) -> Result<(), Memory>
        requires { IsSome (C.map code.now a) }
        ensures { OnOk result (IsEnded (C.map code.now) a self.old self.new) }
    {
        let k = code.term(a);
        let place = self.place_for(k)?;
        self.of.push(place)?;
        Ok(())
    }

    /// The place of the terminator `k`: that of the last one, if it is that, and else a new one.
    fn place_for(&mut self, k: u64) -> Result<usize, Memory>
        ensures of { OnOk result (self.new.of ≡ self.old.of) }
        ensures given { IfOk result (IsGiven k self.old.terms.items self.new.terms.items) }
    {
        let count = self.terms.len();
        if count > 0 && self.terms[count - 1] == k {
            return Ok(count - 1);
        }
        self.terms.push(k)?;
        Ok(count)
    }
}
