//! What the leaders are to each other. It does not change from step to step, so it is found once.

ghost use Rattle.std.specs.Prelude.{◌≡◌, ℕ, Contains, IfOk, IsSome, All, map};
ghost use Rattle.std.specs.List.Sorted.{IsStrictlyIncreasing};
ghost use Rattle.cfg_model.specs.Program.Chain.{IsTerminatorOf};
ghost use Rattle.cert_text.specs.declared.lines.LeadLine.{LeadLine};
ghost use Rattle.cert_ends.specs.Places.{AreNumbered};
ghost use Rattle.cert_make.specs.Inner.Links.{AreLinks};
ghost use Rattle.cert_make.specs.Inner.Offers.{TellCall};

use crate::chain_ends::Ends;
use crate::exits::{Exit, exits_of};
use crate::places::Places;
use crate::runs::{Run, runs_of};
use cert_ends::NumberedReturns;
use cert_text::LeadLine;
use cfg_model::Memory;
use numbered::Numbered;
use std::alloc::Global;

/// The blocks of the leaders, the ends of their chains, and the ways from these to the leaders.
#[derive(Drop)]
pub(crate) struct Links {
    /// By the place of a leader, its block.
    pub(crate) runs: Vec<Run>,
    /// The ends of their chains.
    pub(crate) ends: Ends,
    /// The ways from the ends to leaders, those of each end in a row.
    pub(crate) exits: Vec<Exit>,
}

impl Links {
    /// The links of these leaders, of which `lines` has a line each. [`Memory`] if memory ran out.
    ///
    /// `returns` are the terminators that return: they tell which calls come back.
    /// Time: the instructions of all blocks; each end is decoded once.
    /// Memory: 40 bytes for each leader, 24 for each end, 16 for each way, and, meanwhile, four for
    /// each number.
    pub(crate) fn of<C: Numbered>(
        alloc: Global,
        code: &C,
        returns: &NumberedReturns<'_>,
        leaders: &[u64],
        lines: &[LeadLine],
    ) -> Result<Links, Memory>
        requires rise { IsStrictlyIncreasing leaders.now }
        requires stand { All (λ a. IsSome (C.map code.now a)) leaders.now }
        requires lines { map (λ (l : LeadLine). l.at) lines.now ≡ leaders.now }
        requires numbered { AreNumbered (C.map code.now) (C.number code.now) returns.now }
        requires tell { (a k : ℕ) → Contains leaders.now a → IsTerminatorOf (C.map code.now) a k
            → TellCall (C.map code.now) returns.now.lines.now k }
        ensures { IfOk result (AreLinks (C.map code.now) lines.now) }
    {
        let places = Places::new(alloc, code, leaders)?;
        let runs = runs_of(alloc, code, lines)?;
        let ends = Ends::of_leaders(alloc, code, leaders)?;
        let exits = exits_of(alloc, code, returns, &places, ends.terms.as_slice())?;
        Ok(Links { runs, ends, exits })
    }
}
