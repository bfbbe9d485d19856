//! The canonical part of a program.

ghost use Rattle.std.specs.Prelude.{IfOk};
ghost use Rattle.cfg_model.specs.Program.Reach.{AreSeeds};
ghost use Rattle.reached_terms.specs.Reached.{AreReachedTerms};
ghost use Rattle.cert_make.specs.Canonical.{IsCanonical};

use crate::Memory;
use cert_make::canonical_part;
use cert_text::Part;
use numbered::Numbered;
use reached_graph::leaders_of;
use reached_terms::ReachedTerms;
use std::alloc::Global;

/// The canonical part of a certificate of the program `code` from its seeds, from what it reaches.
/// [`Memory`] if memory ran out.
///
/// Time and memory: those of finding the leaders and the terminators that return, and of
/// [`canonical_part`].
pub fn part_reached<C: Numbered>(
    alloc: Global,
    code: &C,
    seeds: &[u64],
    reached: &ReachedTerms,
) -> Result<Part, Memory>
    requires seeds { AreSeeds (C.map code.now) seeds.now }
    requires reached { AreReachedTerms (C.map code.now) (C.number code.now) seeds.now
        reached.now }
    ensures canonical { IfOk result (IsCanonical (C.map code.now) seeds.now) }
{
    let leaders = leaders_of(alloc, code, reached)?;
    let returns = reached.returning(alloc, code)?;
    Ok(canonical_part(alloc, code, seeds, &leaders, &returns)?)
}
