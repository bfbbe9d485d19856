//! The canonical part.

ghost use Rattle.std.specs.Prelude.{◌↔◌, ℕ, Contains, IfOk};
ghost use Rattle.std.specs.List.Sorted.{IsStrictlyIncreasing};
ghost use Rattle.cfg_model.specs.Program.Reach.{AreSeeds};
ghost use Rattle.cfg_model.specs.Graph.Leader.{IsLeader};
ghost use Rattle.cert_make.specs.Canonical.{IsCanonical, ReturnsReached};

use crate::leads::lead_lines;
use crate::returns::return_lines;
use crate::runs::know_laws;
use cert_text::{LeadLines, Part, ReturnLines};
use cfg_model::Memory;
use numbered::Numbered;
use std::alloc::Global;

/// The canonical part of a certificate of this program, of all its leaders and all its reached
/// terminators that return. [`Memory`] if memory ran out.
///
/// Time: that of [`return_lines`] and [`lead_lines`], which do not walk a chain twice.
/// Memory: 40 bytes for each line, twice, and what those two use.
pub fn canonical_part<C: Numbered>(
    alloc: Global,
    code: &C,
    seeds: &[u64],
    leaders: &[u64],
    returns: &[u64],
) -> Result<Part, Memory>
    requires seeds { AreSeeds (C.map code.now) seeds.now }
    requires leaders_rise { IsStrictlyIncreasing leaders.now }
    requires leaders { (a : ℕ) → Contains leaders.now a ↔ IsLeader (C.map code.now) seeds.now a }
    requires returns_rise { IsStrictlyIncreasing returns.now }
    requires returns { (k : ℕ)
        → Contains returns.now k ↔ ReturnsReached (C.map code.now) seeds.now k }
    ensures { IfOk result (λ part. IsCanonical (C.map code.now) seeds.now part) }
{
    know_laws(code);
    let returns = return_lines(alloc, code, returns)?;
    let leads = lead_lines(alloc, code, seeds, returns.as_slice(), leaders)?;
    Ok(Part {
        returns: ReturnLines::from_vec(returns),
        leads: LeadLines::from_vec(leads),
    })
}
