//! Whether a part of a certificate is valid for a program.

ghost use Rattle.std.specs.Prelude.{◌≡◌, ◌↔◌, ℕ, All, Contains, IfOk, IsTrue, MatchOption};
ghost use Rattle.std.specs.List.Sorted.{IsStrictlyIncreasing};
ghost use Rattle.cfg_model.specs.Program.Instructions.{IsLawful};
ghost use Rattle.cert_laws.specs.Valid.{AreInCode, BlocksAreApart, IsValid, LeadsBy};
ghost use Rattle.cert_ends.specs.Places.{AreLeads, AreNumbered, LeadsRise, ReturnsRise};
ghost use Rattle.cert_check.specs.Inner.Blocks.{AreBlocks};
ghost use Rattle.cert_check.specs.Inner.Right.{AreFormed, EndsAreRight, HaveReasons};
ghost use Rattle.cert_check.specs.Inner.Right.{LeadersAreRight, LeadsAreRight};
ghost use Rattle.cert_check.specs.Inner.Outlined.{AreOutlined};
ghost use Rattle.cert_check.specs.Inner.Ways.{AreWays};
ghost use Rattle.cfg_model.specs.Graph.Graph.{IsOutline};

use crate::blocks::{Blocks, blocks_of};
use crate::closed::leads_are_closed;
use crate::edges::edges_of;
use crate::jumps::jumps_of;
use crate::known::{are_in_code, seeds_lead};
use crate::leads::{Reasons, leads_have_reasons};
use crate::outline::blocks_made;
use cert_ends::{
    NumberedReturns, ends_of, part_rises, returns_are_closed, returns_end, returns_have_reasons,
};
use cert_text::Part;
use cfg_model::{Chains, Edge, Edges, Memory, Outline};
use numbered::Numbered;
use std::alloc::Global;

/// The blocks and edges of the program `code`, whose seeds are these, if the part of a certificate is
/// valid for it: each line has a reason by lines of lower rank, and no line is missing. `None` exactly
/// if it is not. Nothing is asked of the part or the seeds. [`Memory`] if memory ran out.
///
/// Time: O(bytes of code + n · log n), where n counts the lines, the seeds, and the addresses that
/// the ends of the leaders' chains name or have in their jump tables. Each address of code is walked
/// once, whatever the part says.
/// Memory: eight bytes for each halfword of code, and O(n).
pub fn outline_of_part<C: Numbered>(
    alloc: Global,
    code: &C,
    seeds: &[u64],
    part: &Part,
) -> Result<Option<Outline>, Memory>
    ensures { IfOk result (λ found. MatchOption found
        (¬ IsValid (C.map code.now) seeds.now part.now)
        (λ outline. IsValid (C.map code.now) seeds.now part.now
        × IsOutline (C.map code.now) seeds.now outline.blocks outline.edges)) }
{
    know_laws(code);
    if !is_formed(code, seeds, part) {
        return Ok(None);
    }
    let returns = NumberedReturns::new(alloc, code, part.returns.as_slice())?;
    if !ends_are_right(alloc, code, part, &returns)? {
        return Ok(None);
    }
    let found = leaders_outlined(alloc, code, seeds, part, &returns)?;
    Ok(found)
}

/// Whether the lists rise, each line is of an instruction, and each seed is a leader.
fn is_formed<C: Chains>(code: &C, seeds: &[u64], part: &Part) -> bool
    ensures exact { IsTrue result ↔ AreFormed (C.map code.now) seeds.now part.now }
    ensures leads { IsTrue result → LeadsRise part.now.leads }
    ensures returns { IsTrue result → ReturnsRise part.now.returns }
{
    if !part_rises(part) {
        return false;
    }
    if !are_in_code(code, part) {
        return false;
    }
    seeds_lead(part.leads.as_slice(), seeds)
}

/// Whether the part is right about the ends of its leaders' chains: which of them return, and why.
fn ends_are_right<C: Numbered>(
    alloc: Global,
    code: &C,
    part: &Part,
    returns: &NumberedReturns<'_>,
) -> Result<bool, Memory>
    requires numbered { AreNumbered (C.map code.now) (C.number code.now) returns.now }
    requires returns { returns.now.lines.now ≡ part.now.returns }
    requires in_code { AreInCode (C.map code.now) part.now }
    ensures { IfOk result (λ b. IsTrue b ↔ EndsAreRight (C.map code.now) part.now) }
{
    let ends = ends_of(alloc, code, part.leads.as_slice())?;
    if !returns_end(code, part, ends.as_slice()) {
        return Ok(false);
    }
    if !returns_have_reasons(alloc, code, part, returns)? {
        return Ok(false);
    }
    let closed = returns_are_closed(alloc, code, part, returns, ends.as_slice())?;
    Ok(closed)
}

/// The blocks of the leaders and the edges from them, if the blocks share no address, no leader is
/// missing, and the reason of each holds.
fn leaders_outlined<C: Numbered>(
    alloc: Global,
    code: &C,
    seeds: &[u64],
    part: &Part,
    returns: &NumberedReturns<'_>,
) -> Result<Option<Outline>, Memory>
    requires leads { AreLeads (C.map code.now) part.now.leads }
    requires numbered { AreNumbered (C.map code.now) (C.number code.now) returns.now }
    requires returns { returns.now.lines.now ≡ part.now.returns }
    ensures { IfOk result (λ found. MatchOption found
        (¬ LeadersAreRight (C.map code.now) seeds.now part.now)
        (λ outline. LeadersAreRight (C.map code.now) seeds.now part.now
        × AreOutlined (C.map code.now) part.now outline)) }
{
    match blocks_of(alloc, code, part.leads.as_slice())? {
        Some(blocks) => {
            let found = outline_by(alloc, code, seeds, part, returns, &blocks)?;
            Ok(found)
        }
        None => Ok(None),
    }
}

/// The same, of blocks that are walked and share no address.
fn outline_by<C: Numbered>(
    alloc: Global,
    code: &C,
    seeds: &[u64],
    part: &Part,
    returns: &NumberedReturns<'_>,
    blocks: &Blocks,
) -> Result<Option<Outline>, Memory>
    requires leads { AreLeads (C.map code.now) part.now.leads }
    requires numbered { AreNumbered (C.map code.now) (C.number code.now) returns.now }
    requires returns { returns.now.lines.now ≡ part.now.returns }
    requires blocks { AreBlocks (C.map code.now) (C.number code.now) part.now.leads blocks.now }
    ensures { IfOk result (λ found. MatchOption found
        (¬ LeadsAreRight (C.map code.now) seeds.now part.now)
        (λ outline. LeadsAreRight (C.map code.now) seeds.now part.now
        × AreOutlined (C.map code.now) part.now outline)) }
{
    know_laws(code);
    let leads = part.leads.as_slice();
    let runs = blocks.runs.as_slice();
    let edges = edges_of(alloc, code, leads, returns, runs)?;
    if !leads_are_closed(code, part, blocks, edges.as_slice()) {
        return Ok(None);
    }
    if !leaders_have_reasons(alloc, code, seeds, part, blocks, edges.as_slice())? {
        return Ok(None);
    }
    let made = blocks_made(alloc, code, leads, runs)?;
    Ok(Some(Outline {
        blocks: cfg_model::Blocks::from_vec(made),
        edges: Edges::from_vec(edges),
    }))
}

/// Whether the reason of each leader of a part holds, where these are the blocks of the leaders and
/// the edges from them.
/// Time: O((leaders + seeds) · log n), where n counts leaders, seeds and edges.
/// Memory: O(leaders + seeds).
fn leaders_have_reasons<C: Numbered>(
    alloc: Global,
    code: &C,
    seeds: &[u64],
    part: &Part,
    blocks: &Blocks,
    edges: &[Edge],
) -> Result<bool, Memory>
    requires leads { AreLeads (C.map code.now) part.now.leads }
    requires blocks { AreBlocks (C.map code.now) (C.number code.now) part.now.leads blocks.now }
    requires edges { AreWays (C.map code.now) part.now.leads part.now.returns edges.now }
    ensures { IfOk result
        (λ b. IsTrue b ↔ HaveReasons (C.map code.now) seeds.now part.now) }
{
    know_laws(code);
    let runs = blocks.runs.as_slice();
    let jumps = jumps_of(alloc, runs)?;
    let sorted = rising(Vec::from_slice(alloc, seeds)?);
    let seeds = sorted.as_slice();
    let reasons = Reasons {
        part,
        seeds,
        blocks,
        edges,
        jumps: jumps.as_slice(),
    };
    let right = leads_have_reasons(code, &reasons);
    Ok(right)
}

/// The same addresses, rising, each once.
fn rising(mut addresses: Vec<u64>) -> Vec<u64>
    ensures rising { IsStrictlyIncreasing result.items }
    ensures same { (a : ℕ) → Contains result.items a ↔ Contains addresses.items a }
{
    addresses.sort_unstable();
    addresses.dedup();
    addresses
}

/// Each answer of a program shows its laws, so this asks it for one.
pub(crate) fn know_laws<C: Chains>(code: &C)
    ensures { IsLawful (C.map code.now) }
{
    let _ = code.has(0);
}
