//! The blocks of the leaders of a part, and whether they share an address.

ghost use Rattle.std.specs.Prelude.{◌≡◌, ◌↔◌, ◌+◌, ◌<◌, ◌^◌, IfOk, IsTrue, MatchOption, Some, length};
ghost use Rattle.cfg_model.specs.declared.flow.Flow.TheVariants.{Straight};
ghost use Rattle.cfg_model.specs.Program.Chain.{EndsChain};
ghost use Rattle.numbered.specs.Numbering.{IsNumbering};
ghost use Rattle.cert_laws.specs.Lines.{IsLead};
ghost use Rattle.cert_laws.specs.Valid.{BlocksAreApart};
ghost use Rattle.cert_ends.specs.Places.{AreLeads, IsPlace};
ghost use Rattle.cert_check.specs.Inner.Blocks.{AreBlocks, AreOwned, IsRun, owner_by};

use crate::owners::Owners;
use cert_ends::place_from;
use cert_text::{LeadLine, Part};
use cfg_model::{Flow, Memory};
use numbered::Numbered;
use std::alloc::Global;

/// The block of a leader, which is cut before the next leader on its chain.
#[derive(Clone, Copy)]
pub(crate) struct Run {
    /// The address of its last instruction.
    pub(crate) last: u64,
    /// The place of the leader that stands right after it, if control goes on to that. Otherwise
    /// the last instruction is a terminator.
    pub(crate) into: Option<u32>,
    /// The flow of its last instruction, which is decoded once.
    pub(crate) flow: Flow,
}

/// The blocks of all leaders of a part, by their places, and whose block each address lies in.
#[derive(Drop)]
pub(crate) struct Blocks {
    pub(crate) owners: Owners,
    pub(crate) runs: Vec<Run>,
}

impl Blocks {
    /// The place of the leader `a`, if the part whose blocks these are lists it: it is then the
    /// first address of the block that it lies in.
    /// Time: that of finding the number of the address.
    pub(crate) fn lead_place<C: Numbered>(&self, code: &C, part: &Part, a: u64) -> Option<usize>
        requires leads { AreLeads (C.map code.now) part.now.leads }
        requires blocks { AreBlocks (C.map code.now) (C.number code.now) part.now.leads self.now }
        ensures { MatchOption result (¬ IsLead part.now.leads a) (λ i. IsPlace part.now.leads i a) }
    {
        if !code.has(a) {
            return None;
        }
        let Some(i) = self.owners.of(code, a) else {
            return None;
        };
        if part.leads.as_slice()[i as usize].at != a {
            return None;
        }
        Some(i as usize)
    }

    /// Whether that part lists the leader `a`.
    /// Time: that of finding the number of the address.
    pub(crate) fn is_lead<C: Numbered>(&self, code: &C, part: &Part, a: u64) -> bool
        requires leads { AreLeads (C.map code.now) part.now.leads }
        requires blocks { AreBlocks (C.map code.now) (C.number code.now) part.now.leads self.now }
        ensures { IsTrue result ↔ IsLead part.now.leads a }
    {
        match self.lead_place(code, part, a) {
            Some(_) => true,
            None => false,
        }
    }
}

/// The blocks of these leaders; `None` exactly if two of them share an address. Each address is
/// walked once, whatever the leaders are. [`Memory`] if memory ran out.
/// Time: O(leaders + bytes of code). Memory: eight bytes for each halfword of code, and 40 for each
/// leader.
pub(crate) fn blocks_of<C: Numbered>(
    alloc: Global,
    code: &C,
    leads: &[LeadLine],
) -> Result<Option<Blocks>, Memory>
    requires { AreLeads (C.map code.now) leads.now }
    ensures { IfOk result (λ found. MatchOption found
        (¬ BlocksAreApart (C.map code.now) leads.now)
        (AreBlocks (C.map code.now) (C.number code.now) leads.now)) }
{
    know_few(code, leads);
    let mut owners = Owners::new(alloc, code)?;
    let mut runs = Vec::with_capacity(alloc, leads.len())?;
    for i in 0..leads.len() {
        match walk(code, leads, i, &mut owners) {
            Some(run) => runs.push(run)?,
            None => return Ok(None),
        }
    }
    Ok(Some(Blocks { owners, runs }))
}

/// Each leader has a number of its own, so their places have 32 bits: asking the program how many
/// numbers it has says so.
fn know_few<C: Numbered>(code: &C, _leads: &[LeadLine])
    requires { AreLeads (C.map code.now) _leads.now }
    ensures { length _leads.now < 2 ^ 32 }
{
    code.numbers();
}

/// Walks the block of the leader at place `i`, and marks its addresses; `None` if one of them lies
/// in the block of an earlier leader.
/// Time: O(instructions of the block, and leaders in between).
fn walk<C: Numbered>(code: &C, leads: &[LeadLine], i: usize, owners: &mut Owners) -> Option<Run>
    requires leads { AreLeads (C.map code.now) leads.now }
    requires within { i < length leads.now }
    requires few { length leads.now < 2 ^ 32 }
    requires numbering { IsNumbering (C.map code.now) (C.number code.now)
        (length owners.old.places.items) }
    requires owned { AreOwned (C.map code.now) leads.now
        (owner_by (C.number code.now) owners.old.places.items) i }
    ensures kept { length owners.new.places.items ≡ length owners.old.places.items }
    ensures run { MatchOption result (¬ BlocksAreApart (C.map code.now) leads.now)
        (λ run. IsRun (C.map code.now) leads.now i run
        × AreOwned (C.map code.now) leads.now
        (owner_by (C.number code.now) owners.new.places.items) (i + 1)) }
{
    let mut at = leads[i].at;
    let mut ahead = i + 1;
    loop {
        let flow = code.flow(at);
        if !owners.claim(code, at, i as u32) {
            return None;
        }
        let next = match next_of(flow) {
            Some(next) => next,
            None => {
                return Some(Run {
                    last: at,
                    into: None,
                    flow,
                });
            }
        };
        ahead = place_from(leads, ahead, next);
        if stands_at(leads, ahead, next) {
            return Some(Run {
                last: at,
                into: Some(ahead as u32),
                flow,
            });
        }
        at = next;
    }
}

/// The address after an instruction of this flow, if control goes straight on to it.
fn next_of(flow: Flow) -> Option<u64>
    ensures { MatchOption result (EndsChain (Some flow)) (λ next. flow ≡ Straight next) }
{
    match flow {
        Flow::Straight { next } => Some(next),
        _ => None,
    }
}

/// Whether the line at place `i` is that of the leader `a`.
fn stands_at(leads: &[LeadLine], i: usize, a: u64) -> bool
    ensures { IsTrue result ↔ IsPlace leads.now i a }
{
    i < leads.len() && leads[i].at == a
}
