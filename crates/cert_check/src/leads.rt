//! The reasons of the leaders of a part.

ghost use Rattle.std.specs.Prelude.{◌≡◌, ◌↔◌, ◌⊎◌, All, IsTrue, Contains};
ghost use Rattle.std.specs.List.Sorted.{IsStrictlyIncreasing};
ghost use Rattle.cfg_model.specs.Program.Instructions.{IsLawful};
ghost use Rattle.cfg_model.specs.Program.Chain.{GoesOnTo};
ghost use Rattle.cert_laws.specs.Lines.{IsLead, IsLeadBelow};
ghost use Rattle.cert_laws.specs.Valid.{ComesFrom, GoesOnFrom, JoinsAt, LeadsBy};
ghost use Rattle.cert_check.specs.Inner.Reasons.{AreReasons};

use crate::blocks::Blocks;
use crate::edges::has_edge;
use crate::jumps::{Jump, leads_along};
use cert_text::{LeadLine, LeadWhy, Part};
use cfg_model::{Edge, Flow};
use numbered::Numbered;

/// What the reasons of leaders are tested by.
#[derive(Clone, Copy)]
pub(crate) struct Reasons<'a> {
    pub(crate) part: &'a Part,
    /// The seeds, rising.
    pub(crate) seeds: &'a [u64],
    pub(crate) blocks: &'a Blocks,
    /// The edges from the blocks, in the order of a graph.
    pub(crate) edges: &'a [Edge],
    /// A jump for each block.
    pub(crate) jumps: &'a [Jump],
}

/// Whether the reason of each leader holds.
/// Time: O(log n) for each line, where n is the number of lines, seeds or edges.
pub(crate) fn leads_have_reasons<C: Numbered>(code: &C, reasons: &Reasons) -> bool
    requires { AreReasons (C.map code.now) (C.number code.now) reasons.now }
    ensures { IsTrue result ↔ All (λ line. LeadsBy (C.map code.now) reasons.now.seeds.now
        reasons.now.part.now line.rank line.at line.why) reasons.now.part.now.leads }
{
    let leads = reasons.part.leads.as_slice();
    for line in leads {
        if !leads_by(code, reasons, *line) {
            return false;
        }
    }
    true
}

/// Whether the reason of a leader holds.
fn leads_by<C: Numbered>(code: &C, reasons: &Reasons, line: LeadLine) -> bool
    requires { AreReasons (C.map code.now) (C.number code.now) reasons.now }
    ensures { IsTrue result ↔ LeadsBy (C.map code.now) reasons.now.seeds.now reasons.now.part.now
        line.rank line.at line.why }
{
    match line.why {
        LeadWhy::Seed => is_listed(reasons.seeds, line.at),
        LeadWhy::From { lead } => comes_from(code, reasons, line.rank, lead, line.at),
        LeadWhy::Join { first, second } => {
            joins_at(code, reasons, line.rank, first, second, line.at)
        }
    }
}

/// Whether the rising list `addresses` has `a`.
fn is_listed(addresses: &[u64], a: u64) -> bool
    requires { IsStrictlyIncreasing addresses.now }
    ensures { IsTrue result ↔ Contains addresses.now a }
{
    addresses.binary_search(&a).is_ok()
}

/// Whether `lead` is a leader of a rank below `rank`.
fn is_lead_below<C: Numbered>(code: &C, reasons: &Reasons, rank: u64, lead: u64) -> bool
    requires { AreReasons (C.map code.now) (C.number code.now) reasons.now }
    ensures { IsTrue result ↔ IsLeadBelow reasons.now.part.now.leads rank lead }
{
    match reasons.blocks.lead_place(code, reasons.part, lead) {
        Some(i) => reasons.part.leads.as_slice()[i].rank < rank,
        None => false,
    }
}

/// Whether `lead` is a leader of a rank below `rank` that ends in a terminator which leads to `a`.
fn comes_from<C: Numbered>(code: &C, reasons: &Reasons, rank: u64, lead: u64, a: u64) -> bool
    requires { AreReasons (C.map code.now) (C.number code.now) reasons.now }
    ensures { IsTrue result ↔ ComesFrom (C.map code.now) reasons.now.part.now rank lead a }
{
    if !is_lead_below(code, reasons, rank, lead) {
        return false;
    }
    let leads = reasons.part.leads.as_slice();
    match reasons.blocks.owners.of(code, code.term(lead)) {
        Some(i) => has_edge(reasons.edges, leads[i as usize].at, a),
        None => false,
    }
}

/// Whether two streams join at `a`, on the chains of these leaders of ranks below `rank`.
fn joins_at<C: Numbered>(
    code: &C,
    reasons: &Reasons,
    rank: u64,
    first: u64,
    second: u64,
    a: u64,
) -> bool
    requires { AreReasons (C.map code.now) (C.number code.now) reasons.now }
    ensures { IsTrue result
        ↔ JoinsAt (C.map code.now) reasons.now.part.now rank first second a }
{
    is_lead_below(code, reasons, rank, first)
        && is_lead_below(code, reasons, rank, second)
        && goes_on_from(code, reasons, 2, first, a)
        && goes_on_from(code, reasons, 4, second, a)
}

/// Whether a straight instruction of so many bytes, 2 or 4, stands right before `a`, on the chain of
/// the leader `lead`.
fn goes_on_from<C: Numbered>(code: &C, reasons: &Reasons, bytes: u64, lead: u64, a: u64) -> bool
    requires reasons { AreReasons (C.map code.now) (C.number code.now) reasons.now }
    requires bytes { (bytes ≡ 2) ⊎ (bytes ≡ 4) }
    ensures { IsTrue result ↔ (IsLead reasons.now.part.now.leads lead
        × GoesOnFrom (C.map code.now) bytes lead a) }
{
    let Some(place) = reasons.blocks.lead_place(code, reasons.part, lead) else {
        return false;
    };
    if a < bytes {
        return false;
    }
    let before = a - bytes;
    if !goes_on_to(code, before, a) {
        return false;
    }
    match reasons.blocks.owners.of(code, before) {
        Some(i) => leads_along(
            reasons.blocks.runs.as_slice(),
            reasons.jumps,
            place,
            i as usize,
        ),
        None => false,
    }
}

/// Whether a straight instruction stands at `a`, and `next` is the address after it.
fn goes_on_to<C: Numbered>(code: &C, a: u64, next: u64) -> bool
    ensures lawful { IsLawful (C.map code.now) }
    ensures exact { IsTrue result ↔ GoesOnTo (C.map code.now) a next }
{
    code.has(a) && code.flow(a) == Flow::Straight { next }
}
