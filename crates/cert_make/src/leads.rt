//! The lines of the leaders.
//!
//! As with the terminators that return, a table of all leaders that is settled by itself has the
//! canonical ranks and reasons, whatever it was before.

ghost use Rattle.std.specs.Prelude.{◌≡◌, ◌+◌, ◌-◌, ◌^◌, ◌<◌, ◌≤◌, ◌↔◌, ℕ, List, All, Contains, IfOk};
ghost use Rattle.std.specs.Prelude.{IfSome, IsSome, IsTrue, MatchOption, length, map};
ghost use Rattle.std.specs.List.Sorted.{IsStrictlyIncreasing};
ghost use Rattle.cfg_model.specs.Graph.Leader.{IsLeader};
ghost use Rattle.cfg_model.specs.Program.Instructions.{InstructionMap};
ghost use Rattle.cert_text.specs.declared.lines.LeadWhy.TheVariants.{From, Join};
ghost use Rattle.cert_laws.specs.Lines.{IsReturn};
ghost use Rattle.cert_ends.specs.Places.{AreLeads, ReturnsRise};
ghost use Rattle.cert_text.specs.declared.lines.LeadLine.{LeadLine};
ghost use Rattle.cert_make.specs.Canonical.{IsLeadLine, ListsLines, ReturnsReached};
ghost use Rattle.cert_make.specs.Inner.Links.{AreLinks};
ghost use Rattle.cert_make.specs.Inner.Offers.{LeadsTo};
ghost use Rattle.cert_make.specs.Inner.Settled.{AreLeadsSettledBy, AreNearestLeads, IsFirstJoin};
ghost use Rattle.cert_make.specs.Inner.Settled.{HasNoLeadReason, IsNearestLead, IsSettledLeadFor};
ghost use Rattle.cert_make.specs.Inner.Settled.{LeadsHaveSameRanks, ListAllLeaders, NoneJoin, NoneLeads};

use crate::firsts::{Offer, nearest_to_ends, nearest_to_leads};
use crate::joins::{Meeting, joins_of};
use crate::lead_ranks::lead_ranks;
use crate::levels::Levels;
use crate::links::Links;
use crate::runs::know_laws;
use cert_ends::NumberedReturns;
use cert_text::{LeadLine, LeadWhy, ReturnLine};
use cfg_model::{Chains, Memory};
use numbered::Numbered;
use std::alloc::Global;

/// The lines of these leaders. If they are all of the program from these seeds, these are the lines
/// of the canonical part. [`Memory`] if memory ran out.
///
/// `returns` are the lines of the terminators that return: they tell which calls come back.
/// Time: the instructions of all blocks, and the ways from the ends of the leaders' chains, each of
/// which is decoded once; and, twice, and once more for each rank that the table does not begin with
/// rightly, O(leaders + ways), a look-up among the seeds for each leader, and where streams join
/// that of sorting their fronts.
/// Memory: 40 bytes for each leader, twice, 240 for each leader, 16 for each of these ways, and four
/// for each number.
pub fn lead_lines<C: Numbered>(
    alloc: Global,
    code: &C,
    seeds: &[u64],
    returns: &[ReturnLine],
    leaders: &[u64],
) -> Result<Vec<LeadLine>, Memory>
    requires seeds { IsStrictlyIncreasing seeds.now }
    requires leaders_rise { IsStrictlyIncreasing leaders.now }
    requires rising { ReturnsRise returns.now }
    requires leaders { (a : ℕ) → Contains leaders.now a ↔ IsLeader (C.map code.now) seeds.now a }
    requires returns { (k : ℕ)
        → IsReturn returns.now k ↔ ReturnsReached (C.map code.now) seeds.now k }
    requires known { All (λ a. IsSome (C.map code.now a)) leaders.now }
    ensures { IfOk result (λ v. ListsLines (λ l. l.at) (IsLeader (C.map code.now) seeds.now)
        (IsLeadLine (C.map code.now) seeds.now) v.items) }
{
    let plain = first_lead_lines(alloc, leaders)?;
    let returns = NumberedReturns::new(alloc, code, returns)?;
    let links = Links::of(alloc, code, &returns, leaders, plain.as_slice())?;
    let ranks = lead_ranks(alloc, seeds, leaders, &links)?;
    let start = ranked(alloc, plain.as_slice(), &ranks)?;
    let lines = settled_leads(alloc, code, seeds, &links, start)?;
    Ok(lines)
}

/// A line for each of these leaders, to begin with.
fn first_lead_lines(alloc: Global, leaders: &[u64]) -> Result<Vec<LeadLine>, Memory>
    ensures { IfOk result (λ v. map (λ (l : LeadLine). l.at) v.items ≡ leaders.now) }
{
    let mut lines = Vec::new(alloc);
    for a in leaders {
        lines.push(LeadLine {
            at: *a,
            rank: 0,
            why: LeadWhy::Seed,
        })?;
    }
    Ok(lines)
}

/// The same lines with these ranks.
fn ranked(alloc: Global, lines: &[LeadLine], ranks: &Levels) -> Result<Vec<LeadLine>, Memory>
    ensures same { IfOk result (λ v. map (λ (l : LeadLine). l.at) v.items
        ≡ map (λ (l : LeadLine). l.at) lines.now) }
    ensures ranks { IfOk result (λ v. All (λ (l : LeadLine). l.rank < 2 ^ 32) v.items) }
{
    let mut next = Vec::new(alloc);
    for (i, line) in lines.iter().enumerate() {
        next.push(LeadLine {
            at: line.at,
            rank: u64::from(ranks.rank(i)),
            why: line.why,
        })?;
    }
    Ok(next)
}

/// The settled table of these leaders, which have to be all of the program. [`Memory`] if memory
/// ran out.
fn settled_leads<C: Chains>(
    alloc: Global,
    code: &C,
    seeds: &[u64],
    links: &Links,
    start: Vec<LeadLine>,
) -> Result<Vec<LeadLine>, Memory>
    requires seeds { IsStrictlyIncreasing seeds.now }
    requires leads { AreLeads (C.map code.now) start.items }
    requires leaders { ListAllLeaders (C.map code.now) seeds.now start.items }
    requires ranks { All (λ (l : LeadLine). l.rank < 2 ^ 32) start.items }
    requires links { AreLinks (C.map code.now) start.items links.now }
    ensures { IfOk result
        (λ v. AreLeadsSettledBy (C.map code.now) seeds.now v.items start.items v.items) }
{
    let mut lines = start;
    for _step in 0..lines.len() {
        let next = lead_step(alloc, code, seeds, links, lines.as_slice())?;
        if leads_have_same_ranks(next.as_slice(), lines.as_slice()) {
            return Ok(next);
        }
        lines = next;
    }
    // Each step settled one rank more, and there are no more ranks than lines: only the reasons may
    // still be those by other ranks.
    lead_step(alloc, code, seeds, links, lines.as_slice())
}

/// Whether the lines of two tables have the same ranks, one by one.
fn leads_have_same_ranks(one: &[LeadLine], other: &[LeadLine]) -> bool
    requires { length one.now ≤ length other.now }
    ensures { IsTrue result → LeadsHaveSameRanks one.now other.now }
{
    for (i, line) in one.iter().enumerate() {
        if line.rank != other[i].rank {
            return false;
        }
    }
    true
}

/// The lines of the same leaders by these lines, which have to be all leaders of the program.
/// [`Memory`] if memory ran out.
fn lead_step<C: Chains>(
    alloc: Global,
    code: &C,
    seeds: &[u64],
    links: &Links,
    lines: &[LeadLine],
) -> Result<Vec<LeadLine>, Memory>
    requires seeds { IsStrictlyIncreasing seeds.now }
    requires leads { AreLeads (C.map code.now) lines.now }
    requires leaders { ListAllLeaders (C.map code.now) seeds.now lines.now }
    requires ranks { All (λ (l : LeadLine). l.rank < 2 ^ 64 - 1) lines.now }
    requires links { AreLinks (C.map code.now) lines.now links.now }
    ensures { IfOk result
        (λ v. AreLeadsSettledBy (C.map code.now) seeds.now lines.now lines.now v.items) }
{
    know_laws(code);
    let ends = nearest_by_end(alloc, code, links, lines)?;
    let joins = joins_of(alloc, code, lines, links.runs.as_slice())?;
    let mut next = Vec::new(alloc);
    for (i, line) in lines.iter().enumerate() {
        match lead_line(seeds, line.at, ends[i], joins[i]) {
            Some(line) => next.push(line)?,
            // Each of them is a leader, so that it has a reason by the others.
            None => unreachable!(),
        }
    }
    Ok(next)
}

/// The nearest leaders whose chains end in a way to each of these leaders. The program itself is not
/// read, since the links tell all.
fn nearest_by_end<C: Chains>(
    alloc: Global,
    _code: &C,
    links: &Links,
    lines: &[LeadLine],
) -> Result<Vec<Option<Offer>>, Memory>
    requires { AreLinks (C.map _code.now) lines.now links.now }
    ensures { IfOk result (λ v. AreNearestLeads lines.now (LeadsTo (C.map _code.now)) v.items) }
{
    let offers = nearest_to_ends(alloc, lines, &links.ends)?;
    let exits = links.exits.as_slice();
    let nearest = nearest_to_leads(alloc, lines.len(), exits, offers.as_slice())?;
    Ok(nearest)
}

/// The line of the leader `a`; `None` exactly if it is no seed, and none of the leaders that are
/// found is a reason.
fn lead_line(
    seeds: &[u64],
    a: u64,
    nearest: Option<Offer>,
    join: Option<Meeting>,
) -> Option<LeadLine>
    requires seeds { IsStrictlyIncreasing seeds.now }
    requires near_rank { IfSome nearest (λ o. o.rank < 2 ^ 64 - 1) }
    requires join_rank { IfSome join (λ j. j.rank < 2 ^ 64 - 1) }
    ensures { (code : InstructionMap) (lines : List LeadLine)
        → MatchOption nearest (NoneLeads lines (λ p. LeadsTo code p a))
        (λ o. IsNearestLead lines (λ p. LeadsTo code p a) o.rank o.lead)
        → MatchOption join (NoneJoin code lines a)
        (λ j. IsFirstJoin code lines a j.rank j.first j.second)
        → MatchOption result (HasNoLeadReason code seeds.now lines a)
        (IsSettledLeadFor code seeds.now lines a) }
{
    if is_seed(seeds, a) {
        return Some(LeadLine {
            at: a,
            rank: 0,
            why: LeadWhy::Seed,
        });
    }
    by_reason(a, nearest, join)
}

/// The line of a leader that is no seed; `None` exactly if nothing is found.
fn by_reason(a: u64, nearest: Option<Offer>, join: Option<Meeting>) -> Option<LeadLine>
    requires near_rank { IfSome nearest (λ o. o.rank < 2 ^ 64 - 1) }
    requires join_rank { IfSome join (λ j. j.rank < 2 ^ 64 - 1) }
    ensures { (code : InstructionMap) (seeds : List ℕ) (lines : List LeadLine) → ¬ Contains seeds a
        → MatchOption nearest (NoneLeads lines (λ p. LeadsTo code p a))
        (λ o. IsNearestLead lines (λ p. LeadsTo code p a) o.rank o.lead)
        → MatchOption join (NoneJoin code lines a)
        (λ j. IsFirstJoin code lines a j.rank j.first j.second)
        → MatchOption result (HasNoLeadReason code seeds lines a)
        (IsSettledLeadFor code seeds lines a) }
{
    match nearest {
        Some(way) => match join {
            Some(join) => Some(by_first(a, way, join)),
            None => Some(by_way(a, way)),
        },
        None => match join {
            Some(join) => Some(by_join(a, join)),
            None => None,
        },
    }
}

/// The line of a leader that is no seed, by a way or a join.
fn by_first(a: u64, way: Offer, join: Meeting) -> LeadLine
    requires way_rank { way.rank < 2 ^ 64 - 1 }
    requires join_rank { join.rank < 2 ^ 64 - 1 }
    ensures { (code : InstructionMap) (seeds : List ℕ) (lines : List LeadLine) → ¬ Contains seeds a
        → IsNearestLead lines (λ p. LeadsTo code p a) way.rank way.lead
        → IsFirstJoin code lines a join.rank join.first join.second
        → IsSettledLeadFor code seeds lines a result }
{
    if join.rank < way.rank {
        by_join(a, join)
    } else {
        by_way(a, way)
    }
}

/// Whether `a` is one of these seeds.
fn is_seed(seeds: &[u64], a: u64) -> bool
    requires { IsStrictlyIncreasing seeds.now }
    ensures { IsTrue result ↔ Contains seeds.now a }
{
    seeds.binary_search(&a).is_ok()
}

/// The line of a leader by a join.
fn by_join(a: u64, join: Meeting) -> LeadLine
    requires { join.rank < 2 ^ 64 - 1 }
    ensures { (result.at ≡ a) × (result.rank ≡ join.rank + 1)
        × (result.why ≡ Join join.first join.second) }
{
    LeadLine {
        at: a,
        rank: join.rank + 1,
        why: LeadWhy::Join {
            first: join.first,
            second: join.second,
        },
    }
}

/// The line of a leader by a way from another.
fn by_way(a: u64, way: Offer) -> LeadLine
    requires { way.rank < 2 ^ 64 - 1 }
    ensures { (result.at ≡ a) × (result.rank ≡ way.rank + 1) × (result.why ≡ From way.lead) }
{
    LeadLine {
        at: a,
        rank: way.rank + 1,
        why: LeadWhy::From { lead: way.lead },
    }
}
