//! The joins to the leaders.
//!
//! Each block goes on into at most one other, of a later place, and hands its front on to it. So the
//! chains of the leaders are not walked one by one.

ghost use Rattle.std.specs.Prelude.{◌≡◌, ◌≢◌, ◌⊎◌, ◌+◌, ◌<◌, ℕ, List, [], All, Contains, IfOk, IsSome};
ghost use Rattle.std.specs.Prelude.{◌↔◌, IsTrue, MatchOption, OnOk, Some, length, slice_index_or};
ghost use Rattle.cert_text.specs.declared.lines.LeadLine.{LeadLine};
ghost use Rattle.cert_ends.specs.Places.{AreLeads};
ghost use Rattle.cfg_model.specs.Program.Instructions.{InstructionMap, IsLawful, length_at};
ghost use Rattle.cert_make.specs.Reason.{MeetsBy};
ghost use Rattle.cert_make.specs.declared.fronts.Source.{Source};
ghost use Rattle.cert_make.specs.Inner.Runs.{AreRuns, IsUpstream};
ghost use Rattle.cert_make.specs.Inner.Fronts.{AreFallen, AreOpen, IsFrontOf, IsLeastUpTo};
ghost use Rattle.cert_make.specs.Inner.Fronts.{IsSource, KeptFront, NoneUpTo};
ghost use Rattle.cert_make.specs.Inner.Settled.{AreJoins, IsFirstJoin, IsJoinAt, NoneJoin};

use crate::fronts::{Source, add, least_lead, least_rank, merged};
use crate::runs::Run;
use cert_text::LeadLine;
use cfg_model::{Chains, Memory};
use std::alloc::Global;
use std::mem;

/// Two leaders whose chains join.
#[derive(Clone, Copy)]
pub(crate) struct Meeting {
    /// The greater of their ranks.
    pub(crate) rank: u64,
    /// The one whose chain has the instruction of two bytes.
    pub(crate) first: u64,
    /// The one whose chain has the instruction of four bytes.
    pub(crate) second: u64,
}

/// The first join to each of these leaders, in their order, if there is one. [`Memory`] if memory
/// ran out.
///
/// Time: O(leaders), and where two streams join that of sorting their fronts.
/// Memory: 96 bytes for each leader, and 16 for each source of a front.
pub(crate) fn joins_of<C: Chains>(
    alloc: Global,
    code: &C,
    lines: &[LeadLine],
    runs: &[Run],
) -> Result<Vec<Option<Meeting>>, Memory>
    requires lawful { IsLawful (C.map code.now) }
    requires leads { AreLeads (C.map code.now) lines.now }
    requires runs { AreRuns (C.map code.now) lines.now runs.now }
    ensures { IfOk result (λ v. AreJoins (C.map code.now) lines.now v.items) }
{
    let mut shorts = no_fronts(alloc, lines.len())?;
    let mut longs = no_fronts(alloc, lines.len())?;
    let mut joins = Vec::new(alloc);
    for i in 0..lines.len() {
        let join = pass(alloc, code, lines, runs, i, &mut shorts, &mut longs)?;
        joins.push(join)?;
    }
    Ok(joins)
}

/// So many fronts of no sources.
fn no_fronts(alloc: Global, count: usize) -> Result<Vec<Vec<Source>>, Memory>
    ensures many { IfOk result (λ v. length v.items ≡ count) }
    ensures empty { IfOk result (λ v. All (λ front. front.items ≡ []) v.items) }
{
    let mut fronts = Vec::new(alloc);
    for _ in 0..count {
        fronts.push(Vec::new(alloc))?;
    }
    Ok(fronts)
}

/// The first join to the leader at place `i`, if there is one; and the front of its block is handed
/// on.
fn pass<C: Chains>(
    alloc: Global,
    code: &C,
    lines: &[LeadLine],
    runs: &[Run],
    i: usize,
    shorts: &mut Vec<Vec<Source>>,
    longs: &mut Vec<Vec<Source>>,
) -> Result<Option<Meeting>, Memory>
    requires lawful { IsLawful (C.map code.now) }
    requires leads { AreLeads (C.map code.now) lines.now }
    requires runs { AreRuns (C.map code.now) lines.now runs.now }
    requires within { i < length lines.now }
    requires shorts { AreFallen (C.map code.now) lines.now runs.now 2 i shorts.old.items }
    requires longs { AreFallen (C.map code.now) lines.now runs.now 4 i longs.old.items }
    ensures join { IfOk result (λ join. IsJoinAt (C.map code.now) lines.now i join) }
    ensures shorts { IfOk result (λ _.
        AreFallen (C.map code.now) lines.now runs.now 2 (i + 1) shorts.new.items) }
    ensures longs { IfOk result (λ _.
        AreFallen (C.map code.now) lines.now runs.now 4 (i + 1) longs.new.items) }
{
    let line = lines[i];
    let short = take_front(alloc, shorts, i);
    let long = take_front(alloc, longs, i);
    let join = first_join(short.as_slice(), long.as_slice());
    let mut front = merged(alloc, short, long)?;
    add(
        &mut front,
        Source {
            rank: line.rank,
            lead: line.at,
        },
    )?;
    hand_on(alloc, code, lines, runs, i, front, shorts, longs)?;
    Ok(join)
}

/// The first join at an address that is met by two streams with these fronts, of an instruction of
/// two bytes and of one of four; `None` if one of the streams is missing.
fn first_join(short: &[Source], long: &[Source]) -> Option<Meeting>
    ensures { (code : InstructionMap) (lines : List LeadLine) (a : ℕ)
        → IsFrontOf (IsSource lines (λ p. MeetsBy code 2 p a)) short.now
        → IsFrontOf (IsSource lines (λ p. MeetsBy code 4 p a)) long.now
        → MatchOption result (NoneJoin code lines a)
        (λ j. IsFirstJoin code lines a j.rank j.first j.second) }
{
    match least_rank(short) {
        Some(one) => match least_rank(long) {
            Some(other) => join_up_to(one.max(other), short, long),
            None => None,
        },
        None => None,
    }
}

/// The join of these streams by the least leaders up to this rank, if both have some.
fn join_up_to(rank: u64, short: &[Source], long: &[Source]) -> Option<Meeting>
    ensures { MatchOption result (NoneUpTo short.now rank ⊎ NoneUpTo long.now rank)
        (λ j. (j.rank ≡ rank) × IsLeastUpTo short.now rank j.first
        × IsLeastUpTo long.now rank j.second) }
{
    match least_lead(short, rank) {
        Some(first) => match least_lead(long, rank) {
            Some(second) => Some(Meeting {
                rank,
                first,
                second,
            }),
            None => None,
        },
        None => None,
    }
}

/// Hands the front of the block at place `i` on to the block that it goes on into.
fn hand_on<C: Chains>(
    alloc: Global,
    code: &C,
    lines: &[LeadLine],
    runs: &[Run],
    i: usize,
    front: Vec<Source>,
    shorts: &mut Vec<Vec<Source>>,
    longs: &mut Vec<Vec<Source>>,
) -> Result<(), Memory>
    requires lawful { IsLawful (C.map code.now) }
    requires leads { AreLeads (C.map code.now) lines.now }
    requires runs { AreRuns (C.map code.now) lines.now runs.now }
    requires within { i < length lines.now }
    requires front { IsFrontOf (IsSource lines.now (IsUpstream lines.now runs.now i)) front.items }
    requires shorts { AreOpen (C.map code.now) lines.now runs.now 2 i shorts.old.items }
    requires longs { AreOpen (C.map code.now) lines.now runs.now 4 i longs.old.items }
    ensures shorts { OnOk result
        (AreFallen (C.map code.now) lines.now runs.now 2 (i + 1) shorts.new.items) }
    ensures longs { OnOk result
        (AreFallen (C.map code.now) lines.now runs.now 4 (i + 1) longs.new.items) }
{
    let run = runs[i];
    let into = match run.into {
        Some(into) => into,
        None => return Ok(()),
    };
    if is_short(code, run.last) {
        put_front(alloc, shorts, into, front)?;
        return Ok(());
    }
    put_front(alloc, longs, into, front)?;
    Ok(())
}

/// Whether the instruction at `k` has two bytes.
fn is_short<C: Chains>(code: &C, k: u64) -> bool
    requires stands { IsSome (C.map code.now k) }
    ensures { IsTrue result ↔ (length_at (C.map code.now) k ≡ Some 2) }
{
    code.length(k) == 2
}

/// Takes out the front at place `i`.
fn take_front(alloc: Global, fronts: &mut Vec<Vec<Source>>, i: usize) -> Vec<Source>
    requires { i < length fronts.old.items }
    ensures taken { result ≡ slice_index_or fronts.old.items i result }
    ensures as_many { length fronts.new.items ≡ length fronts.old.items }
    ensures others { (j : ℕ) (d : KeptFront) → j ≢ i
        → slice_index_or fronts.new.items j d ≡ slice_index_or fronts.old.items j d }
{
    mem::replace(&mut fronts[i], Vec::new(alloc))
}

/// Puts a front in at place `i`, besides what is there.
fn put_front(
    alloc: Global,
    fronts: &mut Vec<Vec<Source>>,
    i: usize,
    front: Vec<Source>,
) -> Result<(), Memory>
    requires { i < length fronts.old.items }
    ensures as_many { OnOk result (length fronts.new.items ≡ length fronts.old.items) }
    ensures others { OnOk result ((j : ℕ) (d : KeptFront) → j ≢ i
        → slice_index_or fronts.new.items j d ≡ slice_index_or fronts.old.items j d) }
    ensures merged { OnOk result ((d e : KeptFront)
        → IsFrontOf (λ s. Contains (slice_index_or fronts.old.items i d).items s
        ⊎ Contains front.items s) (slice_index_or fronts.new.items i e).items) }
{
    let there = take_front(alloc, fronts, i);
    let both = merged(alloc, there, front)?;
    fronts[i] = both;
    Ok(())
}
