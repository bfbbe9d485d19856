//! Fronts: of the leaders upstream of a block, those that count where streams join.
//!
//! A join asks for the least leader up to some rank. A leader that lies above another, and has no
//! lower rank, is never the answer, so a front leaves it out. Fronts are kept by rising address, and
//! so by falling rank; but only the time rests on that.

ghost use Rattle.std.specs.Prelude.{◌≡◌, ◌++◌, ◌∷◌, [], ◌⊎◌, ◌↔◌, ◌≤◌, List, Contains, IfOk, IfSome};
ghost use Rattle.std.specs.Prelude.{IsTrue, MatchOption, OnOk, Some, length};
ghost use Rattle.cert_make.specs.Inner.Fronts.{Covers, IsFrontOf, IsLeastRank, IsLeastUpTo, NoneUpTo};

use cfg_model::Memory;
use std::alloc::Global;

/// A leader upstream of a block, and its rank.
#[derive(Clone, Copy)]
pub(crate) struct Source {
    /// The rank of the leader.
    pub(crate) rank: u64,
    /// The leader.
    pub(crate) lead: u64,
}

/// The front of all these sources, which are those of two fronts. [`Memory`] if memory ran out.
///
/// Time: none where one of the fronts is empty, and otherwise that of sorting all their sources.
/// Memory: 16 bytes for each source.
pub(crate) fn merged(
    alloc: Global,
    one: Vec<Source>,
    other: Vec<Source>,
) -> Result<Vec<Source>, Memory>
    ensures { IfOk result (λ v.
        IsFrontOf (λ s. Contains one.items s ⊎ Contains other.items s) v.items) }
{
    if other.is_empty() {
        return Ok(one);
    }
    if one.is_empty() {
        return Ok(other);
    }
    let all = by_lead(one, other)?;
    let front = front_of(alloc, all.as_slice())?;
    Ok(front)
}

/// The sources of two lists, by rising address.
fn by_lead(mut one: Vec<Source>, mut other: Vec<Source>) -> Result<Vec<Source>, Memory>
    ensures { IfOk result (λ v. (s : Source)
        → Contains v.items s ↔ (Contains one.items s ⊎ Contains other.items s)) }
{
    one.append(&mut other)?;
    one.sort_unstable_by_key(|source| source.lead);
    Ok(one)
}

/// The front of these sources.
fn front_of(alloc: Global, sources: &[Source]) -> Result<Vec<Source>, Memory>
    ensures { IfOk result (λ v. IsFrontOf (Contains sources.now) v.items) }
{
    let mut front = Vec::new(alloc);
    for source in sources {
        add(&mut front, *source)?;
    }
    Ok(front)
}

/// Adds a source to a front, unless the last one there makes it needless.
pub(crate) fn add(front: &mut Vec<Source>, source: Source) -> Result<(), Memory>
    ensures { OnOk result
        (IsFrontOf (λ s. Contains front.old.items s ⊎ (s ≡ source)) front.new.items) }
{
    if last_covers(front.as_slice(), source) {
        return Ok(());
    }
    front.push(source)?;
    Ok(())
}

/// Whether the last source of a front makes this one needless. A front that it does not is not
/// wrong, but longer.
fn last_covers(front: &[Source], source: Source) -> bool
    ensures { IsTrue result → (last : Source) × Contains front.now last × Covers last source }
{
    match front.last() {
        Some(last) => covers(*last, source),
        None => false,
    }
}

/// Whether the first of two sources makes the second needless.
fn covers(one: Source, other: Source) -> bool
    ensures { IsTrue result ↔ Covers one other }
{
    one.rank <= other.rank && one.lead <= other.lead
}

/// The least rank of these sources, if there are any.
pub(crate) fn least_rank(sources: &[Source]) -> Option<u64>
    ensures { MatchOption result (length sources.now ≡ 0) (IsLeastRank sources.now) }
{
    let mut least = None;
    for source in sources {
        least = Some(lower(least, source.rank));
    }
    least
}

/// The least leader among these sources, of those up to this rank.
pub(crate) fn least_lead(sources: &[Source], rank: u64) -> Option<u64>
    ensures { MatchOption result (NoneUpTo sources.now rank) (IsLeastUpTo sources.now rank) }
{
    let mut least = None;
    for source in sources {
        least = with_source(least, *source, rank);
    }
    least
}

/// The least leader so far, after one more source.
fn with_source(least: Option<u64>, source: Source, rank: u64) -> Option<u64>
    ensures { (xs : List Source) → MatchOption least (NoneUpTo xs rank) (IsLeastUpTo xs rank)
        → MatchOption result (NoneUpTo (xs ++ source ∷ []) rank)
        (IsLeastUpTo (xs ++ source ∷ []) rank) }
{
    if source.rank > rank {
        return least;
    }
    Some(lower(least, source.lead))
}

/// The lower of two numbers.
fn lower(one: Option<u64>, other: u64) -> u64
    ensures one_of_both { (result ≡ other) ⊎ (one ≡ Some result) }
    ensures other { result ≤ other }
    ensures one { IfSome one (λ number. result ≤ number) }
{
    match one {
        Some(one) if one <= other => one,
        _ => other,
    }
}
