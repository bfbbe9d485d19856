//! The blocks and edges of a program, made by several threads.

ghost use Rattle.std.specs.Prelude.{◌≡◌, ◌↔◌, ◌+◌, ◌*◌, ◌^◌, ◌<◌, ◌≤◌, ℕ, List, All, IfOk};
ghost use Rattle.std.specs.Prelude.{IsSome, IsTrue, Ok, get_or, length, map};
ghost use Rattle.std.specs.List.{flat_map};
ghost use Rattle.std.specs.Thread.{IsSend, IsSync};
ghost use Rattle.cfg_model.specs.Graph.Graph.{IsOutline};
ghost use Rattle.cfg_model.specs.Graph.Leader.{IsLeader};
ghost use Rattle.cfg_model.specs.Program.Instructions.{IsLawful};
ghost use Rattle.cfg_model.specs.Program.Reach.{Reached};
ghost use Rattle.cfg_model.specs.Program.Status.{Returns};
ghost use Rattle.numbered.specs.Numbering.{IsMarked, IsNumbering, NumbersRise};
ghost use Rattle.parallel.specs.Lists.{all_in};
ghost use Rattle.reached_terms.specs.Reached.{AreReachedTerms};
ghost use Rattle.reached_graph.specs.declared.leaders.Leaders.{Leaders};
ghost use Rattle.reached_graph.specs.Inner.Cuts.{AreCutIn, AreCutInSome};
ghost use Rattle.reached_graph.specs.Inner.Leaders.{AreLeaderMarks, AreStarts};
ghost use Rattle.reached_graph.specs.Inner.Parts.{AnswerParts, AreCutByRange, IsMade, IsMadeIn};
ghost use Rattle.reached_graph.specs.Inner.Parts.{blocks_in, edges_in};
ghost use Rattle.reached_graph.specs.Inner.Ways.{TellsReached};

use crate::leaders::{Leaders, know_laws};
use crate::outline::{Part, outline_from, part_of};
use crate::overlaps::Overlaps;
use crate::walks::walks_over;
use cfg_model::{Block, Edge, Memory, Outline};
use numbered::Numbered;
use parallel::{joined, map_drawn};
use reached_terms::ReachedTerms;
use std::alloc::Global;
use std::thread::{Threads, join};

/// Into how many ranges the numbers are cut for each worker. With one each, all would wait for the
/// one that is slowest or begins last; of four each, fast workers draw more.
const RANGES_PER_WORKER: usize = 4;

/// The answer of [`outline_from`], made by `workers` workers. With one worker no thread is started.
/// [`Memory`] if memory ran out.
///
/// The numbers are cut into four ranges for each worker, who draw one range after another. They find
/// the blocks that start at the known starts. Then the caller's thread walks over those that
/// overlap, to find the other leaders, and the workers draw the ranges once more: they cut the blocks
/// at these as well, and make blocks and edges. Two threads put these together.
/// Time: that of [`graph_from`](crate::graph_from) but for the functions; what takes the most is
/// shared among the workers. Memory: that of [`graph_from`](crate::graph_from), and the blocks and
/// edges once more.
pub fn outline_by<R: Threads + Sync, C: Numbered>(
    rt: &R,
    alloc: Global,
    code: &C,
    reached: &ReachedTerms,
    workers: u32,
) -> Result<Outline, Memory>
    requires reached { (seeds : List ℕ)
        × AreReachedTerms (C.map code.now) (C.number code.now) seeds reached.now }
    requires some { 1 ≤ workers }
    ensures { IfOk result (λ outline. (seeds : List ℕ)
        → AreReachedTerms (C.map code.now) (C.number code.now) seeds reached.now
        → IsOutline (C.map code.now) seeds outline.blocks outline.edges) }
{
    if workers == 1 {
        return outline_from(alloc, code, reached);
    }
    let returns = |a: u64| -> bool
        requires { (from : List ℕ) × AreReachedTerms (C.map code.now) (C.number code.now) from
            reached.now × Reached (C.map code.now) from a }
        ensures { IsTrue result ↔ Returns (C.map code.entry.now) a }
    { reached.returns(code, a) };
    outline_shared(
        rt,
        alloc,
        code,
        reached.starts(),
        &returns,
        workers as usize,
    )
}

/// How many of so many numbers are in a range, so that there are four ranges for each worker.
fn range_size(numbers: usize, workers: usize) -> usize
    requires { 1 ≤ workers }
    ensures some { 0 < result }
    ensures most { result ≤ numbers + 1 }
{
    numbers / workers / RANGES_PER_WORKER + 1
}

/// The blocks and edges of the program, if blocks start at least where the marks are set, made by
/// several workers. `returns` says of a reached address whether it returns.
fn outline_shared<R: Threads + Sync, C: Numbered, F: Fn(u64) -> bool + Sync>(
    rt: &R,
    alloc: Global,
    code: &C,
    marks: &[bool],
    returns: &F,
    workers: usize,
) -> Result<Outline, Memory>
    requires numbers { (a : ℕ) → IsSome (C.map code.now a) → C.number code.now a < length marks.now }
    requires starts { (seeds : List ℕ)
        × ((a : ℕ) → Reached (C.map code.now) seeds a → IsSome (C.map code.now a))
        × AreStarts (C.map code.now) seeds (IsMarked (C.map code.now) (C.number code.now) marks.now)
        × TellsReached (C.map code.now) seeds (F.pre returns.now) (F.post returns.now) }
    requires some { 1 ≤ workers }
    ensures { IfOk result (λ outline. (seeds : List ℕ)
        → ((a : ℕ) → Reached (C.map code.now) seeds a → IsSome (C.map code.now a))
        → AreStarts (C.map code.now) seeds (IsMarked (C.map code.now) (C.number code.now) marks.now)
        → IsOutline (C.map code.now) seeds outline.blocks outline.edges) }
{
    know_laws(code);
    let size = range_size(marks.len(), workers);
    let ranges = cut_by_range(rt, alloc, code, marks, size, workers)?;
    let parts = made_by_range(rt, alloc, code, marks, &ranges, returns, size, workers)?;
    let part = put_together(rt, alloc, parts)?;
    Ok(part.into_outline())
}

/// The blocks that start where the marks of each range of this many numbers are set. They are cut at
/// all marks.
fn cut_by_range<R: Threads + Sync, C: Numbered>(
    rt: &R,
    alloc: Global,
    code: &C,
    marks: &[bool],
    size: usize,
    workers: usize,
) -> Result<Vec<Leaders>, Memory>
    requires lawful { IsLawful (C.map code.now) }
    requires rise { NumbersRise (C.map code.now) (C.number code.now) }
    requires numbering { IsNumbering (C.map code.now) (C.number code.now) (length marks.now) }
    requires some { 0 < size }
    requires most { size ≤ length marks.now + 1 }
    ensures cut { IfOk result (λ v. AreCutByRange (C.map code.now) (C.number code.now)
        (IsMarked (C.map code.now) (C.number code.now) marks.now) size (length marks.now) v.items) }
    ensures most { IfOk result (λ v. length v.items * size < length marks.now + size) }
{
    let cut = |n: usize| -> Result<Leaders, Memory>
        requires { IsSync C.row × n * size < length marks.now × (size ≤ length marks.now + 1)
            × IsLawful (C.map code.now) × NumbersRise (C.map code.now) (C.number code.now)
            × IsNumbering (C.map code.now) (C.number code.now) (length marks.now) }
        ensures { IfOk result (λ blocks. AreCutIn (C.map code.entry.now) (C.number code.entry.now)
            (IsMarked (C.map code.entry.now) (C.number code.entry.now) marks.entry.now)
            (n * size) (n * size + size)
            blocks.starts.items blocks.lasts.items) }
    { Leaders::cut(alloc, code, marks, n * size, n * size + size) };
    let answers = map_drawn(rt, alloc, workers, marks.len().div_ceil(size), &cut)?;
    all_made(alloc, answers)
}

/// All these answers, or the first of their errors.
fn all_made(alloc: Global, answers: Vec<Result<Leaders, Memory>>) -> Result<Vec<Leaders>, Memory>
    ensures { IfOk result (λ v. answers.items ≡ map Ok v.items) }
{
    let mut made = Vec::with_capacity(alloc, answers.len())?;
    for answer in answers {
        made.push(answer?)?;
    }
    Ok(made)
}

/// The blocks from the leaders of each range, and the edges that leave them, if these are the blocks
/// that are cut where the marks are set.
fn made_by_range<R: Threads + Sync, C: Numbered, F: Fn(u64) -> bool + Sync>(
    rt: &R,
    alloc: Global,
    code: &C,
    marks: &[bool],
    ranges: &[Leaders],
    returns: &F,
    size: usize,
    workers: usize,
) -> Result<Vec<Result<Part, Memory>>, Memory>
    requires lawful { IsLawful (C.map code.now) }
    requires rise { NumbersRise (C.map code.now) (C.number code.now) }
    requires numbering { IsNumbering (C.map code.now) (C.number code.now) (length marks.now) }
    requires ranges { AreCutByRange (C.map code.now) (C.number code.now)
        (IsMarked (C.map code.now) (C.number code.now) marks.now) size (length marks.now)
        ranges.now }
    requires room { length ranges.now * size < 2 ^ 64 }
    requires starts { (seeds : List ℕ)
        × ((a : ℕ) → Reached (C.map code.now) seeds a → IsSome (C.map code.now a))
        × AreStarts (C.map code.now) seeds (IsMarked (C.map code.now) (C.number code.now) marks.now)
        × TellsReached (C.map code.now) seeds (F.pre returns.now) (F.post returns.now) }
    ensures { IfOk result (λ v. (seeds : List ℕ)
        → AreStarts (C.map code.now) seeds (IsMarked (C.map code.now) (C.number code.now) marks.now)
        → AnswerParts (C.map code.now) (C.number code.now) (IsLeader (C.map code.now) seeds) size
        (length marks.now) v.items) }
{
    let overlaps = Overlaps::of(alloc, ranges)?;
    match walks_over(alloc, code, marks, &overlaps)? {
        Some(walks) => {
            let (marks, joins) = (walks.starts.as_slice(), walks.joins.as_slice());
            made_at(
                rt, alloc, code, marks, joins, ranges, returns, size, workers,
            )
        }
        None => made_at(rt, alloc, code, marks, &[], ranges, returns, size, workers),
    }
}

/// The blocks that start in each range where the marks are set, and the edges that leave them. These
/// blocks are not yet cut at the joins.
fn made_at<R: Threads + Sync, C: Numbered, F: Fn(u64) -> bool + Sync>(
    rt: &R,
    alloc: Global,
    code: &C,
    marks: &[bool],
    joins: &[u64],
    ranges: &[Leaders],
    returns: &F,
    size: usize,
    workers: usize,
) -> Result<Vec<Result<Part, Memory>>, Memory>
    requires lawful { IsLawful (C.map code.now) }
    requires rise { NumbersRise (C.map code.now) (C.number code.now) }
    requires numbering { IsNumbering (C.map code.now) (C.number code.now) (length marks.now) }
    requires ranges { (n : ℕ) (d : Leaders) → n < length ranges.now
        → AreCutInSome (C.map code.now) (C.number code.now) marks.now joins.now (n * size)
        (n * size + size) (get_or ranges.now n d).starts.items
        (get_or ranges.now n d).lasts.items }
    requires room { length ranges.now * size < 2 ^ 64 }
    requires leaders { (seeds : List ℕ)
        × AreLeaderMarks (C.map code.now) (C.number code.now) seeds marks.now
        × TellsReached (C.map code.now) seeds (F.pre returns.now) (F.post returns.now) }
    ensures { IfOk result (λ v. AnswerParts (C.map code.now) (C.number code.now)
        (IsMarked (C.map code.now) (C.number code.now) marks.now) size (length ranges.now * size)
        v.items) }
{
    let make = |n: usize| -> Result<Part, Memory>
        requires { IsSync C.row × IsSync F.row × n < length ranges.now
            × (length ranges.now * size < 2 ^ 64)
            × IsLawful (C.map code.now) × NumbersRise (C.map code.now) (C.number code.now)
            × IsNumbering (C.map code.now) (C.number code.now) (length marks.now)
            × ((d : Leaders) → AreCutInSome (C.map code.now) (C.number code.now) marks.now joins.now
            (n * size) (n * size + size) (get_or ranges.now n d).starts.items
            (get_or ranges.now n d).lasts.items)
            × ((seeds : List ℕ) × AreLeaderMarks (C.map code.now) (C.number code.now) seeds marks.now
            × TellsReached (C.map code.now) seeds (F.pre returns.now) (F.post returns.now)) }
        ensures { IfOk result (λ part. IsMadeIn (C.map code.entry.now) (C.number code.entry.now)
            (IsMarked (C.map code.entry.now) (C.number code.entry.now) marks.entry.now)
            (n * size) (n * size + size)
            part.blocks.items part.edges.items) }
    {
        let (from, until) = (n * size, n * size + size);
        made_in(alloc, code, marks, joins, &ranges[n], from, until, returns)
    };
    Ok(map_drawn(rt, alloc, workers, ranges.len(), &make)?)
}

/// The blocks that start at the marks with these numbers, and the edges that leave them. These
/// blocks are not yet cut at the joins.
fn made_in<C: Numbered, F: Fn(u64) -> bool>(
    alloc: Global,
    code: &C,
    marks: &[bool],
    joins: &[u64],
    blocks: &Leaders,
    from: usize,
    until: usize,
    returns: &F,
) -> Result<Part, Memory>
    requires lawful { IsLawful (C.map code.now) }
    requires rise { NumbersRise (C.map code.now) (C.number code.now) }
    requires numbering { IsNumbering (C.map code.now) (C.number code.now) (length marks.now) }
    requires cut { AreCutInSome (C.map code.now) (C.number code.now) marks.now joins.now from until
        blocks.now.starts.items blocks.now.lasts.items }
    requires leaders { (seeds : List ℕ)
        × AreLeaderMarks (C.map code.now) (C.number code.now) seeds marks.now
        × TellsReached (C.map code.now) seeds (F.pre returns.now) (F.post returns.now) }
    ensures { IfOk result (λ part. IsMadeIn (C.map code.now) (C.number code.now)
        (IsMarked (C.map code.now) (C.number code.now) marks.now) from until part.blocks.items
        part.edges.items) }
{
    let leaders = blocks.cut_again(alloc, code, marks, joins, from, until)?;
    part_of(alloc, code, &leaders.starts, &leaders.lasts, returns)
}

/// The blocks of all these parts, and their edges, one part after another, or the first of their
/// errors.
fn put_together<R: Threads + Sync>(
    rt: &R,
    alloc: Global,
    parts: Vec<Result<Part, Memory>>,
) -> Result<Part, Memory>
    ensures made { IfOk result (λ _. All IsMade parts.items) }
    ensures blocks { IfOk result (λ whole. whole.blocks.items ≡ flat_map blocks_in parts.items) }
    ensures edges { IfOk result (λ whole. whole.edges.items ≡ flat_map edges_in parts.items) }
{
    let (blocks, edges) = taken_apart(alloc, parts)?;
    let (blocks, edges) = join(
        rt,
        || -> Result<Vec<Block>, Memory>
            ensures { IfOk result (λ v. v.items ≡ all_in blocks.items) }
        { joined(alloc, blocks) },
        || -> Result<Vec<Edge>, Memory>
            ensures { IfOk result (λ v. v.items ≡ all_in edges.items) }
        { joined(alloc, edges) },
    );
    Ok(Part {
        blocks: blocks?,
        edges: edges?,
    })
}

/// The blocks of each of these parts and the edges of each, or the first of their errors.
fn taken_apart(
    alloc: Global,
    parts: Vec<Result<Part, Memory>>,
) -> Result<(Vec<Vec<Block>>, Vec<Vec<Edge>>), Memory>
    ensures made { IfOk result (λ _. All IsMade parts.items) }
    ensures blocks { IfOk result (λ lists. all_in lists.0.items ≡ flat_map blocks_in parts.items) }
    ensures edges { IfOk result (λ lists. all_in lists.1.items ≡ flat_map edges_in parts.items) }
{
    let mut blocks = Vec::with_capacity(alloc, parts.len())?;
    let mut edges = Vec::with_capacity(alloc, parts.len())?;
    for part in parts {
        let part = part?;
        blocks.push(part.blocks)?;
        edges.push(part.edges)?;
    }
    Ok((blocks, edges))
}
