//! The blocks that start where marks are set, by ranges of numbers.
//!
//! Blocks are cut at all marks, wherever these are. Ranges that lie side by side, put together, give
//! the blocks of all numbers.

ghost use Rattle.std.specs.Prelude.{◌≡◌, ◌↔◌, ◌⊎◌, ◌+◌, ◌-◌, ◌<◌, ◌≤◌, ◌++◌, ℕ, length, get_or};
ghost use Rattle.std.specs.Prelude.{All, Contains, IfOk, IsSome, IsTrue, OnOk, drop, take};
ghost use Rattle.std.specs.List.Sorted.{IsStrictlyIncreasing};
ghost use Rattle.cfg_model.specs.Graph.Block.{IsLastOf};
ghost use Rattle.cfg_model.specs.Program.Instructions.{IsLawful};
ghost use Rattle.numbered.specs.Numbering.{IsFirstMarked, IsMarked, IsNumbering, NumbersRise};
ghost use Rattle.reached_graph.specs.Inner.Blocks.{AreCutAt};
ghost use Rattle.reached_graph.specs.Inner.Cuts.{AreCutIn, AreCutInSome, AreFollowed};
ghost use Rattle.reached_graph.specs.Inner.Cuts.{AreLastAtSome, IsLastAtSome, IsNext, IsNextStart};

use crate::blocks::{last_before, last_of};
use crate::leaders::Leaders;
use cfg_model::Memory;
use numbered::{Numbered, first_marked, marked_between};
use std::alloc::Global;

impl Leaders {
    /// The blocks that start at the marks whose numbers are `from` and more, but below `until`.
    /// Time: linear in these numbers, in those up to the next mark, and in the instructions of the
    /// blocks that go straight on to the next. Memory: 16 bytes for each block.
    pub(crate) fn cut<C: Numbered>(
        alloc: Global,
        code: &C,
        marks: &[bool],
        from: usize,
        until: usize,
    ) -> Result<Leaders, Memory>
        requires lawful { IsLawful (C.map code.now) }
        requires rise { NumbersRise (C.map code.now) (C.number code.now) }
        requires numbering { IsNumbering (C.map code.now) (C.number code.now) (length marks.now) }
        ensures { IfOk result (λ blocks. AreCutIn (C.map code.now) (C.number code.now)
            (IsMarked (C.map code.now) (C.number code.now) marks.now) from until
            blocks.starts.items blocks.lasts.items) }
    {
        let starts = marked_between(alloc, code, marks, from, until)?;
        let behind = start_behind(code, marks, &starts, until);
        let lasts = lasts_in(alloc, code, marks, &starts, behind)?;
        Ok(Leaders { starts, lasts })
    }

    /// The same where further blocks start, at `joins`: their marks are set by now, and these blocks
    /// are not yet cut there. A block in which none of them starts stays as it is.
    /// Time: linear in the blocks, in the joins, and in the instructions of the blocks in which one
    /// starts or that overlap another. Memory: 16 bytes for each block.
    pub(crate) fn cut_again<C: Numbered>(
        &self,
        alloc: Global,
        code: &C,
        marks: &[bool],
        joins: &[u64],
        from: usize,
        until: usize,
    ) -> Result<Leaders, Memory>
        requires lawful { IsLawful (C.map code.now) }
        requires rise { NumbersRise (C.map code.now) (C.number code.now) }
        requires numbering { IsNumbering (C.map code.now) (C.number code.now) (length marks.now) }
        requires cut { AreCutInSome (C.map code.now) (C.number code.now) marks.now joins.now from
            until self.now.starts.items self.now.lasts.items }
        ensures { IfOk result (λ blocks. AreCutIn (C.map code.now) (C.number code.now)
            (IsMarked (C.map code.now) (C.number code.now) marks.now) from until
            blocks.starts.items blocks.lasts.items) }
    {
        let joins = joins_between(alloc, code, joins, from, until)?;
        let mut blocks = self.merged(alloc, code, marks, &joins)?;
        let behind = start_behind(code, marks, &blocks.starts, until);
        blocks.cut_all(code, marks, behind);
        Ok(blocks)
    }

    /// These blocks and those that start at the joins, in order. They are cut at some of the marks.
    fn merged<C: Numbered>(
        &self,
        alloc: Global,
        code: &C,
        marks: &[bool],
        joins: &[u64],
    ) -> Result<Leaders, Memory>
        requires numbering { IsNumbering (C.map code.now) (C.number code.now) (length marks.now) }
        requires stand { All (λ a. IsSome (C.map code.now a)) joins.now }
        requires rise { IsStrictlyIncreasing self.now.starts.items }
        requires joins { IsStrictlyIncreasing joins.now }
        requires apart { (a : ℕ) → Contains self.now.starts.items a → Contains joins.now a → ⊥ }
        requires cut { AreLastAtSome (C.map code.now) (C.number code.now) marks.now
            self.now.starts.items self.now.lasts.items }
        ensures rise { IfOk result (λ blocks. IsStrictlyIncreasing blocks.starts.items) }
        ensures exact { IfOk result (λ blocks. (a : ℕ) → Contains blocks.starts.items a
            ↔ Contains self.now.starts.items a ⊎ Contains joins.now a) }
        ensures cut { IfOk result (λ blocks. AreLastAtSome (C.map code.now) (C.number code.now)
            marks.now blocks.starts.items blocks.lasts.items) }
    {
        let count = self.starts.len().saturating_add(joins.len());
        let mut blocks = Leaders {
            starts: Vec::with_capacity(alloc, count)?,
            lasts: Vec::with_capacity(alloc, count)?,
        };
        let mut place = 0;
        for &a in joins {
            let end = place_from(&self.starts, place, a);
            blocks.add_blocks(self, place, end)?;
            blocks.starts.push(a)?;
            blocks.lasts.push(last_of(code, marks, a))?;
            place = end;
        }
        blocks.add_blocks(self, place, self.starts.len())?;
        Ok(blocks)
    }

    /// Adds those of these blocks at the places from `from` up to `until`.
    fn add_blocks(&mut self, blocks: &Leaders, from: usize, until: usize) -> Result<(), Memory>
        requires from { from ≤ until }
        requires until { until ≤ length blocks.now.starts.items }
        requires sizes { length blocks.now.lasts.items ≡ length blocks.now.starts.items }
        ensures starts { OnOk result (self.new.starts.items ≡ self.old.starts.items
            ++ take (until - from) (drop from blocks.now.starts.items)) }
        ensures lasts { OnOk result (self.new.lasts.items ≡ self.old.lasts.items
            ++ take (until - from) (drop from blocks.now.lasts.items)) }
    {
        self.starts.extend_from_slice(&blocks.starts[from..until])?;
        self.lasts.extend_from_slice(&blocks.lasts[from..until])
    }

    /// Cuts these blocks, which are cut at some of the marks, at all. `behind` is the start of the
    /// next one after them.
    fn cut_all<C: Numbered>(&mut self, code: &C, marks: &[bool], behind: Option<u64>)
        requires lawful { IsLawful (C.map code.now) }
        requires numbering { IsNumbering (C.map code.now) (C.number code.now) (length marks.now) }
        requires stand { All (λ s. IsSome (C.map code.now s)) self.old.starts.items }
        requires followed { AreFollowed (IsMarked (C.map code.now) (C.number code.now) marks.now)
            self.old.starts.items behind }
        requires cut { AreLastAtSome (C.map code.now) (C.number code.now) marks.now
            self.old.starts.items self.old.lasts.items }
        ensures starts { self.new.starts ≡ self.old.starts }
        ensures cut { AreCutAt (C.map code.now)
            (IsMarked (C.map code.now) (C.number code.now) marks.now) self.new.starts.items
            self.new.lasts.items }
    {
        for i in 0..self.lasts.len() {
            let next = next_start(&self.starts, behind, i);
            self.lasts[i] = last_again(code, marks, self.starts[i], next, self.lasts[i]);
        }
    }
}

/// Those joins whose numbers are `from` and more, but below `until`.
fn joins_between<C: Numbered>(
    alloc: Global,
    code: &C,
    joins: &[u64],
    from: usize,
    until: usize,
) -> Result<Vec<u64>, Memory>
    requires stand { All (λ a. IsSome (C.map code.now a)) joins.now }
    requires rise { IsStrictlyIncreasing joins.now }
    ensures rise { IfOk result (λ v. IsStrictlyIncreasing v.items) }
    ensures exact { IfOk result (λ v. (a : ℕ) → Contains v.items a
        ↔ Contains joins.now a × (from ≤ C.number code.now a) × (C.number code.now a < until)) }
{
    let mut between = Vec::new(alloc);
    for &a in joins {
        let number = code.number(a) as usize;
        if from <= number && number < until {
            between.push(a)?;
        }
    }
    Ok(between)
}

/// The first place from `from` on whose start is not below `a`.
fn place_from(starts: &[u64], from: usize, a: u64) -> usize
    requires { from ≤ length starts.now }
    ensures from { from ≤ result }
    ensures within { result ≤ length starts.now }
    ensures below { (k : ℕ) → from ≤ k → k < result → get_or starts.now k 0 < a }
    ensures above { result < length starts.now → a ≤ get_or starts.now result 0 }
{
    let mut place = from;
    while place < starts.len() && starts[place] < a {
        place += 1;
    }
    place
}

/// The start of the first block after those from these starts, which are the last ones below the
/// number `until`. `None` if there are none.
fn start_behind<C: Numbered>(code: &C, marks: &[bool], starts: &[u64], until: usize) -> Option<u64>
    ensures { 0 < length starts.now
        → IsFirstMarked (C.map code.now) (C.number code.now) marks.now until result }
{
    if starts.is_empty() {
        return None;
    }
    first_marked(code, marks, until)
}

/// The start after the one at place `i`, where `behind` is the one after them all.
fn next_start(starts: &[u64], behind: Option<u64>, i: usize) -> Option<u64>
    requires { i < length starts.now }
    ensures { IsNextStart starts.now behind i result }
{
    match starts.get(i + 1) {
        Some(&next) => Some(next),
        None => behind,
    }
}

/// The last addresses of the blocks from these starts, which are cut at all marks. `behind` is the
/// start of the next one after them.
fn lasts_in<C: Numbered>(
    alloc: Global,
    code: &C,
    marks: &[bool],
    starts: &[u64],
    behind: Option<u64>,
) -> Result<Vec<u64>, Memory>
    requires lawful { IsLawful (C.map code.now) }
    requires numbering { IsNumbering (C.map code.now) (C.number code.now) (length marks.now) }
    requires stand { All (λ s. IsSome (C.map code.now s)) starts.now }
    requires followed { AreFollowed (IsMarked (C.map code.now) (C.number code.now) marks.now)
        starts.now behind }
    ensures { IfOk result (λ v. AreCutAt (C.map code.now)
        (IsMarked (C.map code.now) (C.number code.now) marks.now) starts.now v.items) }
{
    let mut lasts = Vec::with_capacity(alloc, starts.len())?;
    for i in 0..starts.len() {
        let next = next_start(starts, behind, i);
        lasts.push(last_at(code, marks, starts[i], next))?;
    }
    Ok(lasts)
}

/// The last address of the block from `s`, if the next one above starts at `next`. `before` is that
/// of the block from there that is cut at some of the marks.
#[inline(always)]
fn last_again<C: Numbered>(code: &C, marks: &[bool], s: u64, next: Option<u64>, before: u64) -> u64
    requires lawful { IsLawful (C.map code.now) }
    requires numbering { IsNumbering (C.map code.now) (C.number code.now) (length marks.now) }
    requires stands { IsSome (C.map code.now s) }
    requires next { IsNext (IsMarked (C.map code.now) (C.number code.now) marks.now) s next }
    requires before { IsLastAtSome (C.map code.now) (C.number code.now) marks.now s before }
    ensures { IsLastOf (C.map code.now) (IsMarked (C.map code.now) (C.number code.now) marks.now) s
        result }
{
    match next {
        Some(start) if start <= before => last_at(code, marks, s, next),
        _ => before,
    }
}

/// The last address of the block from `s`, if the next one above starts at `next`. It is decoded
/// only if it goes straight on to that or over it.
#[inline(always)]
fn last_at<C: Numbered>(code: &C, marks: &[bool], s: u64, next: Option<u64>) -> u64
    requires lawful { IsLawful (C.map code.now) }
    requires numbering { IsNumbering (C.map code.now) (C.number code.now) (length marks.now) }
    requires stands { IsSome (C.map code.now s) }
    requires next { IsNext (IsMarked (C.map code.now) (C.number code.now) marks.now) s next }
    ensures { IsLastOf (C.map code.now) (IsMarked (C.map code.now) (C.number code.now) marks.now) s
        result }
{
    match last_before(code, s, next) {
        Some(last) => last,
        None => last_of(code, marks, s),
    }
}
