//! Walks over reached instructions, from where control is sent.

ghost use Rattle.std.specs.Prelude.{◌≡◌, ℕ, List, [], false, length, replicate, Contains, IfOk};
ghost use Rattle.std.specs.Prelude.{IfSome, IsSome, MatchBool, MatchOption, OnOk};
ghost use Rattle.std.specs.List.Sorted.{IsStrictlyIncreasing};
ghost use Rattle.cfg_model.specs.Program.Chain.{GoesOnTo, IsTerminator};
ghost use Rattle.cfg_model.specs.Program.Instructions.{IsLawful};
ghost use Rattle.numbered.specs.Numbering.{IsMarked, IsNumbering};
ghost use Rattle.reached_graph.specs.Inner.Cuts.{AreMoreMarked};
ghost use Rattle.reached_graph.specs.Inner.Leaders.{AreMarkedBlocks, AreStarts, MarkLeaders};
ghost use Rattle.reached_graph.specs.Inner.Overlaps.{AreOverlaps};
ghost use Rattle.reached_graph.specs.Inner.Walks.{AreDone, AreFit, IsBegun, IsFresh, IsStopped};
ghost use Rattle.reached_graph.specs.Inner.Walks.{IsWalkFrom, IsWalkOn};

use crate::overlaps::Overlaps;
use cfg_model::{Flow, Memory};
use numbered::Numbered;
use std::alloc::Global;

/// How far the walks have come.
#[derive(Drop)]
pub(crate) struct Walks {
    /// Whether the address with this number was walked over.
    pub(crate) walked: Vec<bool>,
    /// Whether a block starts at it.
    pub(crate) starts: Vec<bool>,
    /// The addresses where two streams were found to join.
    pub(crate) joins: Vec<u64>,
}

/// The walks from all blocks that overlap others, if blocks start at least where the marks are set,
/// with the joins in order. `None` if no blocks overlap: then no two streams join.
pub(crate) fn walks_over<C: Numbered>(
    alloc: Global,
    code: &C,
    marks: &[bool],
    overlaps: &Overlaps,
) -> Result<Option<Walks>, Memory>
    requires lawful { IsLawful (C.map code.now) }
    requires numbering { IsNumbering (C.map code.now) (C.number code.now) (length marks.now) }
    requires overlaps { (starts : List ℕ) × (lasts : List ℕ)
        × AreMarkedBlocks (C.map code.now) (IsMarked (C.map code.now) (C.number code.now) marks.now)
        starts lasts × AreOverlaps starts lasts overlaps.now }
    ensures numbering { IfOk result (λ found. IfSome found
        (λ w. IsNumbering (C.map code.now) (C.number code.now) (length w.starts.items))) }
    ensures more { IfOk result (λ found. IfSome found (λ w. AreMoreMarked (C.map code.now)
        (C.number code.now) marks.now w.joins.items w.starts.items)) }
    ensures leaders { IfOk result (λ found. (seeds : List ℕ)
        → AreStarts (C.map code.now) seeds (IsMarked (C.map code.now) (C.number code.now) marks.now)
        → MatchOption found (MarkLeaders (C.map code.now) (C.number code.now) seeds marks.now)
        (λ w. MarkLeaders (C.map code.now) (C.number code.now) seeds w.starts.items)) }
{
    if overlaps.starts.is_empty() {
        return Ok(None);
    }
    let mut walks = Walks::of(alloc, code, marks, &overlaps.starts)?;
    walks.joins.sort_unstable();
    walks.joins.dedup();
    Ok(Some(walks))
}

impl Walks {
    /// The walks from the addresses `firsts`. Blocks start there, and wherever the marks are set.
    /// Time: linear in them, in the instructions walked over and in the numbers. Memory: two bytes
    /// for each number.
    pub(crate) fn of<C: Numbered>(
        alloc: Global,
        code: &C,
        marks: &[bool],
        firsts: &[u64],
    ) -> Result<Walks, Memory>
        requires lawful { IsLawful (C.map code.now) }
        requires numbering { IsNumbering (C.map code.now) (C.number code.now) (length marks.now) }
        requires marked { (a : ℕ) → Contains firsts.now a
            → IsMarked (C.map code.now) (C.number code.now) marks.now a }
        ensures { IfOk result
            (AreDone (C.map code.now) (C.number code.now) marks.now firsts.now) }
    {
        let mut walks = Walks::new(alloc, marks)?;
        for &s in firsts {
            walks.walk(code, s)?;
        }
        Ok(walks)
    }

    /// Nothing is walked over yet, and blocks start where the marks are set.
    fn new(alloc: Global, marks: &[bool]) -> Result<Walks, Memory>
        ensures walked { IfOk result (λ w. w.walked.items ≡ replicate (length marks.now) false) }
        ensures starts { IfOk result (λ w. w.starts.items ≡ marks.now) }
        ensures joins { IfOk result (λ w. w.joins.items ≡ []) }
    {
        Ok(Walks {
            walked: vec![in alloc; false; marks.len()]?,
            starts: Vec::from_slice(alloc, marks)?,
            joins: Vec::new(alloc),
        })
    }

    /// Walks from the address `s`, where a block starts, until the instruction at hand is not
    /// straight, or the next one starts a block or was walked over.
    fn walk<C: Numbered>(&mut self, code: &C, s: u64) -> Result<(), Memory>
        requires fit { AreFit (C.map code.now) (C.number code.now) self.old }
        requires stands { IsSome (C.map code.now s) }
        ensures { OnOk result
            (IsWalkFrom (C.map code.now) (C.number code.now) s self.old self.new) }
    {
        if !self.begin(code, s) {
            return Ok(());
        }
        self.go_on(code, s)
    }

    /// Goes on from the address `s`, which was just walked over.
    fn go_on<C: Numbered>(&mut self, code: &C, s: u64) -> Result<(), Memory>
        requires fit { AreFit (C.map code.now) (C.number code.now) self.old }
        requires here { IsMarked (C.map code.now) (C.number code.now) self.old.walked.items s }
        ensures { OnOk result
            (IsWalkOn (C.map code.now) (C.number code.now) s self.old self.new) }
    {
        let k = code.term(s);
        let mut at = s;
        while let Some(next) = next_of(code, at, k) {
            if !self.enter(code, next)? {
                return Ok(());
            }
            at = next;
        }
        Ok(())
    }

    /// Walks over the address `a`. It tells whether no walk went over it before.
    fn begin<C: Numbered>(&mut self, code: &C, a: u64) -> bool
        requires fit { AreFit (C.map code.now) (C.number code.now) self.old }
        requires stands { IsSome (C.map code.now a) }
        ensures fit { AreFit (C.map code.now) (C.number code.now) self.new }
        ensures cases { MatchBool result
            (IsBegun (C.map code.now) (C.number code.now) a self.old self.new)
            (IsMarked (C.map code.now) (C.number code.now) self.old.walked.items a
            × (self.new ≡ self.old)) }
    {
        let number = code.number(a) as usize;
        if self.walked[number] {
            return false;
        }
        self.walked[number] = true;
        true
    }

    /// Comes to the address `a`, from the straight instruction before it. It tells whether the walk
    /// goes on from there. If a walk went over it before, two streams join there.
    fn enter<C: Numbered>(&mut self, code: &C, a: u64) -> Result<bool, Memory>
        requires fit { AreFit (C.map code.now) (C.number code.now) self.old }
        requires stands { IsSome (C.map code.now a) }
        ensures fit { OnOk result (AreFit (C.map code.now) (C.number code.now) self.new) }
        ensures cases { IfOk result (λ goes_on. MatchBool goes_on
            (IsFresh (C.map code.now) (C.number code.now) a self.old self.new)
            (IsStopped (C.map code.now) (C.number code.now) a self.old self.new)) }
    {
        let number = code.number(a) as usize;
        if self.starts[number] {
            return Ok(false);
        }
        if self.walked[number] {
            self.starts[number] = true;
            self.joins.push(a)?;
            return Ok(false);
        }
        self.walked[number] = true;
        Ok(true)
    }
}

/// The address after the instruction at `a`, if control goes straight on to it. The terminator `k`
/// is not decoded.
pub(crate) fn next_of<C: Numbered>(code: &C, a: u64, k: u64) -> Option<u64>
    requires stands { IsSome (C.map code.now a) }
    requires ends { IsTerminator (C.map code.now) k }
    ensures { MatchOption result (IsTerminator (C.map code.now) a)
        (λ next. GoesOnTo (C.map code.now) a next) }
{
    if a == k {
        return None;
    }
    match code.flow(a) {
        Flow::Straight { next } => Some(next),
        _ => None,
    }
}
