//! The leaders of a program: the addresses where its blocks start.

ghost use Rattle.std.specs.Prelude.{◌↔◌, ◌<◌, ℕ, List, Contains, IfOk, IsSome};
ghost use Rattle.std.specs.List.Sorted.{IsStrictlyIncreasing};
ghost use Rattle.cfg_model.specs.Graph.Leader.{IsLeader};
ghost use Rattle.cfg_model.specs.Program.Instructions.{IsLawful};
ghost use Rattle.numbered.specs.Numbering.{IsNumbering, NumbersRise};
ghost use Rattle.reached_terms.specs.Reached.{AreReachedTerms};
ghost use Rattle.reached_graph.specs.Inner.Leaders.{AreLeaders};

use crate::overlaps::Overlaps;
use crate::walks::walks_over;
use cfg_model::Memory;
use numbered::Numbered;
use reached_terms::ReachedTerms;
use std::alloc::Global;
use std::slice::from_ref;

/// Leaders of a program, and where their blocks end.
#[derive(Drop)]
pub(crate) struct Leaders {
    /// The leaders, rising.
    pub(crate) starts: Vec<u64>,
    /// The address of the last instruction of the block of each.
    pub(crate) lasts: Vec<u64>,
}

/// The leaders of the program `code`, from what it reaches: the addresses where its blocks start,
/// rising. [`Memory`] if memory ran out. Time and memory: those of finding the blocks, as of
/// [`graph_from`](crate::graph_from).
pub fn leaders_of<C: Numbered>(
    alloc: Global,
    code: &C,
    reached: &ReachedTerms,
) -> Result<Vec<u64>, Memory>
    requires { (seeds : List ℕ)
        × AreReachedTerms (C.map code.now) (C.number code.now) seeds reached.now }
    ensures rising { IfOk result (λ v. IsStrictlyIncreasing v.items) }
    ensures exact { IfOk result (λ v. (seeds : List ℕ)
        → AreReachedTerms (C.map code.now) (C.number code.now) seeds reached.now
        → (a : ℕ) → Contains v.items a ↔ IsLeader (C.map code.now) seeds a) }
{
    Ok(Leaders::of(alloc, code, reached)?.starts)
}

impl Leaders {
    /// The leaders of the program `code`, from what it reaches.
    ///
    /// Blocks are known to start where control is sent. Other leaders are those where two streams
    /// join. Two streams can join only where two blocks overlap that are cut at the known starts: so
    /// only the blocks that overlap are walked over.
    /// Time: linear in the numbers, in the instructions of the blocks that go straight on to the
    /// next, and in those of the blocks that overlap, but for sorting the joins. Memory, but for the
    /// spare room of vectors: 16 bytes for each leader; if blocks overlap, up to 40, and two for each
    /// number.
    pub(crate) fn of<C: Numbered>(
        alloc: Global,
        code: &C,
        reached: &ReachedTerms,
    ) -> Result<Leaders, Memory>
        requires { (seeds : List ℕ)
            × AreReachedTerms (C.map code.now) (C.number code.now) seeds reached.now }
        ensures { IfOk result (λ leaders. (seeds : List ℕ)
            → AreReachedTerms (C.map code.now) (C.number code.now) seeds reached.now
            → AreLeaders (C.map code.now) seeds leaders) }
    {
        know_laws(code);
        let marks = reached.starts();
        let leaders = Leaders::cut(alloc, code, marks, 0, marks.len())?;
        let overlaps = Overlaps::of(alloc, from_ref(&leaders))?;
        match walks_over(alloc, code, marks, &overlaps)? {
            Some(walks) => {
                leaders.cut_again(alloc, code, &walks.starts, &walks.joins, 0, marks.len())
            }
            None => Ok(leaders),
        }
    }
}

/// Each answer of a program shows its laws, so this asks it for one.
pub(crate) fn know_laws<C: Numbered>(code: &C)
    ensures lawful { IsLawful (C.map code.now) }
    ensures rise { NumbersRise (C.map code.now) (C.number code.now) }
    ensures apart { (count : ℕ)
        → ((a : ℕ) → IsSome (C.map code.now a) → C.number code.now a < count)
        → IsNumbering (C.map code.now) (C.number code.now) count }
{
    let _ = code.numbers();
}
