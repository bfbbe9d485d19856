//! The closure of a program: all that it reaches, visited and told.

ghost use Rattle.std.specs.Prelude.{◌≡◌, ℕ, List, length, IfOk, OnOk, IsSome, All};
ghost use Rattle.cfg_model.specs.Program.Chain.{IsTerminator};
ghost use Rattle.cfg_model.specs.Program.Reach.{Reached};
ghost use Rattle.reached_terms.specs.Inner.Closing.{IsClosure, IsSeeded};
ghost use Rattle.reached_terms.specs.Inner.Marks.{AreKept, AreRight, AreTold, IsVisited};
ghost use Rattle.reached_terms.specs.Inner.Steps.{Grow};

use crate::marks::Marks;
use cfg_model::Memory;
use numbered::Numbered;
use std::alloc::Global;

/// What the program `code` reaches from `seeds`, and who waits for whom.
pub(crate) fn closure_of<C: Numbered>(
    alloc: Global,
    code: &C,
    seeds: &[u64],
) -> Result<Marks, Memory>
    requires { All (λ a. IsSome (C.map code.now a)) seeds.now }
    ensures { IfOk result (IsClosure (C.map code.now) (C.number code.now) seeds.now) }
{
    let mut marks = Marks::new(alloc, code.numbers())?;
    for &seed in seeds {
        marks.arrive(code, seed)?;
    }
    close(&mut marks, code)?;
    Ok(marks)
}

/// Visits the listed terminators, and those that are found on the way, until none is left.
pub(crate) fn close<C: Numbered>(marks: &mut Marks, code: &C) -> Result<(), Memory>
    requires { AreKept (C.map code.now) (C.number code.now) marks.old }
    ensures { OnOk result ((seeds : List ℕ)
        → IsSeeded (C.map code.now) (C.number code.now) seeds seeds marks.old
        → IsClosure (C.map code.now) (C.number code.now) seeds marks.new) }
{
    let mut i = 0;
    while i < marks.order.len() {
        let k = marks.order[i];
        settle(marks, code, k)?;
        i += 1;
    }
    Ok(())
}

/// Visits the reached terminator `k`, and notifies all whom that concerns.
#[inline(always)]
fn settle<C: Numbered>(marks: &mut Marks, code: &C, k: u64) -> Result<(), Memory>
    requires kept { AreKept (C.map code.now) (C.number code.now) marks.old }
    requires ends { IsTerminator (C.map code.now) k }
    ensures kept { OnOk result (AreKept (C.map code.now) (C.number code.now) marks.new) }
    ensures grow { OnOk result (Grow marks.old marks.new) }
    ensures visited { OnOk result
        (IsVisited (C.map code.now) (C.number code.now) marks.new k) }
    ensures seeded { OnOk result ((seeds seen : List ℕ)
        → Reached (C.map code.now) seeds k
        → IsSeeded (C.map code.now) (C.number code.now) seeds seen marks.old
        → IsSeeded (C.map code.now) (C.number code.now) seeds seen marks.new) }
{
    marks.visit(code, k)?;
    notify_all(marks, code)?;
    Ok(())
}

/// Notifies all that wait for a terminator that returns, until there is none left to be told.
#[inline(always)]
fn notify_all<C: Numbered>(marks: &mut Marks, code: &C) -> Result<(), Memory>
    requires kept { AreKept (C.map code.now) (C.number code.now) marks.old }
    ensures kept { OnOk result (AreKept (C.map code.now) (C.number code.now) marks.new) }
    ensures grow { OnOk result (Grow marks.old marks.new) }
    ensures right { OnOk result ((seeds : List ℕ)
        → AreRight (C.map code.now) (C.number code.now) seeds marks.old
        → AreRight (C.map code.now) (C.number code.now) seeds marks.new) }
    ensures told { OnOk result
        (((n : ℕ) → AreTold (C.map code.now) (C.number code.now) marks.old n 0)
        → (n : ℕ) → AreTold (C.map code.now) (C.number code.now) marks.new n 0) }
    ensures none { OnOk result (length marks.new.untold.items ≡ 0) }
{
    while let Some(n) = marks.untold.pop() {
        marks.notify(code, n)?;
    }
    Ok(())
}
