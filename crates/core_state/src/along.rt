//! Walks along the chains of a program.

ghost use Rattle.std.specs.Prelude.{◌≡◌, ◌≢◌, ℕ, ◌<◌, ◌≤◌, IsSome};
ghost use Rattle.cfg_model.specs.Program.Chain.{GoesOnTo, OnChain};
ghost use Rattle.cfg_model.specs.Program.Instructions.{IsLawful};
ghost use Rattle.cfg_model.specs.Program.Meeting.{IsMeeting};

use cfg_model::{Chains, Flow};

/// A program as a walk along its chains sees it: the addresses of its instructions, and from a
/// straight instruction the way on. A [`Chains`] value is walked [`Along`].
///
/// Unlike a `Chains` value it need not be shared between threads. So a method of a trait that was
/// handed a `Chains` value of any type can pass it on: a [`Place`](crate::place::Place) does, when
/// a start arrives.
pub trait Walk {
    ghost use Rattle.std.specs.Prelude.{◌↔◌, IsTrue, IsSome, IfSome, IfNone};
    ghost use Rattle.cfg_model.specs.Program.Chain.{GoesOnTo, IsTerminator};
    ghost use Rattle.cfg_model.specs.Program.Instructions.{InstructionMap, IsLawful};

    /// The instructions, by address.
    ghost map: { Self → InstructionMap };

    /// Whether an instruction stands at `a`.
    fn stands(&self, a: u64) -> bool
        ensures { IsTrue result ↔ IsSome (map self.now a) };

    /// The address after the instruction at `k`, if it goes straight on.
    fn behind(&self, k: u64) -> Option<u64>
        requires { IsSome (map self.now k) }
        ensures lawful { IsLawful (map self.now) }
        ensures onward { IfSome result (GoesOnTo (map self.now) k) }
        ensures ends { IfNone result (IsTerminator (map self.now) k) };
}

/// A program, to be walked along its chains.
#[derive(Clone, Copy)]
pub struct Along<'a, C>(pub &'a C);

impl<C: Chains> Walk for Along<'_, C> {
    ghost map = { λ walk. C.map walk.0.now };

    fn stands(&self, a: u64) -> bool {
        self.0.has(a)
    }

    fn behind(&self, k: u64) -> Option<u64> {
        match self.0.flow(k) {
            Flow::Straight { next } => Some(next),
            _ => None,
        }
    }
}

/// The first address that is on the chains of both `p` and `q`, if both lead to `k`.
/// Time: O(length of the two chains up to `k`).
pub(crate) fn meet_along<W: Walk>(walk: &W, p: u64, q: u64, k: u64) -> u64
    requires first { IsSome (W.map walk.now p) }
    requires second { IsSome (W.map walk.now q) }
    requires first_leads { OnChain (W.map walk.now) p k }
    requires second_leads { OnChain (W.map walk.now) q k }
    ensures { IsMeeting (W.map walk.now) p q result }
{
    let mut a = p;
    let mut b = climb(walk, q, p);
    while a != b {
        a = towards(walk, a, k);
        b = climb(walk, b, a);
    }
    a
}

/// The last address on the chain of `s` that does not lie above `k`, or `s` if that one does.
fn climb<W: Walk>(walk: &W, s: u64, k: u64) -> u64
    requires { IsSome (W.map walk.now s) }
    ensures lawful { IsLawful (W.map walk.now) }
    ensures known { IsSome (W.map walk.now result) }
    ensures on_chain { OnChain (W.map walk.now) s result }
    ensures ahead { (x : ℕ) → k ≤ x → OnChain (W.map walk.now) s x
        → OnChain (W.map walk.now) result x }
    ensures found { OnChain (W.map walk.now) s k → result ≡ k }
{
    let mut at = s;
    while let Some(next) = walk.behind(at) {
        if next > k {
            break;
        }
        at = next;
    }
    at
}

/// The address after `a` on the way to `k`.
fn towards<W: Walk>(walk: &W, a: u64, k: u64) -> u64
    requires start { IsSome (W.map walk.now a) }
    requires leads { OnChain (W.map walk.now) a k }
    requires apart { a ≢ k }
    ensures known { IsSome (W.map walk.now result) }
    ensures onward { GoesOnTo (W.map walk.now) a result }
    ensures leads { OnChain (W.map walk.now) result k }
    ensures above { a < result }
{
    match walk.behind(a) {
        Some(next) => next,
        None => k,
    }
}
