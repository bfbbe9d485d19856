//! Places on chains.

ghost use Rattle.std.specs.Prelude.{◌≡◌, ◌≢◌, ◌↔◌, ℕ, ◌<◌, ◌≤◌, IsTrue, IsSome, IfSome, IfNone};
ghost use Rattle.cfg_model.specs.Program.Chain.{GoesOnTo, IsTerminator, IsTerminatorOf, OnChain};
ghost use Rattle.cfg_model.specs.Program.Instructions.{IsLawful};
ghost use Rattle.cfg_model.specs.Program.Meeting.{IsMeeting};

use crate::flow::{Chains, Flow};

/// The terminator of the chain of `a`, its last address, as the program itself finds it: see
/// [`Chains::term`].
pub fn term<C: Chains>(code: &C, a: u64) -> u64
    requires { IsSome (C.map code.now a) }
    ensures { IsTerminatorOf (C.map code.now) a result }
{
    code.term(a)
}

/// Whether `k` is on the chain of `s`.
/// Time: O(length of the chain of `s` up to `k`).
pub fn on_chain<C: Chains>(code: &C, s: u64, k: u64) -> bool
    requires { IsSome (C.map code.now s) }
    ensures { IsTrue result ↔ OnChain (C.map code.now) s k }
{
    climb(code, s, k) == k
}

/// The address just before `m` on the chain of `s`.
/// Time: O(length of the chain of `s` up to `m`).
pub fn before<C: Chains>(code: &C, s: u64, m: u64) -> u64
    requires start { IsSome (C.map code.now s) }
    requires behind { OnChain (C.map code.now) s m }
    requires apart { m ≢ s }
    ensures on_chain { OnChain (C.map code.now) s result }
    ensures onward { GoesOnTo (C.map code.now) result m }
{
    let mut at = s;
    let mut next = towards(code, s, m);
    while next != m {
        at = next;
        next = towards(code, next, m);
    }
    at
}

/// The first address that is on the chains of both `p` and `q`, if both lead to `k`.
/// Time: O(length of the two chains up to `k`).
pub fn meet<C: Chains>(code: &C, p: u64, q: u64, k: u64) -> u64
    requires first { IsSome (C.map code.now p) }
    requires second { IsSome (C.map code.now q) }
    requires first_leads { OnChain (C.map code.now) p k }
    requires second_leads { OnChain (C.map code.now) q k }
    ensures { IsMeeting (C.map code.now) p q result }
{
    let mut a = p;
    let mut b = climb(code, q, p);
    while a != b {
        a = towards(code, a, k);
        b = climb(code, b, a);
    }
    a
}

/// The last address on the chain of `s` that does not lie above `k`, or `s` if that one does.
fn climb<C: Chains>(code: &C, s: u64, k: u64) -> u64
    requires { IsSome (C.map code.now s) }
    ensures lawful { IsLawful (C.map code.now) }
    ensures known { IsSome (C.map code.now result) }
    ensures on_chain { OnChain (C.map code.now) s result }
    ensures ahead { (x : ℕ) → k ≤ x → OnChain (C.map code.now) s x
        → OnChain (C.map code.now) result x }
    ensures found { OnChain (C.map code.now) s k → result ≡ k }
{
    let mut at = s;
    while let Some(next) = behind(code, at) {
        if next > k {
            break;
        }
        at = next;
    }
    at
}

/// The address after `a` on the way to `k`.
fn towards<C: Chains>(code: &C, a: u64, k: u64) -> u64
    requires start { IsSome (C.map code.now a) }
    requires leads { OnChain (C.map code.now) a k }
    requires apart { a ≢ k }
    ensures known { IsSome (C.map code.now result) }
    ensures onward { GoesOnTo (C.map code.now) a result }
    ensures leads { OnChain (C.map code.now) result k }
    ensures above { a < result }
{
    match behind(code, a) {
        Some(next) => next,
        None => k,
    }
}

/// The address after the instruction at `k`, if it goes straight on.
fn behind<C: Chains>(code: &C, k: u64) -> Option<u64>
    requires { IsSome (C.map code.now k) }
    ensures lawful { IsLawful (C.map code.now) }
    ensures onward { IfSome result (GoesOnTo (C.map code.now) k) }
    ensures ends { IfNone result (IsTerminator (C.map code.now) k) }
{
    match code.flow(k) {
        Flow::Straight { next } => Some(next),
        _ => None,
    }
}
