//! The ends of the listed leaders.

ghost use Rattle.std.specs.Prelude.{◌≡◌, ◌↔◌, ℕ, [], All, Contains, IfOk, IsSome, OnOk};
ghost use Rattle.std.specs.List.Sorted.{IsStrictlyIncreasing};
ghost use Rattle.cfg_model.specs.Graph.Listing.{Gains};
ghost use Rattle.cert_ends.specs.Ends.{AreEnds};
ghost use Rattle.cert_ends.specs.Inner.{EndsOne};

use cert_text::LeadLine;
use cfg_model::{Chains, Memory};
use std::alloc::Global;

/// The terminators of the chains of these leaders, rising, each once. [`Memory`] if memory ran out.
///
/// Time: O(leaders), finding the end of each of their chains, and sorting the ends.
/// Memory: 8 bytes for each end, before they are sorted for each leader at the most.
pub fn ends_of<C: Chains>(alloc: Global, code: &C, leads: &[LeadLine]) -> Result<Vec<u64>, Memory>
    requires { All (λ line. IsSome (C.map code.now line.at)) leads.now }
    ensures { IfOk result (λ v. AreEnds (C.map code.now) leads.now v.items) }
{
    let ends = each_end(alloc, code, leads)?;
    Ok(rising(ends))
}

/// The same terminators, in the order of the leaders.
fn each_end<C: Chains>(alloc: Global, code: &C, leads: &[LeadLine]) -> Result<Vec<u64>, Memory>
    requires { All (λ line. IsSome (C.map code.now line.at)) leads.now }
    ensures { IfOk result (λ v. Gains [] v.items (EndsOne (C.map code.now) leads.now)) }
{
    let mut ends = Vec::new(alloc);
    for line in leads {
        add_end(code.term(line.at), &mut ends)?;
    }
    Ok(ends)
}

/// Adds this end, unless it is the last one there: leaders of one chain often follow each other.
fn add_end(end: u64, ends: &mut Vec<u64>) -> Result<(), Memory>
    ensures { OnOk result (Gains ends.old.items ends.new.items (λ k. k ≡ end)) }
{
    match ends.last() {
        Some(&last) if last == end => Ok(()),
        _ => {
            ends.push(end)?;
            Ok(())
        }
    }
}

/// The same addresses, rising, each once.
fn rising(mut addresses: Vec<u64>) -> Vec<u64>
    ensures rising { IsStrictlyIncreasing result.items }
    ensures same { (a : ℕ) → Contains result.items a ↔ Contains addresses.items a }
{
    addresses.sort_unstable();
    addresses.dedup();
    addresses
}
