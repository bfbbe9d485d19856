//! The ways from the ends of chains to leaders.

ghost use Rattle.std.specs.Prelude.{◌≡◌, ◌⊎◌, ◌↔◌, ℕ, All, Contains, IfOk, IsSome, OnOk, Some};
ghost use Rattle.cfg_model.specs.Graph.Listing.{Gains};
ghost use Rattle.cfg_model.specs.Program.Instructions.{IsLawful, flow_at};
ghost use Rattle.cfg_model.specs.Program.Chain.{IsTerminatorOf};
ghost use Rattle.cfg_model.specs.Program.Status.{Returns};
ghost use Rattle.cert_laws.specs.Lines.{IsReturn};
ghost use Rattle.cert_ends.specs.Places.{AreNumbered};
ghost use Rattle.cert_make.specs.Reason.{GoesTo};
ghost use Rattle.cert_make.specs.Inner.Ends.{AreExits, IsExitOf};
ghost use Rattle.cert_make.specs.Inner.Offers.{TellCall};
ghost use Rattle.cert_make.specs.Inner.Places.{ArePlaced};

use crate::places::Places;
use cert_ends::{NumberedReturns, find_successors};
use cfg_model::{Flow, Memory};
use numbered::Numbered;
use std::alloc::Global;

/// A way from the end of chains to a leader.
#[derive(Clone, Copy)]
pub(crate) struct Exit {
    /// The place of the terminator.
    pub(crate) end: usize,
    /// The place of the leader.
    pub(crate) to: usize,
}

/// The ways from these terminators to leaders, which are found by their places. [`Memory`] if memory
/// ran out.
/// Time: each terminator is decoded once. Memory: 16 bytes for each way.
pub(crate) fn exits_of<C: Numbered>(
    alloc: Global,
    code: &C,
    returns: &NumberedReturns<'_>,
    places: &Places<'_>,
    terms: &[u64],
) -> Result<Vec<Exit>, Memory>
    requires stand { All (λ k. IsSome (C.map code.now k)) terms.now }
    requires numbered { AreNumbered (C.map code.now) (C.number code.now) returns.now }
    requires placed { ArePlaced (C.map code.now) (C.number code.now) places.now }
    requires tell { All (TellCall (C.map code.now) returns.now.lines.now) terms.now }
    ensures { IfOk result (λ v.
        AreExits (C.map code.now) places.now.addresses.now terms.now v.items) }
{
    let mut exits = Vec::new(alloc);
    let mut targets = Vec::new(alloc);
    for i in 0..terms.len() {
        let k = terms[i];
        let flow = code.flow(k);
        find_targets(code, returns, k, flow, &mut targets)?;
        add_exits(code, places, i, targets.as_slice(), &mut exits)?;
    }
    Ok(exits)
}

/// Puts the addresses to which the instruction at `k` goes, whose flow this is, in place of the
/// items of `targets`.
fn find_targets<C: Numbered>(
    code: &C,
    returns: &NumberedReturns<'_>,
    k: u64,
    flow: Flow,
    targets: &mut Vec<u64>,
) -> Result<(), Memory>
    requires stands { IsSome (C.map code.now k) }
    requires lawful { IsLawful (C.map code.now) }
    requires flow { flow_at (C.map code.now) k ≡ Some flow }
    requires numbered { AreNumbered (C.map code.now) (C.number code.now) returns.now }
    requires tell { TellCall (C.map code.now) returns.now.lines.now k }
    ensures { OnOk result ((a : ℕ) → Contains targets.new.items a ↔ GoesTo (C.map code.now) k a) }
{
    find_successors(code, k, flow, targets)?;
    match flow {
        Flow::Call { target, fall } => {
            add_call(code, returns, target, fall, targets)?;
            Ok(())
        }
        _ => Ok(()),
    }
}

/// Adds the target of a call, and its fall if control comes back to it.
fn add_call<C: Numbered>(
    code: &C,
    returns: &NumberedReturns<'_>,
    target: u64,
    fall: Option<u64>,
    targets: &mut Vec<u64>,
) -> Result<(), Memory>
    requires stands { IsSome (C.map code.now target) }
    requires numbered { AreNumbered (C.map code.now) (C.number code.now) returns.now }
    requires tell { (to end : ℕ) → fall ≡ Some to → IsTerminatorOf (C.map code.now) target end
        → IsReturn returns.now.lines.now end ↔ Returns (C.map code.now) target }
    ensures { OnOk result (Gains targets.old.items targets.new.items
        (λ a. (a ≡ target) ⊎ ((fall ≡ Some a) × Returns (C.map code.now) target))) }
{
    targets.push(target)?;
    if let Some(fall) = fall {
        if returns.has(code, code.term(target)) {
            targets.push(fall)?;
        }
    }
    Ok(())
}

/// Adds a way from the end at this place to each leader among these addresses.
fn add_exits<C: Numbered>(
    code: &C,
    places: &Places<'_>,
    end: usize,
    addresses: &[u64],
    exits: &mut Vec<Exit>,
) -> Result<(), Memory>
    requires { ArePlaced (C.map code.now) (C.number code.now) places.now }
    ensures { OnOk result (Gains exits.old.items exits.new.items
        (IsExitOf places.now.addresses.now (Contains addresses.now) end)) }
{
    for a in addresses {
        if let Some(to) = places.of(code, *a) {
            exits.push(Exit { end, to })?;
        }
    }
    Ok(())
}
