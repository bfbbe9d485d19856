//! The graph of a program, from a valid part of a certificate.

ghost use Rattle.std.specs.Prelude.{◌↔◌, IfOk, IsSome, IsTrue, MatchOption};
ghost use Rattle.cfg_model.specs.Graph.Function.{IsFunction};
ghost use Rattle.cfg_model.specs.Graph.Graph.{FunctionBefore, IsGraph, IsOutline};
ghost use Rattle.cfg_model.specs.Graph.Listing.{Lists};
ghost use Rattle.outline_funcs.specs.Listed.{AreOrdered, HaveEachEntry};
ghost use Rattle.cert_laws.specs.Lines.{IsReturn};
ghost use Rattle.cert_laws.specs.Ways.{EndsIn};
ghost use Rattle.cert_laws.specs.Valid.{IsValid};
ghost use Rattle.cert_ends.specs.Places.{ReturnsRise};

use crate::part::{know_laws, outline_of_part};
use cert_ends::is_return;
use cert_text::{Part, ReturnLine};
use cfg_model::{Chains, Functions, Graph, Memory, Outline};
use numbered::Numbered;
use outline_funcs::{functions_among, mark_tails};
use std::alloc::Global;

/// The graph of the program `code`, whose seeds are these, if the part of a certificate is valid for
/// it, with its functions and tail calls; `None` exactly if the part is not valid. `entry` is the
/// address where the program starts. Nothing is asked of the part or the seeds.
///
/// [`Memory`] if memory ran out, or as of [`outline_of_part`] and [`functions_among`]. Time and
/// memory as of these two.
pub fn graph_of_part<C: Numbered>(
    alloc: Global,
    code: &C,
    entry: u64,
    seeds: &[u64],
    part: &Part,
) -> Result<Option<Graph>, Memory>
    ensures { IfOk result (λ found. MatchOption found
        (¬ IsValid (C.map code.now) seeds.now part.now)
        (λ graph. IsValid (C.map code.now) seeds.now part.now
        × IsGraph (C.map code.now) seeds.now entry graph)) }
{
    match outline_of_part(alloc, code, seeds, part)? {
        Some(outline) => {
            let graph = graph_of_outline(alloc, code, entry, seeds, part, outline)?;
            Ok(Some(graph))
        }
        None => Ok(None),
    }
}

/// The graph of the program `code`, whose seeds are these, from a valid part and the blocks and edges
/// that [`outline_of_part`] gives of it. `entry` is the address where the program starts.
///
/// [`Memory`] if memory ran out, or as of [`functions_among`]. Time and memory as of that one.
pub fn graph_of_outline<C: Chains>(
    alloc: Global,
    code: &C,
    entry: u64,
    seeds: &[u64],
    part: &Part,
    outline: Outline,
) -> Result<Graph, Memory>
    requires valid { IsValid (C.map code.now) seeds.now part.now }
    requires outline { IsOutline (C.map code.now) seeds.now outline.blocks outline.edges }
    ensures { IfOk result (IsGraph (C.map code.now) seeds.now entry) }
{
    let functions = functions_of(alloc, code, seeds, part, &outline)?;
    let Outline { blocks, mut edges } = outline;
    mark_tails(&functions, &mut edges);
    Ok(Graph {
        entry,
        functions,
        blocks,
        edges,
    })
}

/// The functions, whose return status the listed returns tell.
fn functions_of<C: Chains>(
    alloc: Global,
    code: &C,
    seeds: &[u64],
    part: &Part,
    outline: &Outline,
) -> Result<Functions, Memory>
    requires valid { IsValid (C.map code.now) seeds.now part.now }
    requires outline { IsOutline (C.map code.now) seeds.now outline.now.blocks outline.now.edges }
    ensures exact { IfOk result (Lists FunctionBefore (IsFunction (C.map code.now) seeds.now)) }
    ensures complete { IfOk result (HaveEachEntry (C.map code.now) seeds.now) }
    ensures ordered { IfOk result AreOrdered }
{
    know_laws(code);
    let returns = |a: u64| -> bool
        requires { ReturnsRise part.now.returns × IsSome (C.map code.now a) }
        ensures { IsTrue result ↔ EndsIn (C.map code.entry.now) (IsReturn part.entry.now.returns) a }
    { ends_in_return(code, part.returns.as_slice(), a) };
    functions_among(alloc, code, seeds, outline, &returns)
}

/// Whether the chain of `a` ends in a listed return. It is asked of few addresses, so it is looked
/// for by halves.
/// Time: O(log n) for n returns.
fn ends_in_return<C: Chains>(code: &C, returns: &[ReturnLine], a: u64) -> bool
    requires returns { ReturnsRise returns.now }
    requires stands { IsSome (C.map code.now a) }
    ensures { IsTrue result ↔ EndsIn (C.map code.now) (IsReturn returns.now) a }
{
    is_return(returns, code.term(a))
}
