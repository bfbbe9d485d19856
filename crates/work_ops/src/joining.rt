//! Arriving at the end of a start before this one.
//!
//! A long run may be found from its last instruction and then from the front, one start after the
//! other. Each of them arrives right before the last one. Only the first has to walk the run up to
//! there: the others lie on the chain of the one before them.

ghost use Rattle.std.specs.Prelude.{◌≡◌, IfErr, IfOk, IfSome, IsSome, IsTrue};
ghost use Rattle.cfg_model.specs.Program.Chain.{GoesOnTo, OnChain};
ghost use Rattle.cfg_model.specs.Program.Instructions.{IsLawful};
ghost use Rattle.core_state.specs.Place.{AreKept};
ghost use Rattle.work_ops.specs.Going.{RoseIfBusy, Went};
ghost use Rattle.work_ops.specs.inner.Walking.{IsBeforeStart};

use crate::code::{flow_of, leads};
use cfg_model::{Chains, Flow};
use core_state::{Job, Place, PlaceEnd};

/// The address on the chain of `s` right before the start `near`, if a start before `s`, no farther
/// away than `near`, has arrived there and leads to `s`.
pub(crate) fn joining<J: Job, P: Place<J>, C: Chains>(
    place: &mut P,
    code: &C,
    s: u64,
    near: u64,
) -> Result<Option<u64>, PlaceEnd>
    requires code { C.map code.now ≡ J.map }
    requires lawful { IsLawful J.map }
    requires kept { AreKept J.map J.seeds (P.maps place.old) }
    ensures went { Went J.map J.seeds P.maps P.knows P.busies place.old place.new }
    ensures same { P.maps place.new ≡ P.maps place.old }
    ensures busy { IfErr result (RoseIfBusy (P.busies place.old) (P.busies place.new)) }
    ensures found { IfOk result
        (λ found. IfSome found (IsBeforeStart J.map (P.knows place.new) s near)) }
{
    let long = joining_at::<J, P, C>(place, code, s, near.saturating_sub(4), near)?;
    if long.is_some() {
        return Ok(long);
    }
    joining_at::<J, P, C>(place, code, s, near.saturating_sub(2), near)
}

/// The same, where the last instruction before `near` may stand at `at`.
fn joining_at<J: Job, P: Place<J>, C: Chains>(
    place: &mut P,
    code: &C,
    s: u64,
    at: u64,
    near: u64,
) -> Result<Option<u64>, PlaceEnd>
    requires code { C.map code.now ≡ J.map }
    requires lawful { IsLawful J.map }
    requires kept { AreKept J.map J.seeds (P.maps place.old) }
    ensures went { Went J.map J.seeds P.maps P.knows P.busies place.old place.new }
    ensures same { P.maps place.new ≡ P.maps place.old }
    ensures busy { IfErr result (RoseIfBusy (P.busies place.old) (P.busies place.new)) }
    ensures found { IfOk result
        (λ found. IfSome found (IsBeforeStart J.map (P.knows place.new) s near)) }
{
    if at < s {
        return Ok(None);
    }
    if !goes_into::<J, C>(code, at, near) {
        return Ok(None);
    }
    let Some(other) = place.near(at)? else {
        return Ok(None);
    };
    if !is_close::<J, C>(code, other, s, at - s) {
        return Ok(None);
    }
    let known = place.has_start(near)?;
    Ok(if known { Some(at) } else { None })
}

/// Whether an instruction stands at `at` that goes straight on to `next`.
fn goes_into<J: Job, C: Chains>(code: &C, at: u64, next: u64) -> bool
    requires code { C.map code.now ≡ J.map }
    ensures { IsTrue result → GoesOnTo J.map at next }
{
    if !code.has(at) {
        return false;
    }
    match flow_of::<J, C>(code, at) {
        Flow::Straight { next: behind } => behind == next,
        _ => false,
    }
}

/// Whether `s` is on the chain of `p`, at most this many bytes after it.
fn is_close<J: Job, C: Chains>(code: &C, p: u64, s: u64, bytes: u64) -> bool
    requires code { C.map code.now ≡ J.map }
    ensures { IsTrue result → OnChain J.map p s }
{
    p <= s && s - p <= bytes && code.has(p) && leads::<J, C>(code, p, s)
}
