//! The lines of a certificate, read from the front of the bytes.

ghost use Rattle.std.specs.Prelude.{◌≡◌};
ghost use Rattle.std.specs.Option.{option_map};
ghost use Rattle.cert_text.specs.Reading.{last_address_at, to_at, return_reason_at};
ghost use Rattle.cert_text.specs.Reading.{from_at, join_at, lead_reason_at, return_at, lead_at};

use crate::field::{address_at, after, rank_at};
use crate::lines::{LeadLine, LeadWhy, ReturnLine, ReturnWhy};

/// An address at the end of its line.
#[tactic(auto, unfolding(crate::specs::Reading::last_address_at))]
#[inline(always)]
fn last_address_at(bytes: &[u8]) -> Option<(u64, &[u8])>
    ensures { option_map (λ x. (x.0, x.1.now)) result ≡ last_address_at bytes.entry.now }
{
    let (address, rest) = address_at(bytes)?;
    let rest = after(rest, b"\n")?;
    Some((address, rest))
}

/// A successor that returns, to the end of the line.
#[tactic(auto, unfolding(crate::specs::Reading::to_at))]
#[inline(always)]
fn to_at(bytes: &[u8]) -> Option<(ReturnWhy, &[u8])>
    ensures { option_map (λ x. (x.0, x.1.now)) result ≡ to_at bytes.entry.now }
{
    let rest = after(bytes, b" to")?;
    let (target, rest) = last_address_at(rest)?;
    Some((ReturnWhy::To { target }, rest))
}

/// Why a terminator returns, to the end of its line.
#[tactic(auto, unfolding(crate::specs::Reading::return_reason_at))]
#[inline(always)]
fn return_reason_at(bytes: &[u8]) -> Option<(ReturnWhy, &[u8])>
    ensures { option_map (λ x. (x.0, x.1.now)) result ≡ return_reason_at bytes.entry.now }
{
    if let Some(rest) = after(bytes, b" self\n") {
        return Some((ReturnWhy::Itself, rest));
    }
    if let Some(rest) = after(bytes, b" call\n") {
        return Some((ReturnWhy::CallBoth, rest));
    }
    to_at(bytes)
}

/// A leader whose terminator goes to this one, to the end of the line.
#[tactic(auto, unfolding(crate::specs::Reading::from_at))]
#[inline(always)]
fn from_at(bytes: &[u8]) -> Option<(LeadWhy, &[u8])>
    ensures { option_map (λ x. (x.0, x.1.now)) result ≡ from_at bytes.entry.now }
{
    let rest = after(bytes, b" from")?;
    let (lead, rest) = last_address_at(rest)?;
    Some((LeadWhy::From { lead }, rest))
}

/// Two leaders whose chains meet, to the end of the line.
#[tactic(auto, unfolding(crate::specs::Reading::join_at))]
#[inline(always)]
fn join_at(bytes: &[u8]) -> Option<(LeadWhy, &[u8])>
    ensures { option_map (λ x. (x.0, x.1.now)) result ≡ join_at bytes.entry.now }
{
    let rest = after(bytes, b" join")?;
    let (first, rest) = address_at(rest)?;
    let (second, rest) = last_address_at(rest)?;
    Some((LeadWhy::Join { first, second }, rest))
}

/// Why an address is a leader, to the end of its line.
#[tactic(auto, unfolding(crate::specs::Reading::lead_reason_at))]
#[inline(always)]
fn lead_reason_at(bytes: &[u8]) -> Option<(LeadWhy, &[u8])>
    ensures { option_map (λ x. (x.0, x.1.now)) result ≡ lead_reason_at bytes.entry.now }
{
    if let Some(rest) = after(bytes, b" seed\n") {
        return Some((LeadWhy::Seed, rest));
    }
    if let Some(found) = from_at(bytes) {
        return Some(found);
    }
    join_at(bytes)
}

/// The line of a terminator that returns, after its word.
#[tactic(auto, unfolding(crate::specs::Reading::return_at))]
pub fn return_at(bytes: &[u8]) -> Option<(ReturnLine, &[u8])>
    ensures { option_map (λ x. (x.0, x.1.now)) result ≡ return_at bytes.entry.now }
{
    let (at, rest) = address_at(bytes)?;
    let (rank, rest) = rank_at(rest)?;
    let (why, rest) = return_reason_at(rest)?;
    Some((ReturnLine { at, rank, why }, rest))
}

/// The line of a leader, after its word.
#[tactic(auto, unfolding(crate::specs::Reading::lead_at))]
pub fn lead_at(bytes: &[u8]) -> Option<(LeadLine, &[u8])>
    ensures { option_map (λ x. (x.0, x.1.now)) result ≡ lead_at bytes.entry.now }
{
    let (at, rest) = address_at(bytes)?;
    let (rank, rest) = rank_at(rest)?;
    let (why, rest) = lead_reason_at(rest)?;
    Some((LeadLine { at, rank, why }, rest))
}
