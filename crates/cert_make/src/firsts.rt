//! The nearest leaders: of the leaders whose chains end in a way to an address, the one of least
//! rank, and the least of those of that rank.

ghost use Rattle.std.specs.Prelude.{◌≡◌, ◌<◌, ◌⊎◌, ℕ, IfOk, IfSome, MatchOption, None, Some, length};
ghost use Rattle.std.specs.Prelude.{slice_index_or};
ghost use Rattle.cert_make.specs.Inner.Returns.{IsNotAfter};
ghost use Rattle.cert_make.specs.Inner.Offers.{AreFirsts, AreWithin, IsHandedOn, IsOwnOffer, IsTaken};

use crate::chain_ends::Ends;
use crate::exits::Exit;
use cert_text::LeadLine;
use cfg_model::Memory;
use std::alloc::Global;

/// A leader that offers a way, and its rank.
#[derive(Clone, Copy)]
pub(crate) struct Offer {
    /// The rank of the leader.
    pub(crate) rank: u64,
    /// The leader.
    pub(crate) lead: u64,
}

/// The nearest leader to each of these ends. [`Memory`] if memory ran out.
/// Time: O(leaders). Memory: 24 bytes for each end.
pub(crate) fn nearest_to_ends(
    alloc: Global,
    lines: &[LeadLine],
    ends: &Ends,
) -> Result<Vec<Option<Offer>>, Memory>
    requires as_many { length ends.now.of.items ≡ length lines.now }
    requires within { (i : ℕ) → i < length lines.now
        → slice_index_or ends.now.of.items i 0 < length ends.now.terms.items }
    ensures { IfOk result (λ v. AreFirsts (length ends.now.terms.items)
        (IsOwnOffer lines.now ends.now.of.items (length lines.now)) v.items) }
{
    let mut firsts = vec![in alloc; None; ends.terms.len()]?;
    for i in 0..lines.len() {
        let line = lines[i];
        let offer = Offer {
            rank: line.rank,
            lead: line.at,
        };
        take_offer(&mut firsts, ends.of[i], offer);
    }
    Ok(firsts)
}

/// The nearest leader to each of so many leaders, by the ways to these from ends to which these
/// leaders are the nearest. [`Memory`] if memory ran out.
/// Time: O(ways). Memory: 24 bytes for each leader.
pub(crate) fn nearest_to_leads(
    alloc: Global,
    count: usize,
    exits: &[Exit],
    offers: &[Option<Offer>],
) -> Result<Vec<Option<Offer>>, Memory>
    requires { AreWithin (length offers.now) count exits.now }
    ensures { IfOk result (λ v. AreFirsts count
        (IsHandedOn exits.now offers.now (length exits.now)) v.items) }
{
    let mut firsts = vec![in alloc; None; count]?;
    for i in 0..exits.len() {
        hand_on(&mut firsts, exits[i], offers);
    }
    Ok(firsts)
}

/// Takes what is offered at the end of this way, if anything is, at the leader that the way goes to.
fn hand_on(firsts: &mut Vec<Option<Offer>>, exit: Exit, offers: &[Option<Offer>])
    requires end { exit.end < length offers.now }
    requires to { exit.to < length firsts.old.items }
    ensures { MatchOption (slice_index_or offers.now exit.end None)
        (firsts.new.items ≡ firsts.old.items)
        (λ offer. IsTaken firsts.old.items exit.to offer firsts.new.items) }
{
    if let Some(offer) = offers[exit.end] {
        take_offer(firsts, exit.to, offer);
    }
}

/// Takes an offer at this place, if none that is there comes before it.
fn take_offer(offers: &mut Vec<Option<Offer>>, place: usize, offer: Offer)
    requires { place < length offers.old.items }
    ensures { IsTaken offers.old.items place offer offers.new.items }
{
    let first = earlier(offers[place], offer);
    offers[place] = Some(first);
}

/// The first of two offers.
fn earlier(one: Option<Offer>, other: Offer) -> Offer
    ensures one_of_both { (result ≡ other) ⊎ (one ≡ Some result) }
    ensures other { IsNotAfter result.rank result.lead other.rank other.lead }
    ensures one { IfSome one (λ w. IsNotAfter result.rank result.lead w.rank w.lead) }
{
    match one {
        Some(one) if one.rank < other.rank => one,
        Some(one) if one.rank == other.rank && one.lead <= other.lead => one,
        _ => other,
    }
}
