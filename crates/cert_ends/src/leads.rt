//! Leaders, found by their addresses in a list that rises.

ghost use Rattle.std.specs.Prelude.{◌↔◌, ◌≤◌, ◌<◌, ℕ, IsTrue, MatchOption, length, slice_index_or};
ghost use Rattle.cert_laws.specs.Lines.{IsLead};
ghost use Rattle.cert_ends.specs.Places.{IsPlace, LeadsRise};

use cert_text::LeadLine;

/// The place of the line of the leader `a`, if it is listed.
fn place_of(leads: &[LeadLine], a: u64) -> Option<usize>
    requires { LeadsRise leads.now }
    ensures { MatchOption result (¬ IsLead leads.now a) (λ i. IsPlace leads.now i a) }
{
    match leads.binary_search_by_key(&a, |line| line.at) {
        Ok(i) => Some(i),
        Err(_) => None,
    }
}

/// Whether the leader `a` is listed.
/// Time: O(log n) for n lines.
pub fn is_lead(leads: &[LeadLine], a: u64) -> bool
    requires { LeadsRise leads.now }
    ensures { IsTrue result ↔ IsLead leads.now a }
{
    match place_of(leads, a) {
        Some(_) => true,
        None => false,
    }
}

/// The place of the first line at the address `a` or above, or the end of the list. It is `i`, or
/// lies after it; every line before `i` has to lie below `a`.
/// Time: O(lines that are passed).
pub fn place_from(leads: &[LeadLine], mut i: usize, a: u64) -> usize
    requires within { i ≤ length leads.now }
    requires before { (k : ℕ) (d : _) → k < i → (slice_index_or leads.now k d).at < a }
    ensures within { result ≤ length leads.now }
    ensures before { (k : ℕ) (d : _) → k < result → (slice_index_or leads.now k d).at < a }
    ensures there { (d : _) → result < length leads.now
        → a ≤ (slice_index_or leads.now result d).at }
{
    while i < leads.len() && leads[i].at < a {
        i += 1;
    }
    i
}
