//! Terminators that return, found by their addresses in a list that rises.

ghost use Rattle.std.specs.Prelude.{◌≡◌, ◌↔◌, IsTrue, MatchOption, Contains};
ghost use Rattle.cert_laws.specs.Lines.{IsReturn};
ghost use Rattle.cert_ends.specs.Places.{ReturnsRise};

use cert_text::ReturnLine;

/// The line of the terminator at `k`, if it is listed as one that returns.
fn return_at(returns: &[ReturnLine], k: u64) -> Option<ReturnLine>
    requires { ReturnsRise returns.now }
    ensures { MatchOption result (¬ IsReturn returns.now k)
        (λ line. Contains returns.now line × (line.at ≡ k)) }
{
    match returns.binary_search_by_key(&k, |line| line.at) {
        Ok(i) => Some(returns[i]),
        Err(_) => None,
    }
}

/// Whether the terminator at `k` is listed as one that returns.
/// Time: O(log n) for n lines.
pub fn is_return(returns: &[ReturnLine], k: u64) -> bool
    requires { ReturnsRise returns.now }
    ensures { IsTrue result ↔ IsReturn returns.now k }
{
    match return_at(returns, k) {
        Some(_) => true,
        None => false,
    }
}
