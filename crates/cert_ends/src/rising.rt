//! Whether the lists of a part rise.

ghost use Rattle.std.specs.Prelude.{◌↔◌, IsTrue};
ghost use Rattle.cert_text.specs.Text.{PartRises};
ghost use Rattle.cert_ends.specs.Places.{LeadsRise, ReturnsRise};

use cert_text::{LeadLine, Part, ReturnLine};

/// Whether each list of a part rises by its addresses, without repeats.
/// Time: O(lines).
pub fn part_rises(part: &Part) -> bool
    ensures exact { IsTrue result ↔ PartRises part.now }
    ensures returns { IsTrue result → ReturnsRise part.now.returns }
    ensures leads { IsTrue result → LeadsRise part.now.leads }
{
    returns_rise(part.returns.as_slice()) && leads_rise(part.leads.as_slice())
}

/// Whether these lines rise by their addresses.
fn returns_rise(returns: &[ReturnLine]) -> bool
    ensures { IsTrue result ↔ ReturnsRise returns.now }
{
    returns.is_sorted_by(|one, other| one.at < other.at)
}

/// Whether these lines rise by their addresses.
fn leads_rise(leads: &[LeadLine]) -> bool
    ensures { IsTrue result ↔ LeadsRise leads.now }
{
    leads.is_sorted_by(|one, other| one.at < other.at)
}
