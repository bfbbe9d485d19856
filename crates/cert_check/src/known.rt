//! Whether an instruction stands at each line of a part, and whether each seed is a leader.

ghost use Rattle.std.specs.Prelude.{◌↔◌, All, IsSome, IsTrue};
ghost use Rattle.cert_laws.specs.Lines.{IsLead};
ghost use Rattle.cert_laws.specs.Valid.{AreInCode};
ghost use Rattle.cert_ends.specs.Places.{LeadsRise};

use cert_ends::is_lead;
use cert_text::{LeadLine, Part, ReturnLine};
use cfg_model::Chains;

/// Whether an instruction stands at the address of each line.
/// Time: O(lines).
pub fn are_in_code<C: Chains>(code: &C, part: &Part) -> bool
    ensures { IsTrue result ↔ AreInCode (C.map code.now) part.now }
{
    returns_stand(code, part.returns.as_slice()) && leads_stand(code, part.leads.as_slice())
}

/// Whether an instruction stands at each of these.
fn returns_stand<C: Chains>(code: &C, returns: &[ReturnLine]) -> bool
    ensures { IsTrue result ↔ All (λ line. IsSome (C.map code.now line.at)) returns.now }
{
    for line in returns {
        if !code.has(line.at) {
            return false;
        }
    }
    true
}

/// Whether an instruction stands at each of these.
fn leads_stand<C: Chains>(code: &C, leads: &[LeadLine]) -> bool
    ensures { IsTrue result ↔ All (λ line. IsSome (C.map code.now line.at)) leads.now }
{
    for line in leads {
        if !code.has(line.at) {
            return false;
        }
    }
    true
}

/// Whether each seed is a listed leader.
/// Time: O(seeds · log leaders).
pub fn seeds_lead(leads: &[LeadLine], seeds: &[u64]) -> bool
    requires { LeadsRise leads.now }
    ensures { IsTrue result ↔ All (IsLead leads.now) seeds.now }
{
    for seed in seeds {
        if !is_lead(leads, *seed) {
            return false;
        }
    }
    true
}
