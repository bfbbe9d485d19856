//! Whether a leader is missing that a block leads to.

ghost use Rattle.std.specs.Prelude.{◌↔◌, IsTrue};
ghost use Rattle.cfg_model.specs.Program.Instructions.{IsLawful};
ghost use Rattle.cert_laws.specs.Valid.{LeadsAreClosed};
ghost use Rattle.cert_ends.specs.Places.{AreLeads};
ghost use Rattle.cert_check.specs.Inner.Blocks.{AreBlocks};
ghost use Rattle.cert_check.specs.Inner.Ways.{AreWays};

use crate::blocks::Blocks;
use cert_text::Part;
use cfg_model::Edge;
use numbered::Numbered;

/// Whether no leader is missing to which one of the ends of the listed leaders leads: whether each
/// edge from their blocks leads to one. So no end is looked at again.
/// Time: O(edges), with a look-up for each.
pub(crate) fn leads_are_closed<C: Numbered>(
    code: &C,
    part: &Part,
    blocks: &Blocks,
    edges: &[Edge],
) -> bool
    requires lawful { IsLawful (C.map code.now) }
    requires leads { AreLeads (C.map code.now) part.now.leads }
    requires blocks { AreBlocks (C.map code.now) (C.number code.now) part.now.leads blocks.now }
    requires edges { AreWays (C.map code.now) part.now.leads part.now.returns edges.now }
    ensures { IsTrue result ↔ LeadsAreClosed (C.map code.now) part.now }
{
    for edge in edges {
        if !blocks.is_lead(code, part, edge.to) {
            return false;
        }
    }
    true
}
