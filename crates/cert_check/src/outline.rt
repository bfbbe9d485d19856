//! The blocks of a graph, from the leaders of a part and where their blocks end.

ghost use Rattle.std.specs.Prelude.{IfOk, length};
ghost use Rattle.cert_ends.specs.Places.{AreLeads};
ghost use Rattle.cert_check.specs.Inner.Blocks.{AreRuns};
ghost use Rattle.cert_check.specs.Inner.Outlined.{AreMade};

use crate::blocks::Run;
use cert_text::LeadLine;
use cfg_model::{Block, Chains, Memory, block_by};
use std::alloc::Global;

/// The blocks of these leaders, in their order.
/// Time: O(leaders). Memory: O(leaders).
pub(crate) fn blocks_made<C: Chains>(
    alloc: Global,
    code: &C,
    leads: &[LeadLine],
    runs: &[Run],
) -> Result<Vec<Block>, Memory>
    requires leads { AreLeads (C.map code.now) leads.now }
    requires runs { AreRuns (C.map code.now) leads.now runs.now }
    ensures { IfOk result
        (λ v. AreMade (C.map code.now) leads.now runs.now (length leads.now) v.items) }
{
    let mut blocks = Vec::with_capacity(alloc, leads.len())?;
    for (i, run) in runs.iter().enumerate() {
        blocks.push(block_by(code, leads[i].at, run.last, run.flow))?;
    }
    Ok(blocks)
}
