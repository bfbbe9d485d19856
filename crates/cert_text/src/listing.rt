//! The lists of a part, read from the front of the bytes.

ghost use Rattle.std.specs.Prelude.{◌≡◌, ℕ, ◌↔◌, List, None, map, codes, IfOk, IsTrue};
ghost use Rattle.cert_text.specs.declared.lines.ReturnLine.{ReturnLine};
ghost use Rattle.cert_text.specs.declared.lines.LeadLine.{LeadLine};
ghost use Rattle.cert_text.specs.Reading.{after};
ghost use Rattle.cert_text.specs.Sections.{IsReturns, IsLeads, EndsBelow, GivesBoth};

use crate::error::TextError;
use crate::field::after;
use crate::lines::{LeadLine, ReturnLine};
use crate::reading::{lead_at, return_at};
use std::alloc::Global;

/// Whether the last of these lines has an address below `at`.
#[inline(always)]
fn returns_end_below(lines: &[ReturnLine], at: u64) -> bool
    ensures { IsTrue result ↔ EndsBelow (map (λ l. l.at) lines.now) at }
{
    match lines.last() {
        None => true,
        Some(last) => last.at < at,
    }
}

/// Whether the last of these lines has an address below `at`.
#[inline(always)]
fn leads_end_below(lines: &[LeadLine], at: u64) -> bool
    ensures { IsTrue result ↔ EndsBelow (map (λ l. l.at) lines.now) at }
{
    match lines.last() {
        None => true,
        Some(last) => last.at < at,
    }
}

/// All lines of returns that stand at the front.
pub fn returns_at(alloc: Global, bytes: &[u8]) -> Result<(Vec<ReturnLine>, &[u8]), TextError>
    ensures found { IfOk result (λ x. IsReturns bytes.entry.now x.0.items x.1.now) }
    ensures only { (lines : List ReturnLine) (rest : List ℕ) → IsReturns bytes.entry.now lines rest
        → after (codes "ret") rest ≡ None
        → GivesBoth (λ x. x.0.items) (λ x. x.1.now) result lines rest }
{
    let mut lines = Vec::new(alloc);
    let mut rest = bytes;
    while let Some(fields) = after(rest, b"ret") {
        let Some((line, others)) = return_at(fields) else {
            return Err(TextError::NoText);
        };
        if !returns_end_below(lines.as_slice(), line.at) {
            return Err(TextError::NoText);
        }
        lines.push(line)?;
        rest = others;
    }
    Ok((lines, rest))
}

/// All lines of leaders that stand at the front.
pub fn leads_at(alloc: Global, bytes: &[u8]) -> Result<(Vec<LeadLine>, &[u8]), TextError>
    ensures found { IfOk result (λ x. IsLeads bytes.entry.now x.0.items x.1.now) }
    ensures only { (lines : List LeadLine) (rest : List ℕ) → IsLeads bytes.entry.now lines rest
        → after (codes "lead") rest ≡ None
        → GivesBoth (λ x. x.0.items) (λ x. x.1.now) result lines rest }
{
    let mut lines = Vec::new(alloc);
    let mut rest = bytes;
    while let Some(fields) = after(rest, b"lead") {
        let Some((line, others)) = lead_at(fields) else {
            return Err(TextError::NoText);
        };
        if !leads_end_below(lines.as_slice(), line.at) {
            return Err(TextError::NoText);
        }
        lines.push(line)?;
        rest = others;
    }
    Ok((lines, rest))
}
