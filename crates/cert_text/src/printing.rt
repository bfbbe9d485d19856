//! The text of a certificate.

ghost use Rattle.std.specs.Prelude.{◌≡◌, ◌++◌, IfOk, OnOk, codes};
ghost use Rattle.std.specs.List.{flat_map};
ghost use Rattle.cert_text.specs.Line.{address_field, line_front, return_reason, lead_reason};
ghost use Rattle.cert_text.specs.Line.{return_line, lead_line};
ghost use Rattle.cert_text.specs.Text.{part_text, cut_text, certificate_text, Rises};

use crate::certificate::{Certificate, Part};
use crate::lines::{LeadLine, LeadWhy, ReturnLine, ReturnWhy};
use cfg_model::Memory;
use graph_report::address_digits;
use itoa::Buffer;
use std::alloc::Global;

/// Appends a space and an address.
fn push_address(out: &mut Vec<u8>, address: u64) -> Result<(), Memory>
    ensures { OnOk result (out.new.items ≡ out.old.items ++ address_field address) }
{
    let mut field = *b" 0000000000000000";
    field[1..].copy_from_slice(&address_digits(address));
    out.extend_from_slice(&field)?;
    Ok(())
}

/// Appends the front of a line: its word, its address and its rank.
fn push_front(out: &mut Vec<u8>, word: &[u8], at: u64, rank: u64) -> Result<(), Memory>
    ensures { OnOk result (out.new.items ≡ out.old.items ++ line_front word.now at rank) }
{
    out.extend_from_slice(word)?;
    push_address(out, at)?;
    out.extend_from_slice(b" ")?;
    let mut buffer = Buffer::new();
    out.extend_from_slice(buffer.format(rank).as_bytes())?;
    Ok(())
}

/// Appends why a terminator returns, to the end of its line.
fn push_return_reason(out: &mut Vec<u8>, why: ReturnWhy) -> Result<(), Memory>
    ensures { OnOk result (out.new.items ≡ out.old.items ++ return_reason why) }
{
    match why {
        ReturnWhy::Itself => out.extend_from_slice(b" self\n")?,
        ReturnWhy::To { target } => {
            out.extend_from_slice(b" to")?;
            push_address(out, target)?;
            out.extend_from_slice(b"\n")?;
        }
        ReturnWhy::CallBoth => out.extend_from_slice(b" call\n")?,
    }
    Ok(())
}

/// Appends why an address is a leader, to the end of its line.
fn push_lead_reason(out: &mut Vec<u8>, why: LeadWhy) -> Result<(), Memory>
    ensures { OnOk result (out.new.items ≡ out.old.items ++ lead_reason why) }
{
    match why {
        LeadWhy::Seed => out.extend_from_slice(b" seed\n")?,
        LeadWhy::From { lead } => {
            out.extend_from_slice(b" from")?;
            push_address(out, lead)?;
            out.extend_from_slice(b"\n")?;
        }
        LeadWhy::Join { first, second } => {
            out.extend_from_slice(b" join")?;
            push_address(out, first)?;
            push_address(out, second)?;
            out.extend_from_slice(b"\n")?;
        }
    }
    Ok(())
}

/// Appends the lines of a part.
fn push_part(out: &mut Vec<u8>, part: &Part) -> Result<(), Memory>
    ensures { OnOk result (out.new.items ≡ out.old.items ++ part_text part.now) }
{
    push_returns(out, part.returns.as_slice())?;
    push_leads(out, part.leads.as_slice())?;
    Ok(())
}

/// Appends the lines of returns.
fn push_returns(out: &mut Vec<u8>, lines: &[ReturnLine]) -> Result<(), Memory>
    ensures { OnOk result (out.new.items ≡ out.old.items ++ flat_map return_line lines.now) }
{
    for line in lines {
        push_front(out, b"ret", line.at, line.rank)?;
        push_return_reason(out, line.why)?;
    }
    Ok(())
}

/// Appends the lines of leaders.
fn push_leads(out: &mut Vec<u8>, lines: &[LeadLine]) -> Result<(), Memory>
    ensures { OnOk result (out.new.items ≡ out.old.items ++ flat_map lead_line lines.now) }
{
    for line in lines {
        push_front(out, b"lead", line.at, line.rank)?;
        push_lead_reason(out, line.why)?;
    }
    Ok(())
}

/// The text of a certificate whose lists rise by their addresses, without repeats, or want of
/// memory.
///
/// [`parse`](crate::parse) reads it. Time: linear in the text.
pub fn print(alloc: Global, certificate: &Certificate) -> Result<Vec<u8>, Memory>
    requires { Rises certificate.now }
    ensures text { IfOk result (λ v. v.items ≡ certificate_text certificate.now) }
{
    let mut out = Vec::new(alloc);
    out.extend_from_slice(b"cfg-cert 1\npart none\n")?;
    push_part(&mut out, &certificate.part)?;
    if let Some(part) = &certificate.second {
        out.extend_from_slice(b"part cuts\n")?;
        push_part(&mut out, part)?;
    }
    out.extend_from_slice(b"end\n")?;
    Ok(out)
}
