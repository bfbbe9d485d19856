//! The certificate of a text.

ghost use Rattle.std.specs.Prelude.{◌≡◌, ◌↔◌, ℕ, List, Option, codes, IfOk, IsTrue};
ghost use Rattle.cert_text.specs.declared.certificate.Part.{Part};
ghost use Rattle.cert_text.specs.declared.certificate.Certificate.{Certificate};
ghost use Rattle.cert_text.specs.Text.{IsTextOf};
ghost use Rattle.cert_text.specs.Sections.{IsPart, IsCut, StopsLines, Gives, GivesBoth};

use crate::certificate::{Certificate, Part};
use crate::error::TextError;
use crate::field::after;
use crate::lines::{LeadLines, ReturnLines};
use crate::listing::{leads_at, returns_at};
use std::alloc::Global;

/// The part whose lines stand at the front.
fn part_at(alloc: Global, bytes: &[u8]) -> Result<(Part, &[u8]), TextError>
    ensures found { IfOk result (λ x. IsPart bytes.entry.now x.0 x.1.now) }
    ensures only { (part : Part) (rest : List ℕ) → IsPart bytes.entry.now part rest → StopsLines rest
        → GivesBoth (λ x. x.0) (λ x. x.1.now) result part rest }
{
    let (returns, rest) = returns_at(alloc, bytes)?;
    let (leads, rest) = leads_at(alloc, rest)?;
    let part = Part {
        returns: ReturnLines::from_vec(returns),
        leads: LeadLines::from_vec(leads),
    };
    Ok((part, rest))
}

/// The second part with its heading, if there is one.
fn cut_at(alloc: Global, bytes: &[u8]) -> Result<(Option<Part>, &[u8]), TextError>
    ensures found { IfOk result (λ x. IsCut bytes.entry.now x.0 x.1.now) }
    ensures only { (cut : Option Part) → IsCut bytes.entry.now cut (codes "end\n")
        → GivesBoth (λ x. x.0) (λ x. x.1.now) result cut (codes "end\n") }
{
    match after(bytes, b"part cuts\n") {
        None => Ok((None, bytes)),
        Some(rest) => {
            let (part, rest) = part_at(alloc, rest)?;
            Ok((Some(part), rest))
        }
    }
}

/// Whether the last line is left, and nothing else.
fn is_last_line(bytes: &[u8]) -> bool
    ensures { IsTrue result ↔ (bytes.now ≡ codes "end\n") }
{
    bytes == b"end\n".as_slice()
}

/// The certificate whose text these bytes are.
///
/// `NoText` comes exactly if they are the text of none: addresses have sixteen lower-case
/// hexadecimal digits, ranks no leading zeros and 64 bits, and each list rises by its addresses,
/// without repeats. Time: linear in the bytes that are read. Memory: that of the lists.
pub fn parse(alloc: Global, bytes: &[u8]) -> Result<Certificate, TextError>
    // What is read has this text.
    ensures found { IfOk result (IsTextOf bytes.now) }

    // What has this text is read, unless memory runs out.
    ensures only { (certificate : Certificate) → IsTextOf bytes.now certificate
        → Gives result certificate }

    // No certificate has another text.
    ensures no_text { result ≡ Err TextError.NoText
        → (certificate : Certificate) → IsTextOf bytes.now certificate → ⊥ }
{
    let Some(rest) = after(bytes, b"cfg-cert 1\npart none\n") else {
        return Err(TextError::NoText);
    };
    let (part, rest) = part_at(alloc, rest)?;
    let (second, rest) = cut_at(alloc, rest)?;
    if is_last_line(rest) {
        Ok(Certificate { part, second })
    } else {
        Err(TextError::NoText)
    }
}
