//! Texts of certificates: those that are read and printed again, and bytes that are no text.

use crate::asserts::holds;
use cert_text::{
    Certificate, LeadLine, LeadLines, LeadWhy, Part, ReturnLine, ReturnLines, ReturnWhy, TextError,
    parse, print,
};
use std::alloc::Global;

/// One line of every form, and a second part.
const EVERY_FORM: &[u8] = b"cfg-cert 1
part none
ret 0000000000010004 10 to 0000000000010008
ret 0000000000010008 0 self
ret fedcba9876543210 18446744073709551615 call
lead 0000000000000000 0 seed
lead 0000000000010002 1 from 0000000000010000
lead 0000000000010004 2 join 0000000000010002 0000000000010000
part cuts
ret 0000000000010004 907 self
lead ffffffffffffffff 1 seed
end
";

/// No lines at all.
const NO_LINES: &[u8] = b"cfg-cert 1\npart none\nend\n";

/// Bytes that are the text of no certificate.
const NO_TEXTS: [&[u8]; 24] = [
    b"",
    b"cfg-cert 1\npart none\nend",
    b"cfg-cert 1\npart none\nend\n\n",
    b"cfg-cert 1\npart none\nend\nend\n",
    b"cfg-cert 2\npart none\nend\n",
    b"cfg-cert 1\npart cuts\nend\n",
    b"cfg-cert 1\npart none\npart none\nend\n",
    b"cfg-cert 1\npart none\npart cuts\npart cuts\nend\n",
    b"cfg-cert 1\npart none\nlead 0000000000010000 00 seed\nend\n",
    b"cfg-cert 1\npart none\nlead 0000000000010000 01 seed\nend\n",
    b"cfg-cert 1\npart none\nlead 0000000000010000  seed\nend\n",
    b"cfg-cert 1\npart none\nlead 0000000000010000 +1 seed\nend\n",
    b"cfg-cert 1\npart none\nlead 0000000000010000 18446744073709551616 seed\nend\n",
    b"cfg-cert 1\npart none\nlead 0000000000010000 100000000000000000000 seed\nend\n",
    b"cfg-cert 1\npart none\nlead 000000000001000A 0 seed\nend\n",
    b"cfg-cert 1\npart none\nlead 000000000001000g 0 seed\nend\n",
    b"cfg-cert 1\npart none\nlead 000000000010000 0 seed\nend\n",
    b"cfg-cert 1\npart none\nlead 00000000000010000 0 seed\nend\n",
    b"cfg-cert 1\npart none\nlead 0000000000010000 0 self\nend\n",
    b"cfg-cert 1\npart none\nlead 0000000000010000 0 seed\r\nend\n",
    b"cfg-cert 1\npart none\nlead 0000000000010000 0 join 0000000000010000\nend\n",
    b"cfg-cert 1\npart none\nlead 0000000000010000 0 seed\nlead 0000000000010000 0 seed\nend\n",
    b"cfg-cert 1\npart none\nlead 0000000000010002 0 seed\nlead 0000000000010000 0 seed\nend\n",
    b"cfg-cert 1\npart none\nlead 0000000000010000 0 seed\nret 0000000000010000 0 self\nend\n",
];

#[test]
fn texts_are_read_and_printed_again(rt: HostRuntime) -> Result<(), TextError> {
    for text in [EVERY_FORM, NO_LINES] {
        let certificate = parse(rt.alloc(), text)?;
        let printed = print(rt.alloc(), &certificate).map_err(|_| TextError::Memory)?;
        holds(&rt, printed.as_slice() == text);
    }
    Ok(())
}

#[test]
fn no_texts_are_refused(rt: HostRuntime) {
    for text in NO_TEXTS {
        holds(
            &rt,
            matches!(parse(rt.alloc(), text), Err(TextError::NoText)),
        );
    }
}
