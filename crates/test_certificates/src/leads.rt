//! Parts that are valid, and the same without one leader.

use crate::asserts::holds;
use cert_check::outline_of_part;
use cert_text::parse;
use std::alloc::Global;
use std::process::Abort;
use std::test::Fail;
use test_programs::{Sample, row_8, table_jump};

/// Two streams that join before a branch.
const JOINING: &[u8] = b"cfg-cert 1
part none
ret 0000000000000004 1 to 0000000000000008
ret 0000000000000008 0 self
lead 0000000000000000 0 seed
lead 0000000000000002 1 from 0000000000000000
lead 0000000000000004 2 join 0000000000000002 0000000000000000
lead 0000000000000008 1 from 0000000000000000
end
";

/// The same without the leader at 2, to which the branch leads.
const NO_BRANCH_TARGET: [&[u8]; 2] = [
    b"cfg-cert 1
part none
ret 0000000000000004 1 to 0000000000000008
ret 0000000000000008 0 self
lead 0000000000000000 0 seed
lead 0000000000000004 1 from 0000000000000000
lead 0000000000000008 1 from 0000000000000000
end
",
    // Nor is there the one at 4, so that nothing else is wrong.
    b"cfg-cert 1
part none
ret 0000000000000004 1 to 0000000000000008
ret 0000000000000008 0 self
lead 0000000000000000 0 seed
lead 0000000000000008 1 from 0000000000000000
end
",
];

/// A table jump and its two targets.
const TABLE: &[u8] = b"cfg-cert 1
part none
ret 0000000000000000 1 to 0000000000000002
ret 0000000000000002 0 self
lead 0000000000000000 0 seed
lead 0000000000000002 1 from 0000000000000000
lead 0000000000000004 1 from 0000000000000000
end
";

/// The same without the target at 4.
const NO_TABLE_TARGET: &[u8] = b"cfg-cert 1
part none
ret 0000000000000000 1 to 0000000000000002
ret 0000000000000002 0 self
lead 0000000000000000 0 seed
lead 0000000000000002 1 from 0000000000000000
end
";

/// Whether the part of the certificate of this text is valid for a program whose seed is 0.
fn is_valid(alloc: Global, code: &Sample, text: &[u8]) -> Result<bool, Fail> {
    let certificate = parse(alloc, text)?;
    let outline = outline_of_part(alloc, code, &[0], &certificate.part)?;
    Ok(outline.is_some())
}

/// The target of a branch is asked for.
#[test]
fn branch_target_missed(rt: HostRuntime) -> Result<(), Fail> {
    let code = row_8(rt.alloc());
    holds(&rt, is_valid(rt.alloc(), &code, JOINING)?);
    for text in NO_BRANCH_TARGET {
        holds(&rt, !is_valid(rt.alloc(), &code, text)?);
    }
    Ok(())
}

/// Each target of a table jump is asked for.
#[test]
fn table_target_missed(rt: HostRuntime) -> Result<(), Fail> {
    let code = table_jump(rt.alloc());
    holds(&rt, is_valid(rt.alloc(), &code, TABLE)?);
    holds(&rt, !is_valid(rt.alloc(), &code, NO_TABLE_TARGET)?);
    Ok(())
}
