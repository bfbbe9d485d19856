//! The canonical certificates of the files of worked rows, as texts.

ghost use Rattle.cfg_vectors.specs.Rows.{IsRow};

use crate::asserts::same;
use cert_text::print;
use certify::file_certificate;
use cfg_vectors::row_file;
use elf_image::Image;
use elf_symbols::seeds;
use std::alloc::Global;
use std::process::Abort;
use std::test::Fail;

const ROW_1: &[u8] = b"cfg-cert 1
part none
ret 0000000000010000 0 self
lead 0000000000010000 0 seed
end
";

const ROW_8: &[u8] = b"cfg-cert 1
part none
ret 0000000000010004 1 to 0000000000010008
ret 0000000000010008 0 self
lead 0000000000010000 0 seed
lead 0000000000010002 1 from 0000000000010000
lead 0000000000010004 2 join 0000000000010002 0000000000010000
lead 0000000000010008 1 from 0000000000010000
end
";

/// Row 15, whose tables overlap: the return at 1004c, to which only the entries lead that are cut off,
/// is no leader.
const ROW_15: &[u8] = b"cfg-cert 1
part none
ret 0000000000010004 1 to 0000000000010024
ret 000000000001001c 1 to 0000000000010020
ret 0000000000010020 0 self
ret 0000000000010024 0 self
ret 000000000001002c 1 to 0000000000010050
ret 0000000000010048 1 to 0000000000010054
ret 0000000000010050 0 self
ret 0000000000010054 0 self
lead 0000000000010000 0 seed
lead 0000000000010008 1 from 0000000000010000
lead 0000000000010020 2 from 0000000000010008
lead 0000000000010024 1 from 0000000000010000
lead 0000000000010028 0 seed
lead 0000000000010030 1 from 0000000000010028
lead 0000000000010050 1 from 0000000000010028
lead 0000000000010054 2 from 0000000000010030
end
";

/// Row 6: a branch back into its own block.
const ROW_6: &[u8] = b"cfg-cert 1
part none
ret 0000000000010008 1 to 000000000001000c
ret 000000000001000c 0 self
lead 0000000000010000 0 seed
lead 0000000000010004 1 from 0000000000010000
lead 000000000001000c 1 from 0000000000010000
end
";

/// Row 9: a function that calls itself, and so never returns.
const ROW_9: &[u8] = b"cfg-cert 1
part none
lead 0000000000010000 0 seed
end
";

/// Row 10: two functions that call each other.
const ROW_10: &[u8] = b"cfg-cert 1
part none
ret 0000000000010000 1 to 0000000000010008
ret 0000000000010004 3 call
ret 0000000000010008 0 self
ret 000000000001000c 2 call
ret 0000000000010010 0 self
lead 0000000000010000 0 seed
lead 0000000000010004 1 from 0000000000010000
lead 0000000000010008 1 from 0000000000010000
lead 000000000001000c 2 from 0000000000010004
lead 0000000000010010 3 from 000000000001000c
end
";

/// Row 17: a jump back.
const ROW_17: &[u8] = b"cfg-cert 1
part none
ret 0000000000010000 1 to 0000000000010008
ret 0000000000010004 2 to 0000000000010000
ret 0000000000010008 0 self
ret 000000000001000c 2 to 0000000000010000
lead 0000000000010000 0 seed
lead 0000000000010004 1 from 0000000000010000
lead 0000000000010008 1 from 0000000000010000
lead 000000000001000c 0 seed
end
";

/// Row 30: a ring of calls, which never return.
const ROW_30: &[u8] = b"cfg-cert 1
part none
lead 0000000000010000 0 seed
lead 0000000000010008 1 from 0000000000010000
lead 0000000000010010 2 from 0000000000010008
end
";

/// The text of the canonical certificate of a row's file.
fn canonical_text(alloc: Global, row: u32) -> Result<Vec<u8>, Fail>
    requires { IsRow row 0 }
{
    let image = Image::parse(alloc, row_file(alloc, row, 0)?)?;
    let seeds = seeds(alloc, &image)?;
    let certificate = file_certificate(alloc, &image, &seeds)?;
    let text = print(alloc, &certificate)?;
    Ok(text)
}

#[test]
fn canonical_certificates_of_rows(rt: HostRuntime) -> Result<(), Fail> {
    same(&rt, &canonical_text(rt.alloc(), 1)?.as_slice(), &ROW_1);
    same(&rt, &canonical_text(rt.alloc(), 8)?.as_slice(), &ROW_8);
    same(&rt, &canonical_text(rt.alloc(), 15)?.as_slice(), &ROW_15);
    Ok(())
}

#[test]
fn canonical_certificates_of_calls(rt: HostRuntime) -> Result<(), Fail> {
    same(&rt, &canonical_text(rt.alloc(), 9)?.as_slice(), &ROW_9);
    same(&rt, &canonical_text(rt.alloc(), 10)?.as_slice(), &ROW_10);
    same(&rt, &canonical_text(rt.alloc(), 30)?.as_slice(), &ROW_30);
    Ok(())
}

#[test]
fn canonical_certificates_of_loops(rt: HostRuntime) -> Result<(), Fail> {
    same(&rt, &canonical_text(rt.alloc(), 6)?.as_slice(), &ROW_6);
    same(&rt, &canonical_text(rt.alloc(), 17)?.as_slice(), &ROW_17);
    Ok(())
}
