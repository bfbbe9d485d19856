//! What sections of other types say: the extensions of the attributes, declared tables, and functions
//! that are declared not to return.

use crate::small_files::{RET_FILE, edited};
use elf_image::{DeclaredTable, Extensions, Image};
use elf_symbols::NoReturns;
use std::alloc::{AllocError, Global};
use std::process::Abort;
use std::test::Fail;

/// A section: its type, its flags, and its bytes.
type Made<'a> = (u32, u8, &'a [u8]);

/// The type of a section of attributes, and of one of declared tables.
const ATTRIBUTES: u32 = 0x7000_0003;

const TABLES: u32 = 0x8CF6_0001;

/// The type of a section of functions that do not return.
const NO_RETURNS: u32 = 0x8CF6_0002;

/// The file with two further sections in place of its empty one.
fn with_sections(alloc: Global, sections: &[Made<'_>; 2]) -> Result<Vec<u8>, AllocError> {
    let mut bytes = edited(alloc, &RET_FILE, &[(60, 4)])?;
    bytes.truncate(200);
    let mut offset: u32 = 328;
    for (kind, flags, content) in sections {
        let mut header = [0u8; 64];
        let size = u32::try_from(content.len()).unwrap_or(0);
        header[4..8].copy_from_slice(&kind.to_le_bytes());
        header[8] = *flags;
        header[24..28].copy_from_slice(&offset.to_le_bytes());
        header[32..36].copy_from_slice(&size.to_le_bytes());
        bytes.extend_from_slice(&header)?;
        offset = offset.wrapping_add(size);
    }
    for (_, _, content) in sections {
        bytes.extend_from_slice(content)?;
    }
    Ok(bytes)
}

/// The names of the extensions that are there.
fn listed(extensions: &Extensions) -> [(&'static str, bool); 35] {
    [
        ("zba", extensions.zba),
        ("zbb", extensions.zbb),
        ("zbs", extensions.zbs),
        ("zbc", extensions.zbc),
        ("zbkb", extensions.zbkb),
        ("zbkc", extensions.zbkc),
        ("zbkx", extensions.zbkx),
        ("zknd", extensions.zknd),
        ("zkne", extensions.zkne),
        ("zknh", extensions.zknh),
        ("zksed", extensions.zksed),
        ("zksh", extensions.zksh),
        ("zicond", extensions.zicond),
        ("zcb", extensions.zcb),
        ("zcmp", extensions.zcmp),
        ("zcmt", extensions.zcmt),
        ("zimop", extensions.zimop),
        ("zcmop", extensions.zcmop),
        ("zacas", extensions.zacas),
        ("zabha", extensions.zabha),
        ("zawrs", extensions.zawrs),
        ("zicbom", extensions.zicbom),
        ("zicboz", extensions.zicboz),
        ("zicfiss", extensions.zicfiss),
        ("zicfilp", extensions.zicfilp),
        ("zfinx", extensions.zfinx),
        ("zhinx", extensions.zhinx),
        ("zhinxmin", extensions.zhinxmin),
        ("zfh", extensions.zfh),
        ("zfhmin", extensions.zfhmin),
        ("zfa", extensions.zfa),
        ("zfbfmin", extensions.zfbfmin),
        ("zvfh", extensions.zvfh),
        ("vector", extensions.vector),
        ("xthead", extensions.xthead),
    ]
}

/// Judges that a file with two sections names these extensions and no other.
fn expect_extensions(
    rt: &impl Abort,
    alloc: Global,
    sections: &[Made<'_>; 2],
    want: &[&str],
) -> Result<(), Fail> {
    let image = Image::parse(alloc, with_sections(alloc, sections)?)?;
    for (name, is_there) in listed(image.extensions()) {
        let wanted = want.iter().any(|other| *other == name);
        assert!(rt; is_there == wanted, "{name}");
    }
    Ok(())
}

/// What GNU as 2.40 writes for `rv64gc_zba_zicbom` and an alignment of the stack, and LLVM 19 for
/// `c`, `b`, `zicond` and `zfhmin`.
static WRITTEN: [(&[u8], &[&str]); 2] = [
    (
        b"AN\0\0\0riscv\0\x01D\0\0\0\x04\x10\x05rv64i2p0_m2p0_a2p0_f2p0_d2p0_c2p0_zicbom1p0_zmmul1p0_zba1p0\0",
        &["zba", "zicbom"],
    ),
    (
        b"AZ\0\0\0riscv\0\x01P\0\0\0\x05rv64i2p1_f2p2_c2p0_b1p0_zicond1p0_zicsr2p0_zfhmin1p0_zba1p0_zbb1p0_zbs1p0\0",
        &["zba", "zbb", "zbs", "zicond", "zfhmin"],
    ),
];

/// Texts, and what they name.
static TEXTS: [(&[u8], &[&str]); 43] = [
    (b"", &[]),
    (b"rv64", &[]),
    (b"rv32i_zba", &[]),
    (b"rv64gc", &[]),
    (b"rv64gczba_zbb", &["zba", "zbb"]),
    (b"rv64gczbazbb", &[]),
    (b"RV64I2_m2b1zba1_Zbkc1p0", &["zba", "zbb", "zbs", "zbkc"]),
    (b"rv64i2pb", &["zba", "zbb", "zbs"]),
    (b"rv64zba", &[]),
    (b"rv64c_zba", &[]),
    (b"rv64_i_zba", &[]),
    (b"rva23u64", &[]),
    (b"rv64gc__zbs_", &["zbs"]),
    (b"rv64gc_b1-zbc_zbs", &["zbs"]),
    (b"rv64gc_1b_zbs", &["zbs"]),
    (b"rv64gc-_zbs", &["zbs"]),
    (b"rv64i_zkb1p", &[]),
    (b"rv64i_zbs1p0p1", &[]),
    (b"rv64i_zvl128b1p0", &[]),
    (b"rv64i_z1", &[]),
    (b"rv64imafdcsu_zba", &["zba"]),
    (b"rv64e_zbc", &["zbc"]),
    (b"rv64i2p1_m2p0_v1p0_zba1p0", &["zba", "vector"]),
    (b"RV64I_Zba1P0_ZVE32X", &["zba", "vector"]),
    (b"rv64i_zba1_zbb1p_zbs1p0p0_zbc1p0", &["zba", "zbc"]),
    (
        b"rv64i_zbkb2p10_zbkx_zicond_zcb_zimop_zcmop",
        &["zbkb", "zbkx", "zicond", "zcb", "zimop", "zcmop"],
    ),
    (
        b"rv64i_zacas_zabha_zawrs_zicbom_zicboz",
        &["zacas", "zabha", "zawrs", "zicbom", "zicboz"],
    ),
    (
        b"rv64i_zfh_zfhmin_zfa_zfbfmin_zvfh",
        &["zfh", "zfhmin", "zfa", "zfbfmin", "zvfh"],
    ),
    (
        b"rv64i_zk",
        &["zbkb", "zbkc", "zbkx", "zknd", "zkne", "zknh"],
    ),
    (
        b"rv64i_zkn1p0",
        &["zbkb", "zbkc", "zbkx", "zknd", "zkne", "zknh"],
    ),
    (b"rv64i_zks", &["zbkb", "zbkc", "zbkx", "zksed", "zksh"]),
    (b"rv64i_zknd_zksed", &["zknd", "zksed"]),
    (b"rv64i_zkne_zknh_zksh", &["zkne", "zknh", "zksh"]),
    (b"rv64imac_zce", &["zcb", "zcmp", "zcmt"]),
    (b"rv64imac_zcmp1p0", &["zcmp"]),
    (b"rv64imac_zcmt", &["zcmt"]),
    (b"rv64i_zicfiss_zicfilp", &["zicfiss", "zicfilp"]),
    (b"rv64i_zfinx_zfh_zfhmin_zfa_zfbfmin", &["zfinx"]),
    (b"rv64i_zdinx", &["zfinx"]),
    (b"rv64i_zhinx", &["zfinx", "zhinx"]),
    (b"rv64i_zhinxmin", &["zfinx", "zhinxmin"]),
    (b"rv64gc_xtheadba1p0_xsfvcp", &["xthead"]),
    (b"rv64gc_xthead", &["xthead"]),
];

/// The attributes of a text of under 200 bytes.
fn attributes(alloc: Global, text: &[u8]) -> Result<Vec<u8>, AllocError> {
    let size = u32::try_from(text.len()).unwrap_or(0);
    let mut bytes = Vec::from_slice(alloc, b"A")?;
    bytes.extend_from_slice(&size.wrapping_add(17).to_le_bytes())?;
    bytes.extend_from_slice(b"riscv\0\x01")?;
    bytes.extend_from_slice(&size.wrapping_add(7).to_le_bytes())?;
    bytes.extend_from_slice(b"\x05")?;
    bytes.extend_from_slice(text)?;
    bytes.extend_from_slice(b"\0")?;
    Ok(bytes)
}

#[test]
fn texts(rt: HostRuntime) -> Result<(), Fail> {
    let alloc = rt.alloc();
    for (bytes, want) in WRITTEN.as_slice() {
        expect_extensions(&rt, alloc, &[(1, 0, b"AN"), (ATTRIBUTES, 0, bytes)], want)?;
    }
    for (text, want) in TEXTS.as_slice() {
        let bytes = attributes(alloc, text)?;
        expect_extensions(
            &rt,
            alloc,
            &[(ATTRIBUTES, 0, &bytes), (ATTRIBUTES, 0, b"")],
            want,
        )?;
    }
    Ok(())
}

/// Attributes of which something is as it should not be, and whether they name Zba.
static BROKEN: [(&[u8], bool); 18] = [
    (b"A\x1A\0\0\0riscv\0\x01\x10\0\0\0\x05rv64i_zba\0", true),
    (b"", false),
    (b"B\x1A\0\0\0riscv\0\x01\x10\0\0\0\x05rv64i_zba\0", false),
    // A subsection that leaves the section, that is too short, of another vendor, without a zero.
    (b"A\x1B\0\0\0riscv\0\x01\x10\0\0\0\x05rv64i_zba\0", false),
    (b"A\x03\0\0\0riscv\0\x01\x10\0\0\0\x05rv64i_zba\0", false),
    (b"A\x1A\0\0\0riscw\0\x01\x10\0\0\0\x05rv64i_zba\0", false),
    (b"A\x09\0\0\0riscv\0\x01\x10\0\0\0\x05rv64i_zba\0", false),
    // Another vendor before, and one without a zero.
    (
        b"A\x08\0\0\0gnu\0\x1A\0\0\0riscv\0\x01\x10\0\0\0\x05rv64i_zba\0",
        true,
    ),
    (
        b"A\x07\0\0\0gnu\x1A\0\0\0riscv\0\x01\x10\0\0\0\x05rv64i_zba\0",
        false,
    ),
    // A part that leaves the subsection, that is too short, of a section, and one before.
    (b"A\x1A\0\0\0riscv\0\x01\x11\0\0\0\x05rv64i_zba\0", false),
    (b"A\x1A\0\0\0riscv\0\x01\x04\0\0\0\x05rv64i_zba\0", false),
    (b"A\x1A\0\0\0riscv\0\x02\x10\0\0\0\x05rv64i_zba\0", false),
    (
        b"A\x1F\0\0\0riscv\0\x02\x05\0\0\0\x01\x10\0\0\0\x05rv64i_zba\0",
        true,
    ),
    // A text without a zero byte in its part, and two texts.
    (b"A\x1A\0\0\0riscv\0\x01\x0F\0\0\0\x05rv64i_zba\0", false),
    (
        b"A\x1F\0\0\0riscv\0\x01\x15\0\0\0\x05rv6\0\x05rv64i_zba\0",
        false,
    ),
    // Long tags, one of which is 133, and a number without an end.
    (
        b"A\x1D\0\0\0riscv\0\x81\0\x13\0\0\0\x85\x80\0rv64i_zba\0",
        true,
    ),
    (
        b"A\x1B\0\0\0riscv\0\x01\x11\0\0\0\x85\x01rv64i_zba\0",
        false,
    ),
    (
        b"A\x1B\0\0\0riscv\0\x01\x11\0\0\0\x84\x80\x80\x80\x80\x80\x80\x80\x80\x80\x80\x80",
        false,
    ),
];

static ZBA: [&str; 1] = ["zba"];

#[test]
fn broken_attributes(rt: HostRuntime) -> Result<(), Fail> {
    let alloc = rt.alloc();
    let good: &[u8] = b"A\x1A\0\0\0riscv\0\x01\x10\0\0\0\x05rv64i_zbb\0";
    for (bytes, is_good) in BROKEN.as_slice() {
        // The first section counts, whatever stands in it.
        let want = &ZBA[..usize::from(*is_good)];
        expect_extensions(
            &rt,
            alloc,
            &[(ATTRIBUTES, 0, bytes), (ATTRIBUTES, 0, good)],
            want,
        )?;
    }
    expect_extensions(&rt, alloc, &[(1, 0, good), (TABLES, 0, good)], &[])
}

/// The record of a table of a jump.
fn table(jump: u64, count: u32) -> DeclaredTable {
    DeclaredTable {
        jump,
        base: 0x2_0000,
        add: u64::MAX,
        count,
        size: 4,
    }
}

/// Puts the bytes of a record after others.
fn put(bytes: &mut Vec<u8>, t: DeclaredTable) -> Result<(), AllocError> {
    bytes.extend_from_slice(&t.jump.to_le_bytes())?;
    bytes.extend_from_slice(&t.base.to_le_bytes())?;
    bytes.extend_from_slice(&t.add.to_le_bytes())?;
    bytes.extend_from_slice(&t.count.to_le_bytes())?;
    bytes.extend_from_slice(&t.size.to_le_bytes())
}

/// Two sections, of which the second lies in memory: the first record of a jump counts, and what is
/// left of a section is passed over.
#[test]
fn declared_tables(rt: HostRuntime) -> Result<(), Fail> {
    let alloc = rt.alloc();
    let mut first = Vec::new(alloc);
    put(&mut first, table(u64::MAX, 1))?;
    put(&mut first, table(0x1_0000, 2))?;
    put(&mut first, table(0x1_0000, 3))?;
    first.extend_from_slice(&[0; 31])?;
    let mut second = Vec::new(alloc);
    put(&mut second, table(0x1_0000, 4))?;
    put(&mut second, table(1, 5))?;
    put(&mut second, table(u64::MAX, 6))?;
    let file = with_sections(alloc, &[(TABLES, 0, &first), (TABLES, 2, &second)])?;
    let image = Image::parse(alloc, file)?;
    for (j, count) in [(u64::MAX, 1), (0x1_0000, 2), (1, 5)] {
        assert!(rt; image.declared(j) == Some(table(j, count)));
    }
    for j in [0, 2, 0xFFFF, 0x1_0001, u64::MAX - 1] {
        assert!(rt; image.declared(j).is_none());
    }
    Ok(())
}

/// Sections without a whole record, and of types next to that of tables.
#[test]
fn no_tables(rt: HostRuntime) -> Result<(), Fail> {
    let alloc = rt.alloc();
    let mut one = Vec::new(alloc);
    put(&mut one, table(0x1_0000, 2))?;
    let file = with_sections(alloc, &[(TABLES, 0, b""), (TABLES + 1, 0, &one)])?;
    assert!(rt; Image::parse(alloc, file)?.declared(0x1_0000).is_none());
    let file = with_sections(
        alloc,
        &[
            (TABLES, 0, &one[..one.len().min(31)]),
            (TABLES - 1, 0, &one),
        ],
    )?;
    assert!(rt; Image::parse(alloc, file)?.declared(0x1_0000).is_none());
    Ok(())
}

/// Whether the functions at 10000, 10002 and 2^64 - 1 do not return by two sections: any address
/// counts, in any section of the type, and what is left of a section is passed over.
#[test]
fn declared_no_returns(rt: HostRuntime) -> Result<(), Fail> {
    let alloc = rt.alloc();
    let code: &[u8] = b"\0\0\x01\0\0\0\0\0";
    let short: &[u8] = b"\0\0\x01\0\0\0\0";
    let last: &[u8] = b"\xFF\xFF\xFF\xFF\xFF\xFF\xFF\xFF\x02\0\x01\0\0\0\0";
    for (sections, want) in [
        (
            [(NO_RETURNS, 0, code), (NO_RETURNS, 3, last)],
            [true, false, true],
        ),
        (
            [(NO_RETURNS, 0, last), (NO_RETURNS, 0, last)],
            [false, false, true],
        ),
        ([(TABLES, 0, code), (NO_RETURNS + 1, 0, last)], [false; 3]),
        ([(NO_RETURNS, 0, short), (1, 0, last)], [false; 3]),
    ] {
        let image = Image::parse(alloc, with_sections(alloc, &sections)?)?;
        let found = NoReturns::of(alloc, &image)?;
        assert!(rt; found.has(0x1_0000) == want[0]);
        assert!(rt; found.has(0x1_0002) == want[1]);
        assert!(rt; found.has(u64::MAX) == want[2]);
    }
    Ok(())
}
