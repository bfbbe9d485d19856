//! The groups of extensions that take encodings of others, or that are read by class, at words and
//! halfwords from outside: what LLVM's assembler makes of each row.

use crate::asserts::same_at;
use crate::extensions::all;
use elf_image::Extensions;
use rv_decode::{AwayKind, Insn, VendorKind};
use rv_extensions::{decode_extension, expand_extension};
use std::test::Fail;

/// Carry-less multiplication, scalar cryptography and shadow stacks: a word, and the registers that it
/// reads and writes.
static WORDS: [(u32, u32, u32); 26] = [
    (0x0a3110b3, 0xc, 0x2), // clmul x1, x2, x3
    (0x0bf03533, 0x80000000, 0x400), // clmulh x10, x0, x31
    (0x3a3100b3, 0xc, 0x2), // aes64ds x1, x2, x3
    (0x3e0f0fb3, 0x40000000, 0x80000000), // aes64dsm x31, x30, x0
    (0x30031293, 0x40, 0x20), // aes64im x5, x6
    (0x31041393, 0x100, 0x80), // aes64ks1i x7, x8, 0
    (0x31a41393, 0x100, 0x80), // aes64ks1i x7, x8, 10
    (0x7eb504b3, 0xc00, 0x200), // aes64ks2 x9, x10, x11
    (0x32e68633, 0x6000, 0x1000), // aes64es x12, x13, x14
    (0x371807b3, 0x30000, 0x8000), // aes64esm x15, x16, x17
    (0x10011093, 0x4, 0x2), // sha256sum0 x1, x2
    (0x10121193, 0x10, 0x8), // sha256sum1 x3, x4
    (0x10231293, 0x40, 0x20), // sha256sig0 x5, x6
    (0x10341393, 0x100, 0x80), // sha256sig1 x7, x8
    (0x10451493, 0x400, 0x200), // sha512sum0 x9, x10
    (0x10561593, 0x1000, 0x800), // sha512sum1 x11, x12
    (0x10671693, 0x4000, 0x2000), // sha512sig0 x13, x14
    (0x10701793, 0x0, 0x8000), // sha512sig1 x15, x0
    (0x10889813, 0x20000, 0x10000), // sm3p0 x16, x17
    (0x10999913, 0x80000, 0x40000), // sm3p1 x18, x19
    (0x303100b3, 0xc, 0x2), // sm4ed x1, x2, x3, 0
    (0xb0b50533, 0xc00, 0x400), // sm4ed x10, x10, x11, 2
    (0x74628233, 0x60, 0x10), // sm4ks x4, x5, x6, 1
    (0xf49403b3, 0x300, 0x80), // sm4ks x7, x8, x9, 3
    (0x4821a0af, 0xc, 0x2), // ssamoswap.w x1, x2, (x3)
    (0x4e53322f, 0x60, 0x10), // ssamoswap.d.aqrl x4, x5, (x6)
];

/// AES64KS1I with a round of 11 and of 15; AES64IM with another source; SM4ED with a function;
/// SSAMOSWAP of a byte.
const NO_WORDS: [u32; 5] = [0x31b51513, 0x31f51513, 0x30159513, 0x30b51533, 0x4821802f];

/// Floats in integer registers: a word, and the registers that it reads and writes.
static INTEGERS: [(u32, u32, u32); 60] = [
    (0x6ac5f543, 0x3800, 0x400), // fmadd.d x10, x11, x12, x13
    (0x223110c7, 0x1c, 0x2), // fmsub.d x1, x2, x3, x4, rtz
    (0x427372cb, 0x1c0, 0x20), // fnmsub.d x5, x6, x7, x8
    (0x02a074cf, 0x400, 0x200), // fnmadd.d x9, x0, x10, x0
    (0x023170d3, 0xc, 0x2), // fadd.d x1, x2, x3
    (0x0a62f253, 0x60, 0x10), // fsub.d x4, x5, x6
    (0x129473d3, 0x300, 0x80), // fmul.d x7, x8, x9
    (0x1ac5f553, 0x1800, 0x400), // fdiv.d x10, x11, x12
    (0x5a0776d3, 0x4000, 0x2000), // fsqrt.d x13, x14
    (0x231807d3, 0x30000, 0x8000), // fsgnj.d x15, x16, x17
    (0x231817d3, 0x30000, 0x8000), // fsgnjn.d x15, x16, x17
    (0x2339a953, 0x80000, 0x40000), // fsgnjx.d x18, x19, x19
    (0x2b6a8a53, 0x600000, 0x100000), // fmin.d x20, x21, x22
    (0x2b9c1bd3, 0x3000000, 0x800000), // fmax.d x23, x24, x25
    (0xa23100d3, 0xc, 0x2), // fle.d x1, x2, x3
    (0xa2629253, 0x60, 0x10), // flt.d x4, x5, x6
    (0xa29423d3, 0x300, 0x80), // feq.d x7, x8, x9
    (0xe2059553, 0x800, 0x400), // fclass.d x10, x11
    (0x401170d3, 0x4, 0x2), // fcvt.s.d x1, x2
    (0x420201d3, 0x10, 0x8), // fcvt.d.s x3, x4
    (0xc20372d3, 0x40, 0x20), // fcvt.w.d x5, x6
    (0xc21473d3, 0x100, 0x80), // fcvt.wu.d x7, x8
    (0xc22574d3, 0x400, 0x200), // fcvt.l.d x9, x10
    (0xc23675d3, 0x1000, 0x800), // fcvt.lu.d x11, x12
    (0xd20706d3, 0x4000, 0x2000), // fcvt.d.w x13, x14
    (0xd21807d3, 0x10000, 0x8000), // fcvt.d.wu x15, x16
    (0xd22978d3, 0x40000, 0x20000), // fcvt.d.l x17, x18
    (0xd23a79d3, 0x100000, 0x80000), // fcvt.d.lu x19, x20
    (0x68c5f543, 0x3800, 0x400), // fmadd.s x10, x11, x12, x13
    (0x68c5f547, 0x3800, 0x400), // fmsub.s x10, x11, x12, x13
    (0x68c5f54b, 0x3800, 0x400), // fnmsub.s x10, x11, x12, x13
    (0x68c5f54f, 0x3800, 0x400), // fnmadd.s x10, x11, x12, x13
    (0x003170d3, 0xc, 0x2), // fadd.s x1, x2, x3
    (0x0862f253, 0x60, 0x10), // fsub.s x4, x5, x6
    (0x109473d3, 0x300, 0x80), // fmul.s x7, x8, x9
    (0x18c5f553, 0x1800, 0x400), // fdiv.s x10, x11, x12
    (0x580776d3, 0x4000, 0x2000), // fsqrt.s x13, x14
    (0x211807d3, 0x30000, 0x8000), // fsgnj.s x15, x16, x17
    (0x296a8a53, 0x600000, 0x100000), // fmin.s x20, x21, x22
    (0xa09423d3, 0x300, 0x80), // feq.s x7, x8, x9
    (0xe0059553, 0x800, 0x400), // fclass.s x10, x11
    (0xc00372d3, 0x40, 0x20), // fcvt.w.s x5, x6
    (0xc03675d3, 0x1000, 0x800), // fcvt.lu.s x11, x12
    (0xd01877d3, 0x10000, 0x8000), // fcvt.s.wu x15, x16
    (0xd02372d3, 0x40, 0x20), // fcvt.s.l x5, x6
    (0x6cc5f543, 0x3800, 0x400), // fmadd.h x10, x11, x12, x13
    (0x243170cf, 0x1c, 0x2), // fnmadd.h x1, x2, x3, x4
    (0x043170d3, 0xc, 0x2), // fadd.h x1, x2, x3
    (0x1cc5f553, 0x1800, 0x400), // fdiv.h x10, x11, x12
    (0x5c0776d3, 0x4000, 0x2000), // fsqrt.h x13, x14
    (0x251807d3, 0x30000, 0x8000), // fsgnj.h x15, x16, x17
    (0x2d6a9a53, 0x600000, 0x100000), // fmax.h x20, x21, x22
    (0xa49423d3, 0x300, 0x80), // feq.h x7, x8, x9
    (0xe4059553, 0x800, 0x400), // fclass.h x10, x11
    (0xc40372d3, 0x40, 0x20), // fcvt.w.h x5, x6
    (0xd43675d3, 0x1000, 0x800), // fcvt.h.lu x11, x12
    (0x402100d3, 0x4, 0x2), // fcvt.s.h x1, x2
    (0x440271d3, 0x10, 0x8), // fcvt.h.s x3, x4
    (0x422302d3, 0x40, 0x20), // fcvt.d.h x5, x6
    (0x441473d3, 0x100, 0x80), // fcvt.h.d x7, x8
];

/// Under the same names: FLW, FLD, FSW, FSD, FMV.X.W, FMV.W.X, FMV.X.D, FMV.D.X, FLH, FSH, FMV.X.H,
/// FMV.H.X; FADD.D with the rounding mode 5, FADD.Q.
const NO_INTEGERS: [u32; 14] = [
    0x0005a507, 0x0005b507, 0x00a5a027, 0x00a5b027, 0xe0050553, 0xf0050553, 0xe2050553, 0xf2050553,
    0x00059507, 0x00a59027, 0xe4050553, 0xf4050553, 0x023150d3, 0x063170d3,
];

/// CM.PUSH and CM.POP with each list, CM.MVSA01 and CM.MVA01S: a halfword, and the registers that it
/// reads and writes.
static STRAIGHT: [(u16, u32, u32); 34] = [
    (0xb842, 0x6, 0x4), // cm.push {ra}, -16
    (0xba46, 0x4, 0x6), // cm.pop {ra}, 32
    (0xb852, 0x106, 0x4), // cm.push {ra, s0}, -16
    (0xba56, 0x4, 0x106), // cm.pop {ra, s0}, 32
    (0xb862, 0x306, 0x4), // cm.push {ra, s0-s1}, -32
    (0xba66, 0x4, 0x306), // cm.pop {ra, s0-s1}, 48
    (0xb872, 0x40306, 0x4), // cm.push {ra, s0-s2}, -32
    (0xba76, 0x4, 0x40306), // cm.pop {ra, s0-s2}, 48
    (0xb882, 0xc0306, 0x4), // cm.push {ra, s0-s3}, -48
    (0xba86, 0x4, 0xc0306), // cm.pop {ra, s0-s3}, 64
    (0xb892, 0x1c0306, 0x4), // cm.push {ra, s0-s4}, -48
    (0xba96, 0x4, 0x1c0306), // cm.pop {ra, s0-s4}, 64
    (0xb8a2, 0x3c0306, 0x4), // cm.push {ra, s0-s5}, -64
    (0xbaa6, 0x4, 0x3c0306), // cm.pop {ra, s0-s5}, 80
    (0xb8b2, 0x7c0306, 0x4), // cm.push {ra, s0-s6}, -64
    (0xbab6, 0x4, 0x7c0306), // cm.pop {ra, s0-s6}, 80
    (0xb8c2, 0xfc0306, 0x4), // cm.push {ra, s0-s7}, -80
    (0xbac6, 0x4, 0xfc0306), // cm.pop {ra, s0-s7}, 96
    (0xb8d2, 0x1fc0306, 0x4), // cm.push {ra, s0-s8}, -80
    (0xbad6, 0x4, 0x1fc0306), // cm.pop {ra, s0-s8}, 96
    (0xb8e2, 0x3fc0306, 0x4), // cm.push {ra, s0-s9}, -96
    (0xbae6, 0x4, 0x3fc0306), // cm.pop {ra, s0-s9}, 112
    (0xb8f2, 0xffc0306, 0x4), // cm.push {ra, s0-s11}, -112
    (0xbaf6, 0x4, 0xffc0306), // cm.pop {ra, s0-s11}, 128
    (0xac26, 0xc00, 0x300), // cm.mvsa01 s0, s1
    (0xafa2, 0xc00, 0x800100), // cm.mvsa01 s7, s0
    (0xad3a, 0xc00, 0x440000), // cm.mvsa01 s2, s6
    (0xadb6, 0xc00, 0x280000), // cm.mvsa01 s3, s5
    (0xae2a, 0xc00, 0x140000), // cm.mvsa01 s4, s2
    (0xac66, 0x300, 0xc00), // cm.mva01s s0, s1
    (0xaffe, 0x800000, 0xc00), // cm.mva01s s7, s7
    (0xad7a, 0x440000, 0xc00), // cm.mva01s s2, s6
    (0xadf6, 0x280000, 0xc00), // cm.mva01s s3, s5
    (0xae66, 0x100200, 0xc00), // cm.mva01s s4, s1
];

/// CM.POPRETZ and CM.POPRET with each list, CM.JT and CM.JALT: where each goes, too.
static AWAY: [(u16, AwayKind, u32, u32); 28] = [
    (0xbc4a, AwayKind::Return, 0x4, 0x406), // cm.popretz {ra}, 48
    (0xbe4e, AwayKind::Return, 0x4, 0x6), // cm.popret {ra}, 64
    (0xbc5a, AwayKind::Return, 0x4, 0x506), // cm.popretz {ra, s0}, 48
    (0xbe5e, AwayKind::Return, 0x4, 0x106), // cm.popret {ra, s0}, 64
    (0xbc6a, AwayKind::Return, 0x4, 0x706), // cm.popretz {ra, s0-s1}, 64
    (0xbe6e, AwayKind::Return, 0x4, 0x306), // cm.popret {ra, s0-s1}, 80
    (0xbc7a, AwayKind::Return, 0x4, 0x40706), // cm.popretz {ra, s0-s2}, 64
    (0xbe7e, AwayKind::Return, 0x4, 0x40306), // cm.popret {ra, s0-s2}, 80
    (0xbc8a, AwayKind::Return, 0x4, 0xc0706), // cm.popretz {ra, s0-s3}, 80
    (0xbe8e, AwayKind::Return, 0x4, 0xc0306), // cm.popret {ra, s0-s3}, 96
    (0xbc9a, AwayKind::Return, 0x4, 0x1c0706), // cm.popretz {ra, s0-s4}, 80
    (0xbe9e, AwayKind::Return, 0x4, 0x1c0306), // cm.popret {ra, s0-s4}, 96
    (0xbcaa, AwayKind::Return, 0x4, 0x3c0706), // cm.popretz {ra, s0-s5}, 96
    (0xbeae, AwayKind::Return, 0x4, 0x3c0306), // cm.popret {ra, s0-s5}, 112
    (0xbcba, AwayKind::Return, 0x4, 0x7c0706), // cm.popretz {ra, s0-s6}, 96
    (0xbebe, AwayKind::Return, 0x4, 0x7c0306), // cm.popret {ra, s0-s6}, 112
    (0xbcca, AwayKind::Return, 0x4, 0xfc0706), // cm.popretz {ra, s0-s7}, 112
    (0xbece, AwayKind::Return, 0x4, 0xfc0306), // cm.popret {ra, s0-s7}, 128
    (0xbcda, AwayKind::Return, 0x4, 0x1fc0706), // cm.popretz {ra, s0-s8}, 112
    (0xbede, AwayKind::Return, 0x4, 0x1fc0306), // cm.popret {ra, s0-s8}, 128
    (0xbcea, AwayKind::Return, 0x4, 0x3fc0706), // cm.popretz {ra, s0-s9}, 128
    (0xbeee, AwayKind::Return, 0x4, 0x3fc0306), // cm.popret {ra, s0-s9}, 144
    (0xbcfa, AwayKind::Return, 0x4, 0xffc0706), // cm.popretz {ra, s0-s11}, 144
    (0xbefe, AwayKind::Return, 0x4, 0xffc0306), // cm.popret {ra, s0-s11}, 160
    (0xa002, AwayKind::Unknown, 0x0, 0x0), // cm.jt 0
    (0xa07e, AwayKind::Unknown, 0x0, 0x0), // cm.jt 31
    (0xa082, AwayKind::Call, 0x0, 0x2), // cm.jalt 32
    (0xa3fe, AwayKind::Call, 0x0, 0x2), // cm.jalt 255
];

/// CM.POPRETZ with the list 3, CM.PUSH with the lists 0 and 3; CM.MVSA01 with one register twice;
/// others in the place of C.FSDSP.
const NO_HALFWORDS: [u16; 8] = [
    0xbc32, 0xb802, 0xb832, 0xaca6, 0xb942, 0xac02, 0xa402, 0xb002,
];

/// Words of opcode 0B: what each computes, its shift, and its fields rd, rs1 and rs2.
static VENDOR: [(u32, VendorKind, u8, u8, u8, u8); 13] = [
    (0x00c5950b, VendorKind::Addsl, 0, 10, 11, 12), // th.addsl x10, x11, x12, 0
    (0x0631108b, VendorKind::Addsl, 3, 1, 2, 3), // th.addsl x1, x2, x3, 3
    (0x44c5c50b, VendorKind::Lrw, 2, 10, 11, 12), // th.lrw x10, x11, x12, 2
    (0x54c5c50b, VendorKind::Lurw, 2, 10, 11, 12), // th.lurw x10, x11, x12, 2
    (0x6662c20b, VendorKind::Lrd, 3, 4, 5, 6), // th.lrd x4, x5, x6, 3
    (0x7294438b, VendorKind::Lurd, 1, 7, 8, 9), // th.lurd x7, x8, x9, 1
    (0x00c5c50b, VendorKind::Other, 0, 10, 11, 12), // th.lrb x10, x11, x12, 0
    (0x1815c50b, VendorKind::Other, 0, 10, 11, 1), // th.lbia x10, (x11), 1, 0
    (0x6631508b, VendorKind::Other, 3, 1, 2, 3), // th.srd x1, x2, x3, 3
    (0xf8b6450b, VendorKind::Other, 0, 10, 12, 11), // th.ldd x10, x11, (x12), 0, 4
    (0x3c31208b, VendorKind::Other, 2, 1, 2, 3), // th.ext x1, x2, 15, 3
    (0x4031108b, VendorKind::Other, 0, 1, 2, 3), // th.mveqz x1, x2, x3
    (0x2062920b, VendorKind::Other, 0, 4, 5, 6), // th.mula x4, x5, x6
];

#[test]
fn words_of_further_rows(rt: HostRuntime) -> Result<(), Fail> {
    for (word, reads, writes) in WORDS.iter() {
        let insn = Insn::Extension {
            reads: *reads,
            writes: *writes,
        };
        same_at(&rt, word, &decode_extension(all(), *word), &Some(insn));
        let unnamed = decode_extension(Extensions::none(), *word);
        same_at(&rt, word, &unnamed, &None);
    }
    for word in NO_WORDS {
        same_at(&rt, &word, &decode_extension(all(), word), &None);
    }
    Ok(())
}

#[test]
fn floats_in_integer_registers(rt: HostRuntime) -> Result<(), Fail> {
    let named = Extensions {
        zfinx: true,
        zhinx: true,
        vector: true,
        ..Extensions::none()
    };
    for (word, reads, writes) in INTEGERS.iter() {
        let insn = Insn::Extension {
            reads: *reads,
            writes: *writes,
        };
        same_at(&rt, word, &decode_extension(named, *word), &Some(insn));
        let unnamed = decode_extension(Extensions::none(), *word);
        same_at(&rt, word, &unnamed, &None);
    }
    for word in NO_INTEGERS {
        same_at(&rt, &word, &decode_extension(named, word), &None);
    }
    // vfadd.vf v5,v2,x10; vfmv.f.s x5,v1; vfadd.vv v5,v2,v1
    for (word, reads, writes) in [
        (0x022552d7, 0x400, 0),
        (0x421012d7, 0, 0x20),
        (0x022092d7, 0, 0),
    ] {
        let insn = Insn::Extension { reads, writes };
        same_at(&rt, &word, &decode_extension(named, word), &Some(insn));
    }
    Ok(())
}

/// Half precision asks for Zhinx, and its conversions for Zhinx or Zhinxmin.
#[test]
fn halves_in_integer_registers(rt: HostRuntime) -> Result<(), Fail> {
    let single = Extensions {
        zfinx: true,
        ..Extensions::none()
    };
    let least = Extensions {
        zhinxmin: true,
        ..single
    };
    // fadd.h x1,x2,x3; fmadd.h x10,x11,x12,x13; fcvt.s.h x1,x2; fcvt.h.d x7,x8; fadd.s x1,x2,x3
    for (word, in_single, in_least) in [
        (0x043170d3, false, false),
        (0x6cc5f543, false, false),
        (0x402100d3, false, true),
        (0x441473d3, false, true),
        (0x003170d3, true, true),
    ] {
        let found = decode_extension(single, word);
        same_at(&rt, &word, &found.is_some(), &in_single);
        let found = decode_extension(least, word);
        same_at(&rt, &word, &found.is_some(), &in_least);
    }
    Ok(())
}

#[test]
fn halfwords_of_the_stack(rt: HostRuntime) -> Result<(), Fail> {
    for (half, reads, writes) in STRAIGHT.iter() {
        let insn = Insn::Extension {
            reads: *reads,
            writes: *writes,
        };
        same_at(&rt, half, &expand_extension(all(), *half), &Some(insn));
    }
    for (half, kind, reads, writes) in AWAY.iter() {
        let insn = Insn::Away {
            kind: *kind,
            reads: *reads,
            writes: *writes,
        };
        same_at(&rt, half, &expand_extension(all(), *half), &Some(insn));
    }
    for half in NO_HALFWORDS {
        same_at(&rt, &half, &expand_extension(all(), half), &None);
    }
    // cm.popret {ra}; cm.jt 31
    for (half, named) in [
        (
            0xbe42,
            Extensions {
                zcmt: true,
                ..Extensions::none()
            },
        ),
        (
            0xa07e,
            Extensions {
                zcmp: true,
                ..Extensions::none()
            },
        ),
    ] {
        same_at(&rt, &half, &expand_extension(named, half), &None);
    }
    Ok(())
}

#[test]
fn words_of_a_vendor(rt: HostRuntime) -> Result<(), Fail> {
    for (word, kind, shift, rd, rs1, rs2) in VENDOR.iter() {
        let insn = Insn::Vendor {
            kind: *kind,
            shift: *shift,
            rd: *rd,
            rs1: *rs1,
            rs2: *rs2,
        };
        same_at(&rt, word, &decode_extension(all(), *word), &Some(insn));
        let unnamed = decode_extension(Extensions::none(), *word);
        same_at(&rt, word, &unnamed, &None);
    }
    Ok(())
}

/// One name alone opens these words: CLMUL by Zbkc, which does not open CLMULR, AES64DS, AES64ES,
/// AES64KS2 by either, SHA256SUM0, SM3P0, SM4ED, SSAMOSWAP.W.
#[test]
fn words_of_one_name(rt: HostRuntime) -> Result<(), Fail> {
    let none = Extensions::none();
    let zknd = Extensions { zknd: true, ..none };
    let zkne = Extensions { zkne: true, ..none };
    let zbkc = Extensions { zbkc: true, ..none };
    let zicfiss = Extensions {
        zicfiss: true,
        ..none
    };
    for (named, word, is_one) in [
        (zbkc, 0x0a3110b3, true),
        (zbkc, 0x0a3120b3, false),
        (zknd, 0x3a3100b3, true),
        (zkne, 0x3a3100b3, false),
        (zkne, 0x323100b3, true),
        (zknd, 0x323100b3, false),
        (zknd, 0x7e3100b3, true),
        (zkne, 0x7e3100b3, true),
        (Extensions { zknh: true, ..none }, 0x10011093, true),
        (Extensions { zksh: true, ..none }, 0x10811093, true),
        (
            Extensions {
                zksed: true,
                ..none
            },
            0x303100b3,
            true,
        ),
        (zicfiss, 0x4821a0af, true),
    ] {
        let found = decode_extension(named, word);
        same_at(&rt, &word, &found.is_some(), &is_one);
    }
    Ok(())
}
