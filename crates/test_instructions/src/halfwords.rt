//! `expand` on pairs from outside, and over all halfwords against counts made by hand.

use crate::asserts::{same, same_at};
use rvc_expand::expand;

/// Halfwords with the instruction that each stands for, and halfwords that stand for none.
#[test]
fn expands_worked_halfwords(rt: HostRuntime) {
    for (half, want) in [
        (0x0001, Some(0x0000_0013)),
        (0x479d, Some(0x0070_0793)),
        (0x050a, Some(0x0025_1513)),
        (0x953a, Some(0x00e5_0533)),
        (0x411c, Some(0x0005_2783)),
        (0x97ba, Some(0x00e7_87b3)),
        (0x8782, Some(0x0007_8067)),
        (0x8082, Some(0x0000_8067)),
        (0xa001, Some(0x0000_006f)),
        (0x9002, Some(0x0010_0073)),
        (0x0000, None),
        (0x8002, None),
        (0x9c41, None),
    ] {
        same_at(&rt, &half, &expand(half), &want);
    }
}

/// The encodings of one form: the bits that are fixed, bits that must not have a value, and how
/// many halfwords are left.
#[derive(Clone, Copy)]
struct Form {
    name: &'static str,
    mask: u16,
    bits: u16,
    except: Option<(u16, u16)>,
    count: usize,
}

impl Form {
    fn new(name: &'static str, mask: u16, bits: u16, count: usize) -> Self {
        Form {
            name,
            mask,
            bits,
            except: None,
            count,
        }
    }

    /// The form without the halfwords whose bits of `mask` have the value `bits`.
    fn except(self, mask: u16, bits: u16) -> Self {
        Form {
            except: Some((mask, bits)),
            ..self
        }
    }

    fn has(&self, half: u16) -> bool {
        let excepted = match self.except {
            Some((mask, bits)) => half & mask == bits,
            None => false,
        };
        half & self.mask == self.bits && !excepted
    }
}

/// A count is the product of how many values each field of the form may have. A field of three bits
/// names a register in 8 ways. One of five bits does so in 32 ways, or 31 if x0 is refused. An
/// immediate of n bits has 2 ^ n values, or one less if 0 is refused.
fn forms() -> [Form; 32] {
    [
        Form::new("C.ADDI4SPN", 0xe003, 0x0000, 255 * 8),
        Form::new("C.LW", 0xe003, 0x4000, 32 * 8 * 8),
        Form::new("C.LD", 0xe003, 0x6000, 32 * 8 * 8),
        Form::new("C.SW", 0xe003, 0xc000, 32 * 8 * 8),
        Form::new("C.SD", 0xe003, 0xe000, 32 * 8 * 8),
        Form::new("C.ADDI", 0xe003, 0x0001, 32 * 64),
        Form::new("C.ADDIW", 0xe003, 0x2001, 31 * 64),
        Form::new("C.LI", 0xe003, 0x4001, 32 * 64),
        Form::new("C.ADDI16SP", 0xef83, 0x6101, 63),
        Form::new("C.LUI", 0xe003, 0x6001, 31 * 63).except(0x0f80, 0x0100),
        Form::new("C.SRLI", 0xec03, 0x8001, 8 * 64),
        Form::new("C.SRAI", 0xec03, 0x8401, 8 * 64),
        Form::new("C.ANDI", 0xec03, 0x8801, 8 * 64),
        Form::new("C.SUB", 0xfc63, 0x8c01, 8 * 8),
        Form::new("C.XOR", 0xfc63, 0x8c21, 8 * 8),
        Form::new("C.OR", 0xfc63, 0x8c41, 8 * 8),
        Form::new("C.AND", 0xfc63, 0x8c61, 8 * 8),
        Form::new("C.SUBW", 0xfc63, 0x9c01, 8 * 8),
        Form::new("C.ADDW", 0xfc63, 0x9c21, 8 * 8),
        Form::new("C.J", 0xe003, 0xa001, 2048),
        Form::new("C.BEQZ", 0xe003, 0xc001, 8 * 256),
        Form::new("C.BNEZ", 0xe003, 0xe001, 8 * 256),
        Form::new("C.SLLI", 0xe003, 0x0002, 32 * 64),
        Form::new("C.LWSP", 0xe003, 0x4002, 31 * 64),
        Form::new("C.LDSP", 0xe003, 0x6002, 31 * 64),
        Form::new("C.JR", 0xf07f, 0x8002, 31),
        Form::new("C.MV", 0xf003, 0x8002, 32 * 31).except(0x007c, 0x0000),
        Form::new("C.EBREAK", 0xffff, 0x9002, 1),
        Form::new("C.JALR", 0xf07f, 0x9002, 31).except(0x0f80, 0x0000),
        Form::new("C.ADD", 0xf003, 0x9002, 32 * 31).except(0x007c, 0x0000),
        Form::new("C.SWSP", 0xe003, 0xc002, 32 * 64),
        Form::new("C.SDSP", 0xe003, 0xe002, 32 * 64),
    ]
}

/// The number of halfwords that expand by a form is the number of its fields' values. The counts
/// add up to 38,551, and no other halfword expands.
#[test]
fn expands_as_many_of_each_form(rt: HostRuntime) {
    for form in forms() {
        let count = (0..=u16::MAX)
            .filter(|half| form.has(*half) && expand(*half).is_some())
            .count();
        same_at(&rt, &form.name, &count, &form.count);
    }
    let all = (0..=u16::MAX)
        .filter(|half| expand(*half).is_some())
        .count();
    same(&rt, &all, &38_551);
}
