//! The memory of a file when its program starts.

use crate::asserts::{holds, same, same_at};
use crate::small_file::FILE;
use elf_image::Image;
use rv_machine::{Cpu, Ram, RamError, Regions};
use std::alloc::{AllocError, Global};
use std::test::Fail;

/// Addresses, and the bytes there: code, read-only data, data, zeros without bytes in the file, and
/// the stack.
const BYTES: [(u64, Option<u8>); 9] = [
    (0x10000, Some(0x65)),
    (0x20007, Some(0x80)),
    (0x30000, Some(5)),
    (0x40000, Some(0)),
    (0x40010, None),
    (0x7FFD_FFFF, None),
    (0x7FFE_0000, Some(0)),
    (0x7FFE_FFFF, Some(0)),
    (0x7FFF_0000, None),
];

/// Where the size of the section without bytes stands in the file, and a size with which the sections
/// ask for one byte more than 256 MiB.
const LARGE: [(usize, u8); 4] = [(936, 0x01), (937, 0xFF), (938, 0xFF), (939, 0x0F)];

fn has_bytes(ram: &Regions) -> bool {
    for (a, byte) in BYTES {
        if ram.load(a) != byte {
            return false;
        }
    }
    true
}

#[test]
fn bytes_at_the_start(rt: HostRuntime) -> Result<(), Fail> {
    let alloc = rt.alloc();
    let image = Image::parse(alloc, Vec::from_slice(alloc, &FILE)?)?;
    let mut ram = Regions::new(alloc, &image).ok().ok_or("no memory")?;
    holds(&rt, has_bytes(&ram));
    holds(&rt, ram.has(0x4000C, 4) && !ram.has(0x4000D, 4));
    holds(&rt, ram.store(0x30000, 6) && ram.load(0x30000) == Some(6));
    holds(&rt, ram.store_le(0x4000C, 4, 0x1_0203_0405));
    holds(&rt, !ram.store_le(0x4000D, 4, 0));
    holds(&rt, ram.load_le(0x4000C, 4) == Some(0x0203_0405));
    holds(&rt, ram.load_le(0x4000D, 4).is_none());
    Ok(())
}

#[test]
fn too_much_memory(rt: HostRuntime) -> Result<(), Fail> {
    let alloc = rt.alloc();
    let mut bytes = Vec::from_slice(alloc, &FILE)?;
    for (at, byte) in LARGE {
        if let Some(place) = bytes.get_mut(at) {
            *place = byte;
        }
    }
    let image = Image::parse(alloc, bytes)?;
    holds(
        &rt,
        Regions::new(alloc, &image).err() == Some(RamError::TooMuch),
    );
    Ok(())
}

/// The number of small sections of a made file.
const MANY: u8 = 40;

/// The address and the size of a small section: they are in no order, some are apart, some touch and
/// some overlap.
fn small_section(place: u8) -> (u64, u64) {
    let place = u64::from(place);
    (0x20_0000 + place * 7 % 40 * 5, 1 + place * 3 % 9)
}

/// A file whose section 0 is the code, the bytes 0 to 63 of the file, with small sections of data
/// after it. The bytes of the section at a place are those from offset `place` on.
fn small_sections(alloc: Global) -> Result<Vec<u8>, AllocError> {
    let mut bytes = Vec::from_slice(alloc, &FILE[..64])?;
    bytes[40] = 64;
    bytes[41] = 0;
    bytes[56] = 0;
    bytes[60] = MANY + 1;
    bytes.extend_from_slice(&header(6, 0x10000, 0, 64))?;
    for place in 0..MANY {
        let (address, size) = small_section(place);
        bytes.extend_from_slice(&header(3, address, place, size))?;
    }
    Ok(bytes)
}

/// The header of a section with bytes in the file.
fn header(flags: u8, address: u64, offset: u8, size: u64) -> [u8; 64] {
    let mut header = [0u8; 64];
    header[4] = 1;
    header[8] = flags;
    header[16..24].copy_from_slice(&address.to_le_bytes());
    header[24] = offset;
    header[32..40].copy_from_slice(&size.to_le_bytes());
    header
}

/// The byte at an address, by the first small section that has it.
fn looked_up(bytes: &[u8], a: u64) -> Option<u8> {
    for place in 0..MANY {
        let (address, size) = small_section(place);
        if a >= address && a - address < size {
            let offset = usize::from(place).wrapping_add((a - address) as usize);
            return bytes.get(offset).copied();
        }
    }
    None
}

#[test]
fn small_sections_that_overlap(rt: HostRuntime) -> Result<(), Fail> {
    let alloc = rt.alloc();
    let bytes = small_sections(alloc)?;
    let image = Image::parse(alloc, small_sections(alloc)?)?;
    let mut ram = Regions::new(alloc, &image).ok().ok_or("no memory")?;
    for k in 0..220 {
        let a = 0x1F_FFF8 + k;
        let wanted = looked_up(&bytes, a);
        same_at(&rt, &a, &ram.load(a), &wanted);
        same(&rt, &ram.store(a, 0xA5), &wanted.is_some());
        same(&rt, &ram.load(a), &wanted.map(|_| 0xA5));
        same(&rt, &ram.load(a + 1), &looked_up(&bytes, a + 1));
    }
    same(&rt, &ram.load(0x10002), &Some(0x4C));
    same(&rt, &ram.load(0x7FFE_FFFF), &Some(0));
    Ok(())
}

#[test]
fn registers_are_read_and_written(rt: HostRuntime) -> Result<(), Fail> {
    let mut cpu = Cpu::start(0x10000, 0x7FFF_0000);
    cpu.registers.set(5, 7);
    cpu.registers.set(0, 7);
    holds(&rt, cpu.registers.get(5) == 7);
    holds(&rt, cpu.registers.get(0) == 0);
    holds(&rt, cpu.registers.get(2) == 0x7FFF_0000);
    holds(&rt, cpu.reservation.is_none());
    Ok(())
}
