//! Steps the written machine through a file.
//!
//! The machine starts at the file's entry with x2 = 7FFF0000. The first line is the state before
//! any step, and each step adds the line of the state after it: the program counter and x1 to x31,
//! each as sixteen hexadecimal digits, with spaces between. A trap ends the lines with `trap NAME`.
//! A file that is not read here gets the single line `fault NAME`.

use anyhow::{Result, bail};
use elf_image::{ElfError, Image};
use rv_machine::{Cpu, RamError, Regions, Stepped, step};
use std::alloc::Global;
use std::io::Write;

/// The stack pointer at the start: the end of the stack.
const STACK: u64 = 0x7FFF_0000;

/// The lines for a file with these bytes.
pub(crate) fn write_run<W: Write>(
    alloc: Global,
    out: &mut W,
    bytes: Vec<u8>,
    steps: u32,
) -> Result<()> {
    let image = match Image::parse(alloc, bytes) {
        Ok(image) => image,
        Err(ElfError::Malformed(fault)) => return Ok(writeln!(out, "fault {}", fault.name())?),
        Err(ElfError::Memory) => bail!("out of memory"),
    };
    match Regions::new(alloc, &image) {
        Ok(mut ram) => write_steps(out, &image, &mut ram, steps),
        Err(RamError::TooMuch) => bail!("too much memory asked"),
        Err(RamError::Memory) => bail!("out of memory"),
    }
}

fn write_steps<W: Write>(out: &mut W, image: &Image, ram: &mut Regions, steps: u32) -> Result<()> {
    let mut cpu = Cpu::start(image.entry(), STACK);
    write_state(out, &cpu)?;
    for _ in 0..steps {
        if let Stepped::Trap(trap) = step(image, &mut cpu, ram) {
            writeln!(out, "trap {trap:?}")?;
            return Ok(());
        }
        write_state(out, &cpu)?;
    }
    Ok(())
}

fn write_state<W: Write>(out: &mut W, cpu: &Cpu) -> Result<()> {
    let pc = cpu.pc;
    write!(out, "{pc:016x}")?;
    for r in 1..32 {
        let value = cpu.registers.get(r);
        write!(out, " {value:016x}")?;
    }
    out.write_all(b"\n")?;
    Ok(())
}
