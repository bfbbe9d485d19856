//! Atomic operations (RISC-V Unprivileged ISA 20240411, chapter 14).

ghost use Rattle.std.specs.Prelude.{◌≡◌, ◌<◌, ◌≤◌, ◌^◌, ◌*◌, IsTrue};
ghost use Rattle.rv_operations.specs.Atomics.{atomic_result};
ghost use Rattle.rv_machine.specs.Registers.{held};
ghost use Rattle.rv_machine.specs.Step.{atomic_width, atomic_size, atomic_operand, atomic_old};
ghost use Rattle.rv_machine.specs.Step.{is_reserved, lr_given, sc_step, amo_step, atomic_step};
ghost use Rattle.rv_machine.specs.State.{state_of};
ghost use Rattle.rv_machine.specs.Step.{answer_of, state_after, memory_after};
ghost use Rattle.rv_machine.specs.Access.{read_at};

use crate::access::{read_at, write_at};
use crate::cpu::{Cpu, Reserved};
use crate::ram::Ram;
use crate::trap::{Stepped, Trap};
use elf_image::Image;
use rv_decode::AtomicKind;
use rv_operations::{atomic_double, atomic_word, sign_extended_word};

/// An atomic operation at an address, with the value of rs2.
#[derive(Clone, Copy)]
pub(crate) struct Atomic {
    pub(crate) kind: AtomicKind,
    /// Whether it is on 8 bytes, and not on 4.
    pub(crate) wide: bool,
    pub(crate) rd: u8,
    pub(crate) address: u64,
    pub(crate) value: u64,
}

impl Atomic {
    /// How many bytes it is on.
    fn size(&self) -> u8
        ensures { result ≡ atomic_size self.now.wide }
    {
        if self.wide { 8 } else { 4 }
    }

    /// What rd gets if `old` was in memory.
    fn extended(&self, old: u64) -> u64
        requires { old < 2 ^ (8 * atomic_size self.now.wide) }
        ensures { result ≡ atomic_old self.now.wide old }
    {
        if self.wide {
            old
        } else {
            sign_extended_word(old as u32)
        }
    }

    /// What is stored if `old` was in memory.
    fn result(&self, old: u64) -> u64
        requires { old < 2 ^ (8 * atomic_size self.now.wide) }
        ensures { result ≡ atomic_result (atomic_width self.now.wide) self.now.kind old
            (atomic_operand self.now.wide self.now.value) }
    {
        if self.wide {
            atomic_double(self.kind, old, self.value)
        } else {
            let word = (self.value % (1 << 32)) as u32;
            atomic_word(self.kind, old as u32, word).into()
        }
    }

    /// Whether a reservation names this address and width.
    fn is_reserved(&self, reservation: Option<Reserved>) -> bool
        ensures { result ≡ is_reserved reservation self.now.address self.now.wide }
    {
        match reservation {
            None => false,
            Some(r) => r.address == self.address && r.wide == self.wide,
        }
    }
}

/// The step of an atomic operation: the address is a multiple of the size.
pub(crate) fn atomic_step<R: Ram>(
    image: &Image,
    cpu: &mut Cpu,
    ram: &mut R,
    length: u8,
    op: Atomic,
) -> Stepped
    requires { op.rd < 32 }
    ensures answer { result ≡ answer_of (atomic_step image.now length (state_of cpu.old) (R.bytes ram.old)
        op.kind op.wide op.rd op.address op.value) }
    ensures state { state_of cpu.new ≡ state_after (atomic_step image.now length (state_of cpu.old) (R.bytes ram.old)
        op.kind op.wide op.rd op.address op.value) (state_of cpu.old) }
    ensures memory { R.bytes ram.new ≡ memory_after (atomic_step image.now length (state_of cpu.old)
        (R.bytes ram.old) op.kind op.wide op.rd op.address op.value) (R.bytes ram.old) }
{
    if op.address % u64::from(op.size()) != 0 {
        return Stepped::Trap(Trap::Misaligned);
    }
    match op.kind {
        AtomicKind::Lr => load_reserved(image, cpu, ram, length, op),
        AtomicKind::Sc => store_conditional(image, cpu, ram, length, op),
        _ => read_and_write(image, cpu, ram, length, op),
    }
}

/// LR: reads, and sets the reservation.
fn load_reserved<R: Ram>(image: &Image, cpu: &mut Cpu, ram: &R, length: u8, op: Atomic) -> Stepped
    requires { op.rd < 32 }
    ensures answer { result ≡ answer_of (lr_given length (state_of cpu.old) (R.bytes ram.now) op.wide op.rd
        op.address (read_at image.now (R.bytes ram.now) (atomic_size op.wide) op.address)) }
    ensures state { state_of cpu.new ≡ state_after (lr_given length (state_of cpu.old) (R.bytes ram.now) op.wide op.rd
        op.address (read_at image.now (R.bytes ram.now) (atomic_size op.wide) op.address)) (state_of cpu.old) }
{
    let Some(old) = read_at(image, ram, op.size(), op.address) else {
        return Stepped::Trap(Trap::LoadFault);
    };
    cpu.reservation = Some(Reserved {
        address: op.address,
        wide: op.wide,
    });
    cpu.give(length, op.rd, op.extended(old))
}

/// SC: writes if the reservation names this address and width, and clears it.
fn store_conditional<R: Ram>(
    image: &Image,
    cpu: &mut Cpu,
    ram: &mut R,
    length: u8,
    op: Atomic,
) -> Stepped
    requires { op.rd < 32 }
    ensures answer { result ≡ answer_of (sc_step image.now length (state_of cpu.old) (R.bytes ram.old)
        op.wide op.rd op.address op.value) }
    ensures state { state_of cpu.new ≡ state_after (sc_step image.now length (state_of cpu.old) (R.bytes ram.old)
        op.wide op.rd op.address op.value) (state_of cpu.old) }
    ensures memory { R.bytes ram.new ≡ memory_after (sc_step image.now length (state_of cpu.old)
        (R.bytes ram.old) op.wide op.rd op.address op.value) (R.bytes ram.old) }
{
    if !op.is_reserved(cpu.reservation) {
        cpu.reservation = None;
        return cpu.give(length, op.rd, 1);
    }
    if !write_at(image, ram, op.size(), op.address, op.value) {
        return Stepped::Trap(Trap::StoreFault);
    }
    cpu.reservation = None;
    cpu.give(length, op.rd, 0)
}

/// The other operations: read, and write the result.
fn read_and_write<R: Ram>(
    image: &Image,
    cpu: &mut Cpu,
    ram: &mut R,
    length: u8,
    op: Atomic,
) -> Stepped
    requires { op.rd < 32 }
    ensures answer { result ≡ answer_of (amo_step image.now length (state_of cpu.old) (R.bytes ram.old)
        op.kind op.wide op.rd op.address op.value) }
    ensures state { state_of cpu.new ≡ state_after (amo_step image.now length (state_of cpu.old) (R.bytes ram.old)
        op.kind op.wide op.rd op.address op.value) (state_of cpu.old) }
    ensures memory { R.bytes ram.new ≡ memory_after (amo_step image.now length (state_of cpu.old)
        (R.bytes ram.old) op.kind op.wide op.rd op.address op.value) (R.bytes ram.old) }
{
    let Some(old) = read_at(image, ram, op.size(), op.address) else {
        return Stepped::Trap(Trap::LoadFault);
    };
    let new = op.result(old);
    if !write_at(image, ram, op.size(), op.address, new) {
        return Stepped::Trap(Trap::StoreFault);
    }
    cpu.give(length, op.rd, op.extended(old))
}
