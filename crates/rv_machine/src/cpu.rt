//! The state of the machine beside its memory.

use crate::registers::Registers;
use crate::trap::Stepped;

/// The program counter, the registers and the reservation of one hart.
#[derive(Clone, Copy)]
pub struct Cpu {
    /// The address of the next instruction.
    pub pc: u64,
    /// The integer registers.
    pub registers: Registers,
    /// What the last LR reserved, if no SC has cleared it.
    pub reservation: Option<Reserved>,
}

/// What an LR reserves (RISC-V Unprivileged ISA 20240411, section 14.2).
#[derive(Clone, Copy, Debug, PartialEq, Eq)]
pub struct Reserved {
    /// The address that was loaded from.
    pub address: u64,
    /// Whether 8 bytes were loaded, and not 4.
    pub wide: bool,
}

impl Cpu {
    ghost use Rattle.std.specs.Prelude.{◌≡◌, ◌<◌, if◌then◌else◌};
    ghost use Rattle.rv_flow.specs.Raw.{address_plus};
    ghost use Rattle.rv_machine.specs.Registers.{held};
    ghost use Rattle.rv_machine.specs.State.{start, file_of, state_of};
    ghost use Rattle.rv_machine.specs.Step.{advanced, moved_to, gives, links};

    /// The state in which a program starts: at `entry`, with `stack` in x2, zero in all other
    /// registers, and no reservation.
    pub fn start(entry: u64, stack: u64) -> Cpu
        ensures { state_of result ≡ start entry stack }
    {
        Cpu {
            pc: entry,
            registers: Registers::at_start(stack),
            reservation: None,
        }
    }
    /// What register `r` holds.
    pub(crate) fn read(&self, r: u8) -> u64
        ensures { result ≡ held (file_of self.now.registers) r }
    {
        self.registers.read(r)
    }

    /// The address in register `r` plus an offset.
    pub(crate) fn address(&self, r: u8, offset: i64) -> u64
        ensures { result ≡ address_plus (held (file_of self.now.registers) r) offset }
    {
        self.read(r).wrapping_add_signed(offset)
    }

    /// The address of the instruction plus an offset.
    pub(crate) fn relative(&self, offset: i64) -> u64
        ensures { result ≡ address_plus self.now.pc offset }
    {
        self.pc.wrapping_add_signed(offset)
    }

    /// The address after an instruction of this length.
    pub(crate) fn advanced(&self, length: u8) -> u64
        ensures { result ≡ advanced length (state_of self.now) }
    {
        self.pc.wrapping_add(u64::from(length))
    }

    /// Goes to an address.
    pub(crate) fn go(&mut self, target: u64) -> Stepped
        ensures next { result ≡ Stepped.Next }
        ensures cpu { state_of self.new ≡ moved_to target (state_of self.old) }
    {
        self.pc = target;
        Stepped::Next
    }

    /// Goes on to the next instruction.
    pub(crate) fn pass(&mut self, length: u8) -> Stepped
        ensures next { result ≡ Stepped.Next }
        ensures cpu { state_of self.new ≡ moved_to (advanced length (state_of self.old)) (state_of self.old) }
    {
        let next = self.advanced(length);
        self.go(next)
    }

    /// Goes to the branch's target if it is taken, else on to the next instruction.
    pub(crate) fn branch(&mut self, length: u8, is_taken: bool, offset: i64) -> Stepped
        ensures next { result ≡ Stepped.Next }
        ensures cpu { state_of self.new ≡ moved_to (if is_taken then address_plus self.old.pc offset
            else advanced length (state_of self.old)) (state_of self.old) }
    {
        if is_taken {
            let target = self.relative(offset);
            self.go(target)
        } else {
            self.pass(length)
        }
    }

    /// Writes a register, and goes on to the next instruction.
    pub(crate) fn give(&mut self, length: u8, rd: u8, value: u64) -> Stepped
        requires { rd < 32 }
        ensures next { result ≡ Stepped.Next }
        ensures cpu { state_of self.new ≡ gives length (state_of self.old) rd value }
    {
        self.registers.set(rd, value);
        self.pass(length)
    }

    /// Links a register to the next instruction, and goes to an address.
    pub(crate) fn link(&mut self, length: u8, rd: u8, target: u64) -> Stepped
        requires { rd < 32 }
        ensures next { result ≡ Stepped.Next }
        ensures cpu { state_of self.new ≡ links length (state_of self.old) rd target }
    {
        let next = self.advanced(length);
        self.registers.set(rd, next);
        self.go(target)
    }
}
