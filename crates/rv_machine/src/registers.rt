//! The integer registers (RISC-V Unprivileged ISA 20240411, section 2.1).

ghost use Rattle.std.specs.Prelude.{◌≡◌, length};

/// The registers x0 to x31, of 64 bits each. x0 always reads 0.
#[derive(Clone, Copy)]
pub struct Registers {
    /// The place of x0 says nothing.
    values: [u64; 32],
    ghost whole: { length values ≡ 32 },
}

impl Registers {
    ghost use Rattle.std.specs.Prelude.{◌<◌};
    ghost use Rattle.rv_machine.specs.Registers.{held, written, at_start};
    ghost use Rattle.rv_machine.specs.State.{file_of};

    /// Zero everywhere but in x2, the stack pointer.
    pub(crate) fn at_start(stack: u64) -> Registers
        ensures { file_of result ≡ at_start stack }
    {
        let mut values = [0; 32];
        values[2] = stack;
        Registers { values }
    }

    /// What register `r` holds, where `r` is below 32.
    pub fn get(&self, r: u8) -> u64
        requires { r < 32 }
        ensures { result ≡ held (file_of self.now) r }
    {
        if r == 0 { 0 } else { self.values[r as usize] }
    }

    /// What register `r` holds; 0 if there is no such register.
    pub(crate) fn read(&self, r: u8) -> u64
        ensures { result ≡ held (file_of self.now) r }
    {
        if r < 32 { self.get(r) } else { 0 }
    }

    /// Writes register `r`, where `r` is below 32, and no other. A write of x0 has no effect.
    pub fn set(&mut self, r: u8, v: u64)
        requires { r < 32 }
        ensures { file_of self.new ≡ written (file_of self.old) r v }
    {
        self.values[r as usize] = v;
    }
}
