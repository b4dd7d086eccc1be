//! The machine RISC-V with 32 bits. Columns are those of the RISC-V ELF psABI, DWARF register
//! numbers.

ghost use Rattle.std.specs.Prelude.{◌≡◌, ◌≢◌, ◌<◌, ◌↔◌, ℕ, Some, IsSome, is_some, OnSome, IfNone};
ghost use Rattle.unwind_arch.specs.ContextViews.{context_if_written};
ghost use Rattle.unwind_arch.specs.Riscv32.{columns_of, with_column};

use crate::register::Register;
use crate::register_map::RegisterMap;

/// The most rules that a row of call frame information needs on this machine.
pub const MAX_REG_RULES: usize = 65;

/// The registers of a 32-bit RISC-V machine at one instruction.
#[derive(Clone, Copy, Debug, Default, PartialEq, Eq)]
pub struct Context {
    /// Columns 0 to 31: the general registers X0 to X31.
    pub gp: [u32; 32],
    /// The floating-point registers F0 to F31, of 64 bits. They have no columns here, as a column
    /// of this machine holds 32 bits.
    pub fp: [u64; 32],
}

impl RegisterMap for Context {
    type Word = u32;

    ghost columns = { columns_of };

    /// What a column holds. `None` exactly where the number is none of 0 to 31.
    fn get(&self, register: Register) -> Option<u32>
        ensures value { result ≡ columns_of self.now register.0 }
        ensures found { IsSome result ↔ (register.0 < 32) }
    {
        match register.0 {
            0..32 => Some(self.gp[register.0 as usize]),
            _ => None,
        }
    }

    /// Writes a column. `None`, and nothing is written, exactly where the number is none of 0 to
    /// 31.
    fn set(&mut self, register: Register, value: u32) -> Option<()>
        ensures context { context_if_written result self.new ≡ with_column self.old register.0 value }
        ensures found { is_some result ≡ is_some (columns_of self.old register.0) }
        ensures holds { OnSome result (columns_of self.new register.0 ≡ Some value) }
        ensures others { OnSome result ((k : ℕ) → k ≢ register.0 →
            columns_of self.new k ≡ columns_of self.old k) }
        ensures unchanged { IfNone result (self.new ≡ self.old) }
    {
        match register.0 {
            0..32 => self.gp[register.0 as usize] = value,
            _ => return None,
        }
        Some(())
    }
}

/// The columns of 32-bit RISC-V that unwinding needs to know.
///
/// It is no [`Machine`](crate::Machine), whose registers have 64 bits: frames of this machine
/// aren't stepped through.
#[derive(Clone, Copy, Debug, PartialEq, Eq)]
pub struct Arch;

impl Arch {
    /// X2, the stack pointer.
    pub const SP: Register = Register(2);
    /// X1, which holds the return address.
    pub const RA: Register = Register(1);
    /// X10 and X11, which hand a landing pad the exception and the selector.
    pub const UNWIND_DATA_REG: (Register, Register) = (Register(10), Register(11));
    /// How many words of an exception the unwinder keeps to itself.
    pub const UNWIND_PRIVATE_DATA_SIZE: usize = 2;
}
