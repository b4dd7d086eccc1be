//! The machine AArch64. Columns are those of DWARF for the Arm 64-bit Architecture, DWARF register
//! names.

ghost use Rattle.std.specs.Prelude.{◌≡◌, ◌≢◌, ◌<◌, ◌≤◌, ◌⊎◌, ◌↔◌, ℕ, Some, IsSome, is_some, OnSome};
ghost use Rattle.std.specs.Prelude.{IfNone, refl};
ghost use Rattle.unwind_arch.specs.ContextViews.{context_if_written};
ghost use Rattle.unwind_arch.specs.Aarch64.{columns_of, with_column};

use crate::machine::Machine;
use crate::register::Register;
use crate::register_map::RegisterMap;

/// The most rules that a row of call frame information needs on this machine.
pub const MAX_REG_RULES: usize = 97;

/// The registers of an AArch64 machine at one instruction.
///
/// The columns are those of the ABI's table of DWARF register names. Each register is a word of 64
/// bits; of a vector register that is its lower half.
#[derive(Clone, Copy, Debug, Default, PartialEq, Eq)]
pub struct Context {
    /// X0 to X30 by their columns. X30 is the link register, which holds the return address.
    pub gp: [u64; 31],
    /// Column 31: the stack pointer.
    pub sp: u64,
    /// Columns 64 to 95: the vector registers V0 to V31.
    pub fp: [u64; 32],
}

impl RegisterMap for Context {
    type Word = u64;

    ghost columns = { columns_of };

    /// What a column holds. `None` exactly where the number is none of 0 to 31 and 64 to 95.
    fn get(&self, register: Register) -> Option<u64>
        ensures value { result ≡ columns_of self.now register.0 }
        ensures found { IsSome result ↔
            ((register.0 < 32) ⊎ ((64 ≤ register.0) × (register.0 < 96))) }
    {
        match register.0 {
            0..31 => Some(self.gp[register.0 as usize]),
            31 => Some(self.sp),
            64..96 => Some(self.fp[register.0 as usize - 64]),
            _ => None,
        }
    }

    /// Writes a column. `None`, and nothing is written, exactly where the number is none of 0 to 31
    /// and 64 to 95.
    fn set(&mut self, register: Register, value: u64) -> Option<()>
        ensures context { context_if_written result self.new ≡ with_column self.old register.0 value }
        ensures found { is_some result ≡ is_some (columns_of self.old register.0) }
        ensures holds { OnSome result (columns_of self.new register.0 ≡ Some value) }
        ensures others { OnSome result ((k : ℕ) → k ≢ register.0 →
            columns_of self.new k ≡ columns_of self.old k) }
        ensures unchanged { IfNone result (self.new ≡ self.old) }
    {
        match register.0 {
            0..31 => self.gp[register.0 as usize] = value,
            31 => self.sp = value,
            64..96 => self.fp[register.0 as usize - 64] = value,
            _ => return None,
        }
        Some(())
    }
}

/// The columns of AArch64 that unwinding needs to know.
#[derive(Clone, Copy, Debug, PartialEq, Eq)]
pub struct Arch;

impl Arch {
    /// SP, the stack pointer.
    pub const SP: Register = Register(31);
    /// X30, the link register, which holds the return address.
    pub const RA: Register = Register(30);
    /// X0 and X1, which hand a landing pad the exception and the selector.
    pub const UNWIND_DATA_REG: (Register, Register) = (Register(0), Register(1));
    /// How many words of an exception the unwinder keeps to itself.
    pub const UNWIND_PRIVATE_DATA_SIZE: usize = 2;
}

impl Machine for Arch {
    type Context = Context;

    const SP: Register = Arch::SP;

    const RA: Register = Arch::RA;

    const UNWIND_DATA_REG: (Register, Register) = Arch::UNWIND_DATA_REG;

    ghost SP = { record { 0 = 31 } };

    ghost RA = { record { 0 = 30 } };

    ghost UNWIND_DATA_REG = { (record { 0 = 0 }, record { 0 = 1 }) };

    ghost has_sp = { λ c. refl };

    ghost has_ra = { λ c. refl };

    ghost has_exception = { λ c. refl };

    ghost has_selector = { λ c. refl };
}
