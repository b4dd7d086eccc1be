//! The machine x86, with 32 bits. Columns are those of the System V i386 psABI, table of DWARF
//! register numbers.

ghost use Rattle.std.specs.Prelude.{◌≡◌, ◌≢◌, ◌<◌, ◌⊎◌, ◌↔◌, ℕ, Some, IsSome, is_some, OnSome};
ghost use Rattle.std.specs.Prelude.{IfNone};
ghost use Rattle.unwind_arch.specs.ContextViews.{context_if_written};
ghost use Rattle.unwind_arch.specs.X86.{columns_of, with_column};

use crate::register::Register;
use crate::register_map::RegisterMap;

/// The most rules that a row of call frame information needs on this machine.
pub const MAX_REG_RULES: usize = 17;

/// The registers of an x86 machine at one instruction.
///
/// The columns are those of the psABI's table of DWARF register numbers: EAX, ECX, EDX, EBX, ESP,
/// EBP, ESI and EDI are 0 to 7. Each register is a word of 32 bits.
#[derive(Clone, Copy, Debug, Default, PartialEq, Eq)]
pub struct Context {
    /// The eight general registers by their columns.
    pub registers: [u32; 8],
    /// Column 8: the return address, or the instruction pointer.
    pub ra: u32,
    /// Column 39: the control and status register of the vector unit.
    pub mcxsr: u32,
    /// The control word of the floating-point unit, which has no column.
    pub fcw: u32,
}

impl RegisterMap for Context {
    type Word = u32;

    ghost columns = { columns_of };

    /// What a column holds. `None` exactly where the number is none of 0 to 8 and 39.
    fn get(&self, register: Register) -> Option<u32>
        ensures value { result ≡ columns_of self.now register.0 }
        ensures found { IsSome result ↔ ((register.0 < 9) ⊎ (register.0 ≡ 39)) }
    {
        match register.0 {
            0..8 => Some(self.registers[register.0 as usize]),
            8 => Some(self.ra),
            39 => Some(self.mcxsr),
            _ => None,
        }
    }

    /// Writes a column. `None`, and nothing is written, exactly where the number is none of 0 to 8
    /// and 39.
    fn set(&mut self, register: Register, value: u32) -> Option<()>
        ensures context { context_if_written result self.new ≡ with_column self.old register.0 value }
        ensures found { is_some result ≡ is_some (columns_of self.old register.0) }
        ensures holds { OnSome result (columns_of self.new register.0 ≡ Some value) }
        ensures others { OnSome result ((k : ℕ) → k ≢ register.0 →
            columns_of self.new k ≡ columns_of self.old k) }
        ensures unchanged { IfNone result (self.new ≡ self.old) }
    {
        match register.0 {
            0..8 => self.registers[register.0 as usize] = value,
            8 => self.ra = value,
            39 => self.mcxsr = value,
            _ => return None,
        }
        Some(())
    }
}

/// The columns of x86 that unwinding needs to know.
///
/// It is no [`Machine`](crate::Machine), whose registers have 64 bits: frames of this machine
/// aren't stepped through.
#[derive(Clone, Copy, Debug, PartialEq, Eq)]
pub struct Arch;

impl Arch {
    /// ESP, the stack pointer.
    pub const SP: Register = Register(4);
    /// The return address.
    pub const RA: Register = Register(8);
    /// EAX and EDX, which hand a landing pad the exception and the selector.
    pub const UNWIND_DATA_REG: (Register, Register) = (Register(0), Register(2));
    /// How many words of an exception the unwinder keeps to itself.
    pub const UNWIND_PRIVATE_DATA_SIZE: usize = 5;
}
