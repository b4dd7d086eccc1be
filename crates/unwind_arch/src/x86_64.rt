//! The machine x86-64. Columns are those of the System V x86-64 psABI, table of DWARF register
//! numbers.

ghost use Rattle.std.specs.Prelude.{◌≡◌, ◌≢◌, ℕ, Some, is_some, OnSome, IfNone, refl};
ghost use Rattle.unwind_arch.specs.ContextViews.{columns_of, with_column, context_if_written};

use crate::machine::Machine;
use crate::register::Register;
use crate::register_map::RegisterMap;

/// The most rules that a row of call frame information needs on this machine.
pub const MAX_REG_RULES: usize = 17;

/// The place of RAX among the general registers, which is its column; so of the others.
pub const RAX: usize = 0;
/// The place of RDX.
pub const RDX: usize = 1;
/// The place of RCX.
pub const RCX: usize = 2;
/// The place of RBX.
pub const RBX: usize = 3;
/// The place of RSI.
pub const RSI: usize = 4;
/// The place of RDI.
pub const RDI: usize = 5;
/// The place of RBP.
pub const RBP: usize = 6;
/// The place of RSP.
pub const RSP: usize = 7;
/// The place of R8.
pub const R8: usize = 8;
/// The place of R9.
pub const R9: usize = 9;
/// The place of R10.
pub const R10: usize = 10;
/// The place of R11.
pub const R11: usize = 11;
/// The place of R12.
pub const R12: usize = 12;
/// The place of R13.
pub const R13: usize = 13;
/// The place of R14.
pub const R14: usize = 14;
/// The place of R15.
pub const R15: usize = 15;

/// The registers of an x86-64 machine at one instruction.
///
/// The columns are those of the psABI's table of DWARF register numbers: RAX, RDX, RCX, RBX, RSI,
/// RDI, RBP and RSP are 0 to 7, and R8 to R15 are 8 to 15. Each register is a word of 64 bits.
#[derive(Clone, Copy, Debug, Default, PartialEq, Eq)]
pub struct Context {
    /// The sixteen general registers by their columns: [`RAX`] to [`R15`].
    pub registers: [u64; 16],
    /// Column 16: the return address, or the instruction pointer.
    pub ra: u64,
    /// Column 64: the control and status register of the vector unit.
    pub mcxsr: u64,
    /// Column 65: the control word of the floating-point unit.
    pub fcw: u64,
}

impl Context {
    /// The same registers. The general ones are copied by themselves: so many bytes are copied in
    /// place, where all of a context would be by a call.
    #[inline(always)]
    pub fn copied(&self) -> Context
        ensures { result ≡ self.now }
    {
        Context {
            registers: self.registers,
            ra: self.ra,
            mcxsr: self.mcxsr,
            fcw: self.fcw,
        }
    }
}

impl RegisterMap for Context {
    type Word = u64;

    ghost columns = { columns_of };

    /// What a column holds. `None` exactly where the number is none of 0 to 16, 64 and 65.
    fn get(&self, register: Register) -> Option<u64>
        ensures { result ≡ columns_of self.now register.0 }
    {
        // Nearly each column that is asked is a general register.
        if register.0 < 16 {
            return Some(self.registers[register.0 as usize]);
        }
        match register.0 {
            16 => Some(self.ra),
            64 => Some(self.mcxsr),
            65 => Some(self.fcw),
            _ => None,
        }
    }

    /// Writes a column. `None`, and nothing is written, exactly where the number is none of 0 to
    /// 16, 64 and 65.
    fn set(&mut self, register: Register, value: u64) -> Option<()>
        ensures context { context_if_written result self.new ≡ with_column self.old register.0 value }
        ensures found { is_some result ≡ is_some (columns_of self.old register.0) }
        ensures holds { OnSome result (columns_of self.new register.0 ≡ Some value) }
        ensures others { OnSome result ((k : ℕ) → k ≢ register.0 →
            columns_of self.new k ≡ columns_of self.old k) }
        ensures unchanged { IfNone result (self.new ≡ self.old) }
    {
        if register.0 < 16 {
            self.registers[register.0 as usize] = value;
            return Some(());
        }
        match register.0 {
            16 => self.ra = value,
            64 => self.mcxsr = value,
            65 => self.fcw = value,
            _ => return None,
        }
        Some(())
    }
}

/// The columns of x86-64 that unwinding needs to know.
#[derive(Clone, Copy, Debug, PartialEq, Eq)]
pub struct Arch;

impl Arch {
    /// RSP, the stack pointer.
    pub const SP: Register = Register(7);
    /// The return address.
    pub const RA: Register = Register(16);
    /// RAX and RDX, which hand a landing pad the exception and the selector.
    pub const UNWIND_DATA_REG: (Register, Register) = (Register(0), Register(1));
    /// How many words of an exception the unwinder keeps to itself.
    pub const UNWIND_PRIVATE_DATA_SIZE: usize = 6;
}

// As in the `unwinding` crate's table of machines.
const _: () = prove!(MAX_REG_RULES == 17);

const _: () = prove!(Arch::UNWIND_PRIVATE_DATA_SIZE == 6);

impl Machine for Arch {
    type Context = Context;

    const SP: Register = Arch::SP;

    const RA: Register = Arch::RA;

    const UNWIND_DATA_REG: (Register, Register) = Arch::UNWIND_DATA_REG;

    ghost SP = { record { 0 = 7 } };

    ghost RA = { record { 0 = 16 } };

    ghost UNWIND_DATA_REG = { (record { 0 = 0 }, record { 0 = 1 }) };

    ghost has_sp = { λ c. refl };

    ghost has_ra = { λ c. refl };

    ghost has_exception = { λ c. refl };

    ghost has_selector = { λ c. refl };
}
