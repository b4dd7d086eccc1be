//! The machine RISC-V with 64 bits. Columns are those of the RISC-V ELF psABI, DWARF register
//! numbers: X0 to X31 are 0 to 31, and F0 to F31 are 32 to 63.

ghost use Rattle.std.specs.Prelude.{refl};

use crate::machine::Machine;
use crate::register::Register;
pub use crate::register_files::Context;

/// The most rules that a row of call frame information needs on this machine.
pub const MAX_REG_RULES: usize = 65;

/// The columns of 64-bit RISC-V that unwinding needs to know.
#[derive(Clone, Copy, Debug, PartialEq, Eq)]
pub struct Arch;

impl Arch {
    /// X2, the stack pointer.
    pub const SP: Register = Register(2);
    /// X1, which holds the return address.
    pub const RA: Register = Register(1);
    /// X10 and X11, which hand a landing pad the exception and the selector.
    pub const UNWIND_DATA_REG: (Register, Register) = (Register(10), Register(11));
    /// How many words of an exception the unwinder keeps to itself.
    pub const UNWIND_PRIVATE_DATA_SIZE: usize = 2;
}

impl Machine for Arch {
    type Context = Context;

    const SP: Register = Arch::SP;

    const RA: Register = Arch::RA;

    const UNWIND_DATA_REG: (Register, Register) = Arch::UNWIND_DATA_REG;

    ghost SP = { record { 0 = 2 } };

    ghost RA = { record { 0 = 1 } };

    ghost UNWIND_DATA_REG = { (record { 0 = 10 }, record { 0 = 11 }) };

    ghost has_sp = { λ c. refl };

    ghost has_ra = { λ c. refl };

    ghost has_exception = { λ c. refl };

    ghost has_selector = { λ c. refl };
}
