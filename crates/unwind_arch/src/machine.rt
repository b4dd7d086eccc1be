//! What unwinding needs to know of a machine.

ghost use Rattle.std.specs.Prelude.{IsSome};
ghost use Rattle.unwind_arch.specs.declared.register.Register.{Register};

use crate::register::Register;
use crate::register_map::RegisterMap;

/// A machine with registers of eight bytes, and the columns that unwinding needs to know of it.
///
/// Every context of the machine has these four columns.
pub trait Machine {
    /// The registers of a frame.
    type Context: RegisterMap<Word = u64> + Copy;

    /// The stack pointer.
    const SP: Register;

    /// The return address.
    const RA: Register;

    /// The two registers that hand a landing pad its arguments: the exception, and the selector.
    const UNWIND_DATA_REG: (Register, Register);

    ghost SP: { Register };

    ghost RA: { Register };

    ghost UNWIND_DATA_REG: { Register × Register };

    /// Every context has a stack pointer.
    ghost has_sp: { (c : Self.Context) → IsSome (Self.Context.columns c SP.0) };

    /// Every context has a return address.
    ghost has_ra: { (c : Self.Context) → IsSome (Self.Context.columns c RA.0) };

    /// Every context has the register of the exception.
    ghost has_exception: { (c : Self.Context) →
        IsSome (Self.Context.columns c UNWIND_DATA_REG.0.0) };

    /// Every context has the register of the selector.
    ghost has_selector: { (c : Self.Context) →
        IsSome (Self.Context.columns c UNWIND_DATA_REG.1.0) };
}
