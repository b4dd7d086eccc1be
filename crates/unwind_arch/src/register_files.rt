//! The registers of a machine with 32 general and 32 floating-point registers, as RISC-V and
//! LoongArch have.

ghost use Rattle.std.specs.Prelude.{◌≡◌, ◌≢◌, ◌<◌, ◌↔◌, ℕ, Some, IsSome, is_some, OnSome, IfNone};
ghost use Rattle.unwind_arch.specs.ContextViews.{context_if_written};
ghost use Rattle.unwind_arch.specs.Files.{columns_of, with_column};

use crate::register::Register;
use crate::register_map::RegisterMap;

/// The registers of a machine with 32 general and 32 floating-point registers at one instruction.
///
/// The columns are those of the machine's psABI, DWARF register numbers. Each register is a word of
/// 64 bits.
#[derive(Clone, Copy, Debug, Default, PartialEq, Eq)]
pub struct Context {
    /// Columns 0 to 31: the general registers.
    pub gp: [u64; 32],
    /// Columns 32 to 63: the floating-point registers.
    pub fp: [u64; 32],
}

impl RegisterMap for Context {
    type Word = u64;

    ghost columns = { columns_of };

    /// What a column holds. `None` exactly where the number is none of 0 to 63.
    fn get(&self, register: Register) -> Option<u64>
        ensures value { result ≡ columns_of self.now register.0 }
        ensures found { IsSome result ↔ (register.0 < 64) }
    {
        match register.0 {
            0..32 => Some(self.gp[register.0 as usize]),
            32..64 => Some(self.fp[register.0 as usize - 32]),
            _ => None,
        }
    }

    /// Writes a column. `None`, and nothing is written, exactly where the number is none of 0 to
    /// 63.
    fn set(&mut self, register: Register, value: u64) -> Option<()>
        ensures context { context_if_written result self.new ≡ with_column self.old register.0 value }
        ensures found { is_some result ≡ is_some (columns_of self.old register.0) }
        ensures holds { OnSome result (columns_of self.new register.0 ≡ Some value) }
        ensures others { OnSome result ((k : ℕ) → k ≢ register.0 →
            columns_of self.new k ≡ columns_of self.old k) }
        ensures unchanged { IfNone result (self.new ≡ self.old) }
    {
        match register.0 {
            0..32 => self.gp[register.0 as usize] = value,
            32..64 => self.fp[register.0 as usize - 32] = value,
            _ => return None,
        }
        Some(())
    }
}
