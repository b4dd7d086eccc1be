//! The registers of a machine, reached by the columns of its DWARF numbering.

ghost use Rattle.std.specs.Prelude.{◌≡◌, ◌≢◌, ℕ, Option, Some, is_some, OnSome, IfNone};

use crate::register::Register;

/// Registers that are read and written by their columns: the numbers that the machine's ABI gives
/// them in call frame information. DWARF 5 section 6.4.
///
/// Proofs see what each column holds. `get` and `set` reach the same columns, and a write to one
/// keeps all others.
pub trait RegisterMap {
    /// What a column holds.
    type Word: Copy;

    /// What each column holds, by its number; `None` where the machine has no such column.
    ghost columns: { Self → ℕ → Option Self.Word };

    /// What a column holds. `None` exactly where the machine has no such column.
    fn get(&self, register: Register) -> Option<Self::Word>
        ensures { result ≡ columns self.now register.0 };

    /// Writes a column. `None` exactly where the machine has no such column, and then nothing is
    /// written.
    fn set(&mut self, register: Register, value: Self::Word) -> Option<()>
        ensures found { is_some result ≡ is_some (columns self.old register.0) }
        ensures holds { OnSome result (columns self.new register.0 ≡ Some value) }
        ensures others { OnSome result ((k : ℕ) → k ≢ register.0 →
            columns self.new k ≡ columns self.old k) }
        ensures unchanged { IfNone result (self.new ≡ self.old) };
}
