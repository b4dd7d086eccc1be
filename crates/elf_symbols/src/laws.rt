//! Laws of the definitions that the contracts of this crate cite, and a worked example. Nothing of it runs.
ghost use Rattle.std.specs.Prelude.{◌≡◌, ℕ, List, None, Some, false, slice_get};
ghost use Rattle.elf_symbols.specs.declared.symbol.Symbol.{Symbol};
ghost use Rattle.elf_symbols.specs.Symbols.{holds, symbol_at};
ghost use Rattle.elf_symbols.specs.Nearest.{IsNearest};
ghost use Rattle.elf_symbols.specs.Functions.{function_at, table_of};
ghost use Rattle.elf_symbols.specs.Sample.{inner, outer, small_file, small_table};

/// The symbol of an address is the nearest one in whose function it lies, and there is none only where
/// the address lies in no function.
pub fn symbols_are_the_nearest()
    ensures some { (symbols : List Symbol) (a : ℕ) (s : Symbol) → symbol_at a symbols ≡ Some s →
        IsNearest symbols a s }
    ensures none { (symbols : List Symbol) (a : ℕ) → symbol_at a symbols ≡ None →
        (i : ℕ) (s : Symbol) → slice_get symbols i ≡ Some s → holds a s ≡ false }
{}

/// A file of 371 bytes with four symbols, two of which begin together, has these symbols, and at the
/// addresses of its two functions it has their names.
pub fn functions_of_a_small_file()
    ensures table { table_of small_file ≡ Some small_table }
    ensures outer { function_at small_table 0x1000 ≡ Some outer }
    ensures inner { function_at small_table 0x1013 ≡ Some inner }
    ensures later { function_at small_table 0x1020 ≡ Some outer }
    ensures none { function_at small_table 0x1040 ≡ None }
{}
