// A symbol. System V gABI, chapter "Symbol Table".
ghost use Rattle.std.specs.Prelude.{◌≡◌};
ghost use Rattle.elf_symbols.specs.Symbols.{comes_before, holds, is_function, precedence};

use crate::header::u16_at;
use memory_image::{Record, u32_at, u64_at};

// the types of a function, and of one that says which function is called
const STT_FUNC: u8 = 2;

const STT_GNU_IFUNC: u8 = 10;

const STB_LOCAL: u8 = 0;

const STB_GLOBAL: u8 = 1;

const STB_WEAK: u8 = 2;

// the section of symbols that are defined elsewhere
const SHN_UNDEF: u16 = 0;

/// A symbol: 24 bytes.
#[derive(Clone, Copy)]
pub(crate) struct Symbol {
    pub(crate) st_name: u32,
    st_info: u8,
    st_other: u8,
    st_shndx: u16,
    pub(crate) st_value: u64,
    st_size: u64,
}

impl Record for Symbol {
    ghost use Rattle.elf_symbols.specs.Symbols.{symbol_of};
    ghost use Rattle.elf_symbols.specs.Bytes.{symbol_keeps_all};
    ghost use Rattle.std.proofs.Common.{lit≤};

    const SIZE: usize = 24;

    ghost SIZE = { 24 };

    ghost value_of = { symbol_of };

    fn read(bytes: &[u8]) -> Symbol {
        Symbol {
            st_name: u32_at(bytes, 0),
            st_info: bytes[4],
            st_other: bytes[5],
            st_shndx: u16_at(bytes, 6),
            st_value: u64_at(bytes, 8),
            st_size: u64_at(bytes, 16),
        }
    }

    ghost has_size = { lit≤ tt };

    ghost keeps_all = { symbol_keeps_all };
}

impl Symbol {
    /// Whether it is a function that is defined in its file and has a name.
    fn is_function(&self) -> bool
        ensures { result ≡ is_function self.now }
    {
        let kind = self.st_info % 16;
        (kind == STT_FUNC || kind == STT_GNU_IFUNC)
            && self.st_shndx != SHN_UNDEF
            && self.st_name != 0
    }

    /// Whether it is a function in which an address lies.
    pub(crate) fn holds(&self, address: u64) -> bool
        ensures { result ≡ holds address self.now }
    {
        self.st_value <= address && address - self.st_value < self.st_size && self.is_function()
    }

    /// How much its binding counts.
    fn precedence(&self) -> u8
        ensures { result ≡ precedence self.now }
    {
        match self.st_info / 16 {
            STB_GLOBAL => 3,
            STB_WEAK => 2,
            STB_LOCAL => 1,
            _ => 0,
        }
    }

    /// Whether it counts before another one, where an address lies in both.
    pub(crate) fn comes_before(&self, other: &Symbol) -> bool
        ensures { result ≡ comes_before self.now other.now }
    {
        other.st_value < self.st_value
            || other.st_value == self.st_value && other.precedence() < self.precedence()
    }
}
