// The function at an address.
ghost use Rattle.std.specs.Prelude.{◌≡◌, ◌/◌, ◌<◌, ◌==◌, IfSome, Some, drop, length, position};
ghost use Rattle.std.specs.Option.{option_map};
ghost use Rattle.elf_symbols.specs.Symbols.{name_in, nearer, symbol_at, symbols_in, text_of};
ghost use Rattle.elf_symbols.specs.Functions.{function_of, function_at};

use crate::symbol::Symbol;
use memory_image::Records;
use std::marker::Model;

const SYMBOL_SIZE: usize = 24;

/// A function's name, and where it begins.
#[derive(Clone, Copy, Debug, PartialEq, Eq)]
pub struct FunctionName<'a> {
    /// The name, as it stands in the file.
    pub name: &'a [u8],
    /// Its first address, as the file counts.
    pub start: u64,
}

/// The symbols of a file, with their names.
///
/// Contracts see the symbols and the bytes of the string table.
#[derive(Drop)]
pub struct Symbols<'a> {
    entries: Records<'a, Symbol>,
    strings: &'a [u8],
}

impl<'a> Model for Symbols<'a> {
    ghost use Rattle.elf_symbols.specs.Functions.{SymbolTable};

    ghost Value = { SymbolTable };

    ghost view = { λ s. record { symbols = s.entries; strings = s.strings.now } };
}

/// Where the first zero byte stands.
fn zero_in(bytes: &[u8]) -> Option<usize>
    ensures place { result ≡ position (λ b. b == 0) bytes.now }
    ensures within { IfSome result (λ place. place < length bytes.now) }
{
    bytes.iter().position(|byte| *byte == 0)
}

/// The text that bytes begin with, up to a zero byte. `None` where there is no such byte.
fn text_of(bytes: &[u8]) -> Option<&[u8]>
    ensures { option_map (λ text. text.now) result ≡ text_of bytes.now }
{
    let end = zero_in(bytes)?;
    Some(&bytes[..end])
}

/// The bytes of a string table from an offset on, none where it ends before.
fn rest_of(strings: &[u8], offset: u32) -> &[u8]
    ensures { result.now ≡ drop offset strings.now }
{
    let start = strings.len().min(offset as usize);
    &strings[start..]
}

/// The name that stands in a string table from an offset on, up to a zero byte. `None` where there is
/// no such byte.
fn name_in(strings: &[u8], offset: u32) -> Option<&[u8]>
    ensures { option_map (λ name. name.now) result ≡ name_in strings.now offset }
{
    text_of(rest_of(strings, offset))
}

/// Which of two symbols counts, where an address lies in both; of two alike the one that stands first.
fn nearer(first: Symbol, later: Option<Symbol>) -> Symbol
    ensures { result ≡ nearer first later }
{
    match later {
        Some(later) => {
            if later.comes_before(&first) {
                later
            } else {
                first
            }
        }
        None => first,
    }
}

/// The symbol of the function at an address.
#[tactic(auto, using(crate::proofs::Tables::symbol_here, crate::proofs::Tables::symbol_not_here))]
fn symbol_at(symbols: &Records<'_, Symbol>, address: u64) -> Option<Symbol>
    ensures { result ≡ symbol_at address symbols.now }
{
    let mut nearest = None;
    let mut left = symbols.len();
    while left > 0 {
        left -= 1;
        let symbol = symbols.at(left);
        if symbol.holds(address) {
            nearest = Some(nearer(symbol, nearest));
        }
    }
    nearest
}

impl<'a> Symbols<'a> {
    /// The symbols that these bytes of a symbol table spell, with their names in a string table.
    pub fn over(symbols: &'a [u8], strings: &'a [u8]) -> Option<Symbols<'a>>
        ensures { result ≡ Some (record { symbols = symbols_in symbols.now; strings = strings.now }) }
    {
        let entries = Records::over(symbols, 0, symbols.len() / SYMBOL_SIZE)?;
        Some(Symbols { entries, strings })
    }

    /// The function at an address, as the file counts its addresses. `None` where it lies in none, or
    /// the name of the one that it lies in isn't in the string table.
    pub fn function_at(&self, address: u64) -> Option<FunctionName<'a>>
        ensures { option_map function_of result ≡ function_at self.now address }
    {
        let symbol = symbol_at(&self.entries, address)?;
        let name = name_in(self.strings, symbol.st_name)?;
        Some(FunctionName {
            name,
            start: symbol.st_value,
        })
    }
}
