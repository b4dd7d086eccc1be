//! The names of functions in an ELF file of 64 bits, by its symbol table.
//!
//! A file is read in parts: its header says where the section headers lie ([`section_table`]), these
//! say where the symbols and their names lie ([`symbol_parts`]), and over the bytes of both
//! [`Symbols`] finds the function at an address ([`Symbols::function_at`]).
//!
//! The symbols are those of the first section of type `SHT_SYMTAB`, or of type `SHT_DYNSYM` where
//! there is none, as in a stripped file. A function is a symbol of the type `STT_FUNC` or
//! `STT_GNU_IFUNC` that is defined and has a name; an address lies in it from `st_value` on, before
//! `st_value + st_size`. Where it lies in several, the one that begins last counts; of those that begin
//! together a global one before a weak and a weak before a local one, any other binding last, and of
//! these the first in the table.
//!
//! Source: System V gABI, chapters "Object Files", "Sections", "Symbol Table" and "String Table".
#![tactic(auto)]

mod header;
mod laws;
mod part;
mod section;
mod symbol;
mod symbols;

pub use header::section_table;
pub use part::FilePart;
pub use section::{SymbolParts, symbol_parts};
pub use symbols::{FunctionName, Symbols};
