// Section headers. System V gABI, chapter "Sections", part "Section Header Table Entries".
ghost use Rattle.std.specs.Prelude.{◌≡◌, ◌/◌, ◌==◌, length};
ghost use Rattle.std.specs.Option.{option_and_then};
ghost use Rattle.elf_symbols.specs.Sections.{first_of_type, section_headers, strings_of};
ghost use Rattle.elf_symbols.specs.Sections.{symbol_parts, symbol_section};

use crate::part::FilePart;
use memory_image::{Record, Records, u32_at, u64_at};

// the types of a symbol table, of a string table, and of the symbol table of dynamic linking
const SHT_SYMTAB: u32 = 2;

const SHT_STRTAB: u32 = 3;

const SHT_DYNSYM: u32 = 11;

const SECTION_HEADER_SIZE: usize = 64;

/// A section header: 64 bytes.
#[derive(Clone, Copy)]
pub(crate) struct SectionHeader {
    sh_name: u32,
    sh_type: u32,
    sh_flags: u64,
    sh_addr: u64,
    sh_offset: u64,
    sh_size: u64,
    sh_link: u32,
    sh_info: u32,
    sh_addralign: u64,
    sh_entsize: u64,
}

impl Record for SectionHeader {
    ghost use Rattle.elf_symbols.specs.Sections.{section_header_of};
    ghost use Rattle.elf_symbols.specs.Bytes.{section_header_keeps_all};
    ghost use Rattle.std.proofs.Common.{lit≤};

    const SIZE: usize = 64;

    ghost SIZE = { 64 };

    ghost value_of = { section_header_of };

    fn read(bytes: &[u8]) -> SectionHeader {
        SectionHeader {
            sh_name: u32_at(bytes, 0),
            sh_type: u32_at(bytes, 4),
            sh_flags: u64_at(bytes, 8),
            sh_addr: u64_at(bytes, 16),
            sh_offset: u64_at(bytes, 24),
            sh_size: u64_at(bytes, 32),
            sh_link: u32_at(bytes, 40),
            sh_info: u32_at(bytes, 44),
            sh_addralign: u64_at(bytes, 48),
            sh_entsize: u64_at(bytes, 56),
        }
    }

    ghost has_size = { lit≤ tt };

    ghost keeps_all = { section_header_keeps_all };
}

impl SectionHeader {
    /// The section's bytes in the file.
    fn part(&self) -> FilePart
        ensures { result ≡ record { offset = self.now.sh_offset; size = self.now.sh_size } }
    {
        FilePart {
            offset: self.sh_offset,
            size: self.sh_size,
        }
    }
}

/// Where the symbols of a file lie, and the table of their names.
#[derive(Clone, Copy, Debug, PartialEq, Eq)]
pub struct SymbolParts {
    /// The symbol table.
    pub symbols: FilePart,
    /// The string table that it names.
    pub strings: FilePart,
}

/// The first section of a type.
#[tactic(auto, using(crate::proofs::Tables::type_here, crate::proofs::Tables::type_later))]
fn first_of_type(headers: &Records<'_, SectionHeader>, kind: u32) -> Option<SectionHeader>
    ensures { result ≡ first_of_type kind headers.now }
{
    for i in 0..headers.len() {
        let header = headers.at(i);
        if header.sh_type == kind {
            return Some(header);
        }
    }
    None
}

/// The section of symbols: the first of type `SHT_SYMTAB`, or of type `SHT_DYNSYM` where there is none.
fn symbol_section(headers: &Records<'_, SectionHeader>) -> Option<SectionHeader>
    ensures { result ≡ symbol_section headers.now }
{
    match first_of_type(headers, SHT_SYMTAB) {
        Some(header) => Some(header),
        None => first_of_type(headers, SHT_DYNSYM),
    }
}

/// The section of the names of symbols.
fn strings_of(
    headers: &Records<'_, SectionHeader>,
    symbols: &SectionHeader,
) -> Option<SectionHeader>
    ensures { result ≡ strings_of headers.now symbols.now }
{
    let header = headers.get(symbols.sh_link as usize)?;
    if header.sh_type == SHT_STRTAB {
        Some(header)
    } else {
        None
    }
}

/// Where the symbols of a file with these section headers lie, and their names. `None` where it has no
/// symbol table, or the one that it has names no string table.
pub fn symbol_parts(headers: &[u8]) -> Option<SymbolParts>
    ensures { result ≡ symbol_parts (section_headers headers.now) }
{
    let headers = Records::over(headers, 0, headers.len() / SECTION_HEADER_SIZE)?;
    let symbols = symbol_section(&headers)?;
    let strings = strings_of(&headers, &symbols)?;
    Some(SymbolParts {
        symbols: symbols.part(),
        strings: strings.part(),
    })
}
