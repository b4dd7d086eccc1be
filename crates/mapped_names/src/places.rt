// Where an address lies in a file.
ghost use Rattle.std.specs.Prelude.{◌≡◌, ℕ, List, IfOk};
ghost use Rattle.std.specs.Option.{option_and_then, option_map};
ghost use Rattle.core_file.specs.MappedViews.{part_of};
ghost use Rattle.elf_symbols.specs.Functions.{function_at, function_of};
ghost use Rattle.mapped_names.specs.Places.{address_by, address_with, code_at, file_address, function_value};
ghost use Rattle.mapped_names.specs.Places.{function_by, place_in_file, place_value, position_in};
ghost use Rattle.mapped_names.specs.Reading.{IsNamedFile, table_in_bytes};

use crate::reading::{NamedFile, SymbolBytes};
use core_file::MappedPart;
use elf_symbols::{FunctionName, Symbols};
use fde_finders::Phdr;
use mapped_files::program_headers;
use memory_image::Records;
use std::alloc::{AllocError, Global};

const PT_LOAD: u32 = 1;

/// A function of a file.
#[derive(Drop)]
pub struct NamedFunction {
    /// Its name, as it stands in the file.
    pub name: Vec<u8>,
    /// Its first address, as the file counts.
    pub start: u64,
}

/// Where an address lies in the code of a file that was mapped.
#[derive(Drop)]
pub struct CodePlace<'a> {
    /// The path of the file.
    pub path: &'a [u8],
    /// The address, as the file counts.
    pub address: u64,
    /// The function in which it lies, where the file has a symbol of it.
    pub function: Option<NamedFunction>,
}

/// Whether a segment is code of whose bytes in the file one stands at this offset.
fn has_code_at(header: &Phdr, position: u64) -> bool
    ensures { result ≡ code_at position header.now }
{
    header.p_type == PT_LOAD
        && header.p_flags % 2 == 1
        && header.p_offset <= position
        && position - header.p_offset < header.p_filesz
}

/// The address of a byte of a segment, as the file counts, by where it stands in the file.
fn address_with(header: &Phdr, position: u64) -> u64
    ensures { result ≡ address_with position header.now }
{
    header
        .p_vaddr
        .wrapping_add(position.saturating_sub(header.p_offset))
}

/// The address at which a byte of code lies, as the file counts, by where it stands in the file.
fn address_by(headers: &Records<'_, Phdr>, position: u64) -> Option<u64>
    ensures { result ≡ address_by position headers.now }
{
    for i in 0..headers.len() {
        let header = headers.at(i);
        if has_code_at(&header, position) {
            return Some(address_with(&header, position));
        }
    }
    None
}

/// Where the byte at an address of a part stands in its file.
fn position_in(part: &MappedPart<'_>, address: u64) -> u64
    ensures { result ≡ position_in (part_of part.now) address }
{
    part.offset.wrapping_add(address.saturating_sub(part.start))
}

/// A function whose name is its own.
fn own_function(alloc: Global, found: FunctionName<'_>) -> Result<NamedFunction, AllocError>
    ensures { IfOk result (λ own. function_value own ≡ function_of found.entry) }
{
    Ok(NamedFunction {
        name: Vec::from_slice(alloc, found.name)?,
        start: found.start,
    })
}

/// The function at an address, by the symbols of its file.
fn function_in(
    alloc: Global,
    bytes: &SymbolBytes,
    address: u64,
) -> Result<Option<NamedFunction>, AllocError>
    ensures { IfOk result (λ own. option_map function_value own ≡
        function_at (table_in_bytes bytes.now) address) }
{
    let Some(symbols) = Symbols::over(&bytes.symbols, &bytes.strings) else {
        unreachable!()
    };
    match symbols.function_at(address) {
        Some(found) => Ok(Some(own_function(alloc, found)?)),
        None => Ok(None),
    }
}

/// The function at an address of a file, where it has symbols.
fn function_by(
    alloc: Global,
    symbols: &Option<SymbolBytes>,
    address: u64,
) -> Result<Option<NamedFunction>, AllocError>
    ensures { IfOk result (λ own. option_map function_value own ≡
        function_by (option_map table_in_bytes symbols.now) address) }
{
    match symbols {
        Some(bytes) => function_in(alloc, bytes, address),
        None => Ok(None),
    }
}

/// Where an address of a part lies, as its file counts.
fn address_in(file: &NamedFile, part: &MappedPart<'_>, address: u64) -> Option<u64>
    ensures { (bytes : List ℕ) → IsNamedFile bytes file.now →
        result ≡ file_address bytes (part_of part.now) address }
{
    let headers = program_headers(&file.front)?;
    address_by(&headers, position_in(part, address))
}

/// Where an address of a part lies in its file.
pub(crate) fn place_in<'a>(
    alloc: Global,
    file: &NamedFile,
    part: &MappedPart<'a>,
    address: u64,
) -> Result<Option<CodePlace<'a>>, AllocError>
    ensures { (bytes : List ℕ) → IsNamedFile bytes file.now →
        IfOk result (λ place. option_map place_value place ≡
        place_in_file bytes (part_of part.now) address) }
{
    let Some(address) = address_in(file, part, address) else {
        return Ok(None);
    };
    let function = function_by(alloc, &file.symbols, address)?;
    Ok(Some(CodePlace {
        path: part.path,
        address,
        function,
    }))
}
