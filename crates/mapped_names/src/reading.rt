// What is read of a file for its names: its front and its symbols.
ghost use Rattle.std.specs.Prelude.{◌≡◌, ℕ, List, IfOk, IsErrOf, take};
ghost use Rattle.std.specs.Option.{option_map};
ghost use Rattle.elf_symbols.specs.Functions.{table_at, table_by, table_in, whole_part};
ghost use Rattle.elf_symbols.specs.Header.{section_table};
ghost use Rattle.mapped_files.specs.Files.{AreTold, front_of};
ghost use Rattle.mapped_names.specs.Reading.{IsNamedFile, table_by_front, table_in_bytes};

use elf_symbols::{FilePart, SymbolParts, section_table, symbol_parts};
use mapped_files::{FRONT_SIZE, Files, PartError};
use std::alloc::Global;

// how many bytes the ELF header has
const HEADER_SIZE: usize = 64;

/// The bytes of a symbol table, and of the names in it.
#[derive(Drop)]
pub(crate) struct SymbolBytes {
    pub(crate) symbols: Vec<u8>,
    pub(crate) strings: Vec<u8>,
}

/// What names are made of: a file's front, and its symbols, where it has them.
#[derive(Drop)]
pub(crate) struct NamedFile {
    pub(crate) front: Vec<u8>,
    pub(crate) symbols: Option<SymbolBytes>,
}

/// The bytes of a part of a file. `None` where the file ends before.
fn read_whole<F: Files>(
    alloc: Global,
    files: &F,
    path: &[u8],
    part: FilePart,
) -> Result<Option<Vec<u8>>, PartError>
    ensures told { (all : List ℕ → List ℕ) → AreTold (F.content files.now) all →
        IfOk result (λ bytes. option_map (λ b. b.items) bytes ≡ whole_part (all path.now) part) }
    ensures fault { IsErrOf result PartError.Fault → F.may_fail files.now }
{
    let bytes = files.read_part(alloc, path, part.offset, part.size)?;
    if bytes.len() as u64 == part.size {
        Ok(Some(bytes))
    } else {
        Ok(None)
    }
}

/// The symbols of a file that lie so.
fn read_parts<F: Files>(
    alloc: Global,
    files: &F,
    path: &[u8],
    parts: SymbolParts,
) -> Result<Option<SymbolBytes>, PartError>
    ensures told { (all : List ℕ → List ℕ) → AreTold (F.content files.now) all →
        IfOk result (λ bytes. option_map table_in_bytes bytes ≡ table_at (all path.now) parts) }
    ensures fault { IsErrOf result PartError.Fault → F.may_fail files.now }
{
    let Some(symbols) = read_whole(alloc, files, path, parts.symbols)? else {
        return Ok(None);
    };
    let Some(strings) = read_whole(alloc, files, path, parts.strings)? else {
        return Ok(None);
    };
    Ok(Some(SymbolBytes { symbols, strings }))
}

/// The first 64 bytes, fewer where there are fewer.
fn header_of(front: &[u8]) -> &[u8]
    ensures { result.now ≡ take 64 front.now }
{
    if front.len() <= HEADER_SIZE {
        return front;
    }
    &front[..HEADER_SIZE]
}

/// The symbols of a file that has these section headers.
fn read_by<F: Files>(
    alloc: Global,
    files: &F,
    path: &[u8],
    headers: &[u8],
) -> Result<Option<SymbolBytes>, PartError>
    ensures told { (all : List ℕ → List ℕ) → AreTold (F.content files.now) all →
        IfOk result (λ bytes. option_map table_in_bytes bytes ≡ table_by (all path.now) headers.now) }
    ensures fault { IsErrOf result PartError.Fault → F.may_fail files.now }
{
    match symbol_parts(headers) {
        Some(parts) => read_parts(alloc, files, path, parts),
        None => Ok(None),
    }
}

/// The symbols of a file whose section headers lie so.
fn read_in<F: Files>(
    alloc: Global,
    files: &F,
    path: &[u8],
    sections: FilePart,
) -> Result<Option<SymbolBytes>, PartError>
    ensures told { (all : List ℕ → List ℕ) → AreTold (F.content files.now) all →
        IfOk result (λ bytes. option_map table_in_bytes bytes ≡ table_in (all path.now) sections) }
    ensures fault { IsErrOf result PartError.Fault → F.may_fail files.now }
{
    match read_whole(alloc, files, path, sections)? {
        Some(headers) => read_by(alloc, files, path, &headers),
        None => Ok(None),
    }
}

/// Where the section headers of a file lie that begins so.
fn sections_by(front: &[u8]) -> Option<FilePart>
    ensures { result ≡ section_table (take 64 front.now) }
{
    section_table(header_of(front))
}

/// The symbols of a file that begins so.
fn read_symbols<F: Files>(
    alloc: Global,
    files: &F,
    path: &[u8],
    front: &[u8],
) -> Result<Option<SymbolBytes>, PartError>
    ensures told { (all : List ℕ → List ℕ) → AreTold (F.content files.now) all →
        IfOk result (λ bytes. option_map table_in_bytes bytes ≡
        table_by_front (all path.now) front.now) }
    ensures fault { IsErrOf result PartError.Fault → F.may_fail files.now }
{
    match sections_by(front) {
        Some(sections) => read_in(alloc, files, path, sections),
        None => Ok(None),
    }
}

/// The front of a file.
fn read_front<F: Files>(alloc: Global, files: &F, path: &[u8]) -> Result<Vec<u8>, PartError>
    ensures told { (all : List ℕ → List ℕ) → AreTold (F.content files.now) all →
        IfOk result (λ front. front.items ≡ front_of (all path.now)) }
    ensures fault { IsErrOf result PartError.Fault → F.may_fail files.now }
{
    files.read_part(alloc, path, 0, FRONT_SIZE)
}

/// Reads a file for its names.
pub(crate) fn read_file<F: Files>(
    alloc: Global,
    files: &F,
    path: &[u8],
) -> Result<NamedFile, PartError>
    ensures told { (all : List ℕ → List ℕ) → AreTold (F.content files.now) all →
        IfOk result (λ file. IsNamedFile (all path.now) file) }
    ensures fault { IsErrOf result PartError.Fault → F.may_fail files.now }
{
    let front = read_front(alloc, files, path)?;
    let symbols = read_symbols(alloc, files, path, &front)?;
    Ok(NamedFile { front, symbols })
}
