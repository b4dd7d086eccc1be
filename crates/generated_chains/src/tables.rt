//! The tables that describe the functions of a chain.

ghost use Rattle.std.specs.Prelude.{◌≡◌, ◌<◌, ◌≤◌, ◌++◌, IfOk, OnOk, length};
ghost use Rattle.generated_chains.specs.Outlines.{AreNumbered};
ghost use Rattle.generated_chains.specs.Code.{start_of};
ghost use Rattle.generated_chains.specs.Tables.{plain_entry, language_entry, language_tables};
ghost use Rattle.generated_chains.specs.Tables.{common_offset, language_place, program_of};
ghost use Rattle.generated_chains.specs.Tables.{offset_of, description_bytes, frame_table};
ghost use Rattle.generated_chains.specs.Tables.{pair_bytes, header_table};

use crate::outline::{Handling, Kind, Outline};
use crate::spelled::{put_relative, put_u32};
use std::alloc::{AllocError, Global};

/// Where the first function starts.
pub const TEXT: u32 = 0x400000;
/// Where the header table stands.
pub const HEADER: u32 = 0x10000000;
/// Where the frame table stands.
pub const FRAMES: u32 = 0x20000000;
/// Where the language tables stand.
pub const LANGUAGES: u32 = 0x30000000;

// A function's start.
pub(crate) fn start_of(index: u32) -> u32
    requires { index < 100000 }
    ensures { result ≡ start_of index }
{
    TEXT + 64 * index
}

// At which offset of the frame table a function's description stands.
fn offset_of(index: u32) -> u32
    requires { index < 100000 }
    ensures { result ≡ offset_of index }
{
    56 + 32 * index
}

// The common information entry of functions without a language table.
fn plain_entry() -> &'static [u8]
    ensures { result.now ≡ plain_entry }
{
    &[
        20, 0, 0, 0, 0, 0, 0, 0, 1, 0x7a, 0x52, 0, 1, 0x78, 16, 1, 0x1b, 0x0c, 7, 8, 0x90, 1, 0, 0,
    ]
}

// That of functions with one.
fn language_entry() -> &'static [u8]
    ensures { result.now ≡ language_entry }
{
    &[
        28, 0, 0, 0, 0, 0, 0, 0, 1, 0x7a, 0x50, 0x4c, 0x52, 0, 1, 0x78, 16, 7, 0x1b, 0xd5, 0xff,
        0xff, 0x1e, 0x1b, 0x1b, 0x0c, 7, 8, 0x90, 1, 0, 0,
    ]
}

// At which offset of the frame table a function's common information entry stands.
fn common_offset(handling: Handling) -> u32
    ensures value { result ≡ common_offset handling }
    ensures small { result ≤ 24 }
{
    match handling {
        Handling::PassesOn => 0,
        Handling::CleansUp => 24,
        Handling::Catches => 24,
    }
}

// Where a function's language table stands.
fn language_place(handling: Handling) -> u32
    ensures { result ≡ language_place handling }
{
    match handling {
        Handling::PassesOn => LANGUAGES,
        Handling::CleansUp => LANGUAGES,
        Handling::Catches => LANGUAGES + 12,
    }
}

// A function's frame program.
fn program_of(kind: Kind) -> &'static [u8]
    ensures { result.now ≡ program_of kind }
{
    match kind {
        Kind::Pushes => &[0x41, 0x0e, 16, 0x83, 2, 0, 0, 0, 0, 0, 0],
        Kind::PushesAndAllocates => &[0x41, 0x0e, 16, 0x83, 2, 0x44, 0x0e, 32, 0, 0, 0],
        Kind::SetsFrame => &[0x41, 0x0e, 16, 0x86, 2, 0x43, 0x0d, 6, 0, 0, 0],
        Kind::SetsFrameAndPushes => &[0x41, 0x0e, 16, 0x86, 2, 0x43, 0x0d, 6, 0x41, 0x83, 3],
    }
}

// Puts a function's description last.
fn put_description(bytes: &mut Vec<u8>, function: Outline) -> Result<(), AllocError>
    requires { function.index < 100000 }
    ensures { OnOk result (bytes.new.items ≡ bytes.old.items ++ description_bytes function) }
{
    let offset = offset_of(function.index);
    bytes.extend_from_slice(&[28, 0, 0, 0])?;
    put_u32(bytes, offset + 4 - common_offset(function.handling))?;
    put_relative(bytes, FRAMES + (offset + 8), start_of(function.index))?;
    put_u32(bytes, 64)?;
    bytes.push(4)?;
    put_relative(
        bytes,
        FRAMES + (offset + 17),
        language_place(function.handling),
    )?;
    bytes.extend_from_slice(program_of(function.kind))
}

/// The frame table that describes functions: two common information entries, and 32 bytes for each
/// function.
///
/// # Errors
///
/// `AllocError` where memory ran out.
pub fn frame_table(alloc: Global, functions: &[Outline]) -> Result<Vec<u8>, AllocError>
    requires numbered { AreNumbered 0 functions.now }
    requires few { length functions.now ≤ 100000 }
    ensures { IfOk result (λ bytes. bytes.items ≡ frame_table functions.now) }
{
    let mut bytes = Vec::with_capacity(alloc, 56 + 32 * functions.len())?;
    bytes.extend_from_slice(plain_entry())?;
    bytes.extend_from_slice(language_entry())?;
    for function in functions {
        put_description(&mut bytes, *function)?;
    }
    Ok(bytes)
}

/// The two language tables that the functions share: a cleanup, and a catch.
pub fn language_tables() -> &'static [u8]
    ensures { result.now ≡ language_tables }
{
    &[
        0xff, 0xff, 1, 8, 16, 24, 48, 0, 48, 16, 0, 0, 0xff, 0xff, 1, 4, 16, 24, 48, 1, 1, 0,
    ]
}

// Puts a function's pair of the header table last.
fn put_pair(bytes: &mut Vec<u8>, function: Outline) -> Result<(), AllocError>
    requires { function.index < 100000 }
    ensures { OnOk result (bytes.new.items ≡ bytes.old.items ++ pair_bytes function) }
{
    put_relative(bytes, HEADER, start_of(function.index))?;
    put_relative(bytes, HEADER, FRAMES + offset_of(function.index))
}

/// The header table of that frame table, 8 bytes for each function.
///
/// # Errors
///
/// `AllocError` where memory ran out.
pub fn header_table(alloc: Global, functions: &[Outline]) -> Result<Vec<u8>, AllocError>
    requires numbered { AreNumbered 0 functions.now }
    requires few { length functions.now ≤ 100000 }
    ensures { IfOk result (λ bytes. bytes.items ≡ header_table functions.now) }
{
    let mut bytes = Vec::with_capacity(alloc, 12 + 8 * functions.len())?;
    bytes.extend_from_slice(&[1, 0x1b, 3, 0x3b])?;
    put_relative(&mut bytes, HEADER + 4, FRAMES)?;
    put_u32(&mut bytes, functions.len() as u32)?;
    for function in functions {
        put_pair(&mut bytes, *function)?;
    }
    Ok(bytes)
}
