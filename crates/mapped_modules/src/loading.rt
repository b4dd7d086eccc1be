// Reading of the modules' tables.
ghost use Rattle.std.specs.Prelude.{◌≡◌, ℕ, List, IfOk, IsErrOf, map};
ghost use Rattle.core_file.specs.MappedViews.{part_of, parts_left};
ghost use Rattle.mapped_files.specs.Files.{AreTold};
ghost use Rattle.mapped_modules.specs.Loading.{IsFront, IsLastFront, loaded_at, loaded_from};
ghost use Rattle.mapped_modules.specs.Loading.{loaded_value, place_in};

use crate::places::{ModulePlace, place_of};
use core_file::{MappedPart, MappedParts};
use mapped_files::{FRONT_SIZE, Files, PartError, program_headers};
use stack_steps::Module;
use std::alloc::Global;

/// A module, and the segment of its file that has its frame table, at its address.
#[derive(Drop)]
pub struct LoadedModule {
    /// Where its code lies, and its frame table's header.
    pub code: Module,
    /// Where the segment lies.
    pub address: u64,
    /// The segment's bytes.
    pub bytes: Vec<u8>,
}

/// The front of a file.
#[derive(Drop)]
struct Front<'a> {
    path: &'a [u8],
    bytes: Vec<u8>,
}

/// Reads the front of a file.
fn read_front<'a, F: Files>(
    alloc: Global,
    files: &F,
    path: &'a [u8],
) -> Result<Front<'a>, PartError>
    ensures path { IfOk result (λ front. front.path.now ≡ path.now) }
    ensures told { (all : List ℕ → List ℕ) → AreTold (F.content files.now) all →
        IfOk result (λ front. IsFront all front) }
    ensures fault { IsErrOf result PartError.Fault → F.may_fail files.now }
{
    let bytes = files.read_part(alloc, path, 0, FRONT_SIZE)?;
    Ok(Front { path, bytes })
}

/// The front of a file, that which was read last where it is this file's.
fn front_for<'a, F: Files>(
    alloc: Global,
    files: &F,
    last: Option<Front<'a>>,
    path: &'a [u8],
) -> Result<Front<'a>, PartError>
    ensures path { IfOk result (λ front. front.path.now ≡ path.now) }
    ensures told { (all : List ℕ → List ℕ) → AreTold (F.content files.now) all →
        IsLastFront all last.entry → IfOk result (λ front. IsFront all front) }
    ensures fault { IsErrOf result PartError.Fault → F.may_fail files.now }
{
    if let Some(front) = last {
        if front.path == path {
            return Ok(front);
        }
    }
    read_front(alloc, files, path)
}

/// Reads the segment that has the frame table of a module.
fn load<F: Files>(
    alloc: Global,
    files: &F,
    path: &[u8],
    place: ModulePlace,
) -> Result<LoadedModule, PartError>
    ensures told { (all : List ℕ → List ℕ) → AreTold (F.content files.now) all →
        IfOk result (λ loaded. loaded_value loaded ≡ loaded_at (all path.now) place) }
    ensures fault { IsErrOf result PartError.Fault → F.may_fail files.now }
{
    let bytes = files.read_part(alloc, path, place.offset, place.size)?;
    Ok(LoadedModule {
        code: place.code,
        address: place.address,
        bytes,
    })
}

/// The place of the module whose code a part is of a file that begins so.
fn place_in(front: &[u8], part: &MappedPart<'_>) -> Option<ModulePlace>
    ensures { result ≡ place_in front.now (part_of part.now) }
{
    let headers = program_headers(front)?;
    place_of(&headers, part)
}

/// The modules of files that were mapped, with their frame tables, in the order of the parts.
///
/// # Errors
///
/// [`PartError::Fault`] where a read failed, and [`PartError::Memory`] where memory ran out.
pub fn loaded_modules<F: Files>(
    alloc: Global,
    files: &F,
    parts: MappedParts<'_>,
) -> Result<Vec<LoadedModule>, PartError>
    ensures told { (all : List ℕ → List ℕ) → AreTold (F.content files.now) all →
        IfOk result (λ loaded. map loaded_value loaded.items ≡ loaded_from all (parts_left parts.entry)) }
    ensures fault { IsErrOf result PartError.Fault → F.may_fail files.now }
{
    let mut loaded = Vec::new(alloc);
    let mut last = None;
    let mut parts = parts;
    while let Some(part) = parts.next() {
        let front = front_for(alloc, files, last, part.path)?;
        if let Some(place) = place_in(&front.bytes, &part) {
            loaded.push(load(alloc, files, part.path, place)?)?;
        }
        last = Some(front);
    }
    Ok(loaded)
}
