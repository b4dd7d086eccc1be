// Which parts of a core's memory are read.
ghost use Rattle.std.specs.Prelude.{◌≡◌, ◌↔◌, IfOk, IfSome, IsTrue, None, Some, map, if◌then◌else◌};
ghost use Rattle.std.specs.List.{AllByRecursion, list_any};
ghost use Rattle.fde_finders.specs.FrameTables.{table_by};
ghost use Rattle.mapped_modules.specs.Loading.{loaded_value};
ghost use Rattle.mapped_modules.specs.Places.{first_such};
ghost use Rattle.mapped_modules.specs.Spaces.{codes_of, tables_of};
ghost use Rattle.part_walks.specs.Parts.{HasBytes, HasTables, HaveTables};
ghost use Rattle.core_parts.specs.Parts.{CanBeWalkedByParts, IsStackPart, LiesIn, are_laid_out};
ghost use Rattle.core_parts.specs.Parts.{end_at, has_address, is_apart, is_laid_out, part_from};
ghost use Rattle.core_parts.specs.Parts.{stack_part, stack_parts};

use core_file::{CoreFront, SegmentPlace};
use fde_finders::{FrameInfo, named_table};
use mapped_modules::{LoadedModule, image_of_tables};
use memory_image::MemoryImage;
use stack_steps::ModuleTables;
use std::alloc::{AllocError, Global};
use unwind_arch::x86_64::RSP;

/// How many bytes below a stack pointer are read: slots that were popped and may be named still, and
/// the 128 bytes that a function may use without moving the pointer.
const BELOW: u64 = 4096;

/// The address after a segment. `None` where it is empty, begins before `low`, passes the highest
/// address, or doesn't lie within so many bytes of the file.
fn end_of(place: &SegmentPlace, low: u64, size: u64) -> Option<u64>
    ensures { result ≡ (if is_laid_out size low place.now then Some (end_at place.now) else None) }
{
    let within = place.offset <= size && place.size <= size - place.offset;
    if place.size > 0 && within && low <= place.address {
        place.address.checked_add(place.size)
    } else {
        None
    }
}

/// Whether the segments of memory ascend, none shares an address with another, and each lies within the
/// bytes that the file has to have.
fn are_laid_out(front: &CoreFront<'_>) -> bool
    ensures { result ≡ are_laid_out front.now.end 0 front.now.places }
{
    let size = front.end();
    let mut low = 0;
    let mut places = front.places();
    while let Some(place) = places.next() {
        match end_of(&place, low, size) {
            Some(end) => low = end,
            None => return false,
        }
    }
    true
}

/// Whether an image has bytes of the frame table that a module names.
fn has_table(image: &MemoryImage<'_>, info: FrameInfo) -> bool
    ensures { IsTrue result ↔ HasBytes (table_by info image.now) }
{
    match named_table(image, info) {
        Some(named) => !image.bytes_from(named.frames.address()).is_empty(),
        None => false,
    }
}

/// Whether the tables that a module names are found in an image.
fn has_tables(image: &MemoryImage<'_>, tables: ModuleTables) -> bool
    ensures { IsTrue result ↔ HasTables image.now tables }
{
    match tables {
        ModuleTables::Elf(info) => has_table(image, info),
        ModuleTables::Macho(_) | ModuleTables::Pe(_) => false,
    }
}

/// Whether the tables that modules name are found in an image.
fn have_tables(image: &MemoryImage<'_>, loaded: &[LoadedModule]) -> bool
    ensures { IsTrue result ↔ HaveTables image.now (codes_of (map loaded_value loaded.now)) }
{
    for one in loaded {
        if !has_tables(image, one.code.tables) {
            return false;
        }
    }
    true
}

/// Whether walks over parts of a core's memory that meet nothing unmapped are those over all of it: its
/// segments ascend and share no address, and the frame table of each module is found in its file.
///
/// # Errors
///
/// `AllocError` where memory ran out.
pub fn has_walkable_parts(
    alloc: Global,
    front: &CoreFront<'_>,
    loaded: &[LoadedModule],
) -> Result<bool, AllocError>
    ensures { IfOk result (λ has. IsTrue has ↔
        CanBeWalkedByParts front.now (map loaded_value loaded.now)) }
{
    let image = image_of_tables(alloc, loaded)?;
    Ok(are_laid_out(front) && have_tables(&image, loaded))
}

/// Whether a segment holds the address.
fn has_address(place: &SegmentPlace, address: u64) -> bool
    ensures { result ≡ has_address address place.now }
{
    place.address <= address && address - place.address < place.size
}

/// The first segment that holds the address.
fn place_at(front: &CoreFront<'_>, address: u64) -> Option<SegmentPlace>
    ensures { result ≡ first_such (has_address address) front.now.places }
{
    let mut places = front.places();
    while let Some(place) = places.next() {
        if has_address(&place, address) {
            return Some(place);
        }
    }
    None
}

/// Whether a segment shares no address with a module's table.
fn is_apart(place: &SegmentPlace, loaded: &[LoadedModule]) -> bool
    ensures { result ≡ is_apart place.now (tables_of (map loaded_value loaded.now)) }
{
    for one in loaded {
        let size = one.bytes.len() as u64;
        let after_table = one.address <= place.address && place.address - one.address >= size;
        let before_table = place.address <= one.address
            && one.address - place.address >= place.size;
        if !after_table && !before_table {
            return false;
        }
    }
    true
}

/// The part of a segment from some bytes below a stack pointer on, of at most so many bytes. `None`
/// where an address or an offset of it passes 2^64.
fn part_from(place: SegmentPlace, pointer: u64, size: u64) -> Option<SegmentPlace>
    ensures exact { result ≡ part_from pointer size place }
    ensures lies { IfSome result (λ part. LiesIn part place) }
{
    let skip = pointer
        .saturating_sub(place.address)
        .saturating_sub(BELOW)
        .min(place.size);
    Some(SegmentPlace {
        address: place.address.checked_add(skip)?,
        offset: place.offset.checked_add(skip)?,
        size: (place.size - skip).min(size),
    })
}

/// The part that is read for a stack pointer, where a segment holds it that shares no address with a
/// module's table.
fn stack_part(
    front: &CoreFront<'_>,
    loaded: &[LoadedModule],
    pointer: u64,
    size: u64,
) -> Option<SegmentPlace>
    ensures exact { result ≡
        stack_part front.now.places (tables_of (map loaded_value loaded.now)) pointer size }
    ensures part { IfSome result (λ part.
        IsStackPart front.now.places (tables_of (map loaded_value loaded.now)) part) }
{
    let place = place_at(front, pointer)?;
    if !is_apart(&place, loaded) {
        return None;
    }
    part_from(place, pointer, size)
}

/// Whether one of these parts holds the address.
fn hold_address(parts: &[SegmentPlace], address: u64) -> bool
    ensures { result ≡ list_any (has_address address) parts.now }
{
    parts.iter().any(|part| has_address(part, address))
}

/// Which parts of a core's memory are read for its threads: of the segment that holds a thread's stack
/// pointer that from 4,096 bytes below the pointer on, or from the segment's start where that is
/// nearer, at most `size` bytes. A thread whose stack pointer lies in a part for an earlier thread has
/// none of its own, and so has one whose stack pointer lies in no segment, or in one that shares an
/// address with a table.
///
/// # Errors
///
/// `AllocError` where memory ran out.
pub fn stack_parts(
    alloc: Global,
    front: &CoreFront<'_>,
    loaded: &[LoadedModule],
    size: u64,
) -> Result<Vec<SegmentPlace>, AllocError>
    ensures exact { IfOk result (λ parts.
        parts.items ≡ stack_parts front.now (map loaded_value loaded.now) size) }
    ensures parts { IfOk result (λ parts. AllByRecursion
        (IsStackPart front.now.places (tables_of (map loaded_value loaded.now))) parts.items) }
{
    let mut parts = Vec::new(alloc);
    let mut threads = front.threads();
    while let Some(thread) = threads.next() {
        let pointer = thread.registers[RSP];
        if !hold_address(&parts, pointer) {
            if let Some(part) = stack_part(front, loaded, pointer, size) {
                parts.push(part)?;
            }
        }
    }
    Ok(parts)
}
