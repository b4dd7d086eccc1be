// The lines of a core's threads by parts of its file: its front, and windows of its memory.
ghost use Rattle.std.specs.Prelude.{◌≡◌, ◌≤◌, ◌↔◌, ℕ, List, IfOk, IfSome, IsErrOf, IsSome, IsTrue};
ghost use Rattle.std.specs.Prelude.{IsSomeAnd, length, map, nat_lt, take};
ghost use Rattle.core_file.specs.ElfHeader.{header_size};
ghost use Rattle.core_file.specs.Fronts.{front_end, headers_end};
ghost use Rattle.command_ends.specs.Verdicts.{verdict};
ghost use Rattle.mapped_files.specs.Files.{AreTold};
ghost use Rattle.mapped_modules.specs.Loading.{loaded_value};
ghost use Rattle.mapped_names.specs.Places.{parts_of};
ghost use Rattle.core_parts.specs.Parts.{CanBeWalkedByParts};
ghost use Rattle.core_stacks.specs.Due.{bytes_due, modules_in, most_bytes};
ghost use Rattle.core_stacks.specs.PartLines.{AreWalked, AreWalkedBy, HasHeaders, HasShortFront};
ghost use Rattle.core_stacks.specs.PartLines.{IsCoreBy, Suffice, SufficeBy, lines_by, lines_over};

use crate::running::{MOST_BYTES, MOST_STATES, modules_in};
use command_ends::Status;
use core_file::{CoreFront, front_size};
use core_parts::{has_walkable_parts, read_windows, space_of_windows, stack_parts};
use core_walks::mapped_walks_of_threads;
use mapped_files::{Files, PartError};
use mapped_modules::LoadedModule;
use named_walks::{FrameNames, mapped_named_walks_of_threads};
use stack_report::Report;
use stack_steps::Space;
use std::alloc::Global;

/// How many bytes of a core are read for its header and program headers, before it is known how many
/// its front has.
const FIRST_SIZE: u64 = 4096;

/// The most bytes of a core's front.
const MOST_FRONT: u64 = 1 << 26;

/// The most bytes of a window that is read for a thread's stack at first.
const SMALL_WINDOW: u64 = 1 << 15;

/// The same where a walk over these met something that isn't there.
const LARGE_WINDOW: u64 = 1 << 20;

/// As many of a file's first bytes as these first bytes of it say that its front has. `None` where they
/// aren't those of a core, or there are too many.
fn front_after<F: Files>(
    alloc: Global,
    files: &F,
    path: &[u8],
    begin: Vec<u8>,
) -> Result<Option<Vec<u8>>, PartError>
    ensures told { (all : List ℕ → List ℕ) → AreTold (F.content files.now) all →
        take (length begin.items) (all path.now) ≡ begin.items →
        IfOk result (λ read. IfSome read (λ front.
        take (length front.items) (all path.now) ≡ front.items)) }
    // Of a core whose front isn't too long the program headers are read, and where they were there all
    // of the front.
    ensures headers { (all : List ℕ → List ℕ) → AreTold (F.content files.now) all →
        take (length begin.items) (all path.now) ≡ begin.items →
        HasShortFront (all path.now) → header_size ≤ length begin.items →
        IfOk result (λ read. IsSomeAnd read (λ front. HasHeaders front.items (all path.now))) }
    ensures whole { (all : List ℕ → List ℕ) → AreTold (F.content files.now) all →
        take (length begin.items) (all path.now) ≡ begin.items →
        HasShortFront (all path.now) → HasHeaders begin.items (all path.now) →
        IfOk result (λ read. IsSomeAnd read (λ front.
        front_end (all path.now) ≤ length front.items)) }
    ensures fault { IsErrOf result PartError.Fault → F.may_fail files.now }
{
    let Some(size) = front_size(&begin) else {
        return Ok(None);
    };
    if size <= begin.len() as u64 {
        return Ok(Some(begin));
    }
    if size > MOST_FRONT {
        return Ok(None);
    }
    let front = files.read_part(alloc, path, 0, size)?;
    Ok(Some(front))
}

/// The front of a core: its header, its program headers and its notes. `None` where there is none, or
/// it is too long.
fn front_of<F: Files>(alloc: Global, files: &F, path: &[u8]) -> Result<Option<Vec<u8>>, PartError>
    ensures told { (all : List ℕ → List ℕ) → AreTold (F.content files.now) all →
        IfOk result (λ read. IfSome read (λ front.
        take (length front.items) (all path.now) ≡ front.items)) }
    // Of a core whose front isn't too long it is read.
    ensures whole { (all : List ℕ → List ℕ) → AreTold (F.content files.now) all →
        HasShortFront (all path.now) →
        IfOk result (λ read. IsSomeAnd read (λ front.
        front_end (all path.now) ≤ length front.items)) }
    ensures fault { IsErrOf result PartError.Fault → F.may_fail files.now }
{
    let begin = files.read_part(alloc, path, 0, FIRST_SIZE)?;
    // These may say where the program headers end, and the program headers where the notes do.
    match front_after(alloc, files, path, begin)? {
        Some(headers) => front_after(alloc, files, path, headers),
        None => Ok(None),
    }
}

/// Whether a file has a byte at this place.
fn has_byte<F: Files>(alloc: Global, files: &F, path: &[u8], place: u64) -> Result<bool, PartError>
    ensures told { (all : List ℕ → List ℕ) → AreTold (F.content files.now) all →
        IfOk result (λ has. has ≡ nat_lt place (length (all path.now))) }
    ensures fault { IsErrOf result PartError.Fault → F.may_fail files.now }
{
    let byte = files.read_part(alloc, path, place, 1)?;
    Ok(!byte.is_empty())
}

/// Whether a file has so many bytes at least, and no more than are read as a core.
fn has_size<F: Files>(alloc: Global, files: &F, path: &[u8], end: u64) -> Result<bool, PartError>
    ensures told { (all : List ℕ → List ℕ) → AreTold (F.content files.now) all →
        IfOk result (λ has. IsTrue has ↔
        ((end ≤ length (all path.now)) × (length (all path.now) ≤ most_bytes))) }
    ensures fault { IsErrOf result PartError.Fault → F.may_fail files.now }
{
    if has_byte(alloc, files, path, MOST_BYTES)? {
        return Ok(false);
    }
    if end == 0 {
        return Ok(true);
    }
    has_byte(alloc, files, path, end - 1)
}

/// The lines of a core's threads over a space, with the functions of their frames where they are asked
/// for. `None` where a walk met something that isn't mapped.
fn lines_over_space<F: Files>(
    alloc: Global,
    files: &F,
    names: bool,
    front: &CoreFront<'_>,
    space: &Space<'_>,
) -> Result<Option<Report>, PartError>
    ensures told { (all : List ℕ → List ℕ) → AreTold (F.content files.now) all →
        IfOk result (λ walked. IfSome walked (λ report. report ≡
        lines_over names all (parts_of front.now.parts) space.now front.now.threads)) }
    ensures walked { IfOk result (λ walked. IsSome walked ↔
        AreWalked names space.now front.now.threads) }
    ensures fault { IsErrOf result PartError.Fault → F.may_fail files.now }
{
    let threads = front.threads();
    if !names {
        return Ok(mapped_walks_of_threads(alloc, space, threads, MOST_STATES)?);
    }
    let mut functions = FrameNames::new(alloc, files, front.mapped_parts())?;
    mapped_named_walks_of_threads(alloc, space, threads, MOST_STATES, &mut functions)
}

/// The lines of a core's threads by windows of at most so many bytes each. `None` where a walk met
/// something that isn't in them.
fn lines_by_windows<F: Files>(
    alloc: Global,
    files: &F,
    names: bool,
    path: &[u8],
    front: &CoreFront<'_>,
    loaded: &[LoadedModule],
    size: u64,
) -> Result<Option<Report>, PartError>
    requires { CanBeWalkedByParts front.now (map loaded_value loaded.now) }
    ensures told { (all : List ℕ → List ℕ) → AreTold (F.content files.now) all →
        front.now.end ≤ length (all path.now) →
        IfOk result (λ walked. IfSome walked (λ report. report ≡
        lines_by names all (all path.now) front.now (map loaded_value loaded.now))) }
    ensures walked { (all : List ℕ → List ℕ) → AreTold (F.content files.now) all →
        IfOk result (λ walked. IsSome walked ↔
        AreWalkedBy names (all path.now) front.now (map loaded_value loaded.now) size) }
    ensures fault { IsErrOf result PartError.Fault → F.may_fail files.now }
{
    let parts = stack_parts(alloc, front, loaded, size)?;
    let windows = read_windows(alloc, files, path, &parts)?;
    let space = space_of_windows(alloc, loaded, &windows)?;
    lines_over_space(alloc, files, names, front, &space)
}

/// The lines of a core's threads by small windows, or else by large ones.
fn lines_by_modules<F: Files>(
    alloc: Global,
    files: &F,
    names: bool,
    path: &[u8],
    front: &CoreFront<'_>,
    loaded: &[LoadedModule],
) -> Result<Option<Report>, PartError>
    ensures told { (all : List ℕ → List ℕ) → AreTold (F.content files.now) all →
        front.now.end ≤ length (all path.now) →
        IfOk result (λ walked. IfSome walked (λ report. report ≡
        lines_by names all (all path.now) front.now (map loaded_value loaded.now))) }
    ensures walked { (all : List ℕ → List ℕ) → AreTold (F.content files.now) all →
        IfOk result (λ walked. IsSome walked ↔
        Suffice names (all path.now) front.now (map loaded_value loaded.now)) }
    ensures fault { IsErrOf result PartError.Fault → F.may_fail files.now }
{
    if !has_walkable_parts(alloc, front, loaded)? {
        return Ok(None);
    }
    let lines = lines_by_windows(alloc, files, names, path, front, loaded, SMALL_WINDOW)?;
    match lines {
        Some(report) => Ok(Some(report)),
        None => lines_by_windows(alloc, files, names, path, front, loaded, LARGE_WINDOW),
    }
}

/// The lines of the threads of a core that begins so.
fn lines_by_front<F: Files>(
    alloc: Global,
    files: &F,
    names: bool,
    path: &[u8],
    front: &CoreFront<'_>,
) -> Result<Option<Report>, PartError>
    ensures told { (all : List ℕ → List ℕ) → AreTold (F.content files.now) all →
        IsCoreBy (all path.now) front.now →
        IfOk result (λ walked. IfSome walked (λ report.
        bytes_due names all (all path.now) ≡ verdict Status.Done report)) }
    ensures walked { (all : List ℕ → List ℕ) → AreTold (F.content files.now) all →
        IfOk result (λ walked. IsSome walked ↔
        Suffice names (all path.now) front.now (modules_in all front.now.parts)) }
    ensures fault { IsErrOf result PartError.Fault → F.may_fail files.now }
{
    let loaded = modules_in(alloc, files, front.mapped_parts())?;
    lines_by_modules(alloc, files, names, path, front, &loaded)
}

/// The lines of a core's threads by parts of its file, the same as by all of it. `None` where the parts
/// that are read don't suffice.
pub(crate) fn lines_by_parts<F: Files>(
    alloc: Global,
    files: &F,
    names: bool,
    path: &[u8],
) -> Result<Option<Report>, PartError>
    ensures told { (all : List ℕ → List ℕ) → AreTold (F.content files.now) all →
        IfOk result (λ walked. IfSome walked (λ report.
        bytes_due names all (all path.now) ≡ verdict Status.Done report)) }
    // Of a core whose front isn't too long they are there where windows suffice by what it says.
    ensures walked { (all : List ℕ → List ℕ) → AreTold (F.content files.now) all →
        HasShortFront (all path.now) → length (all path.now) ≤ most_bytes →
        SufficeBy names all (all path.now) → IfOk result (λ walked. IsSome walked) }
    ensures fault { IsErrOf result PartError.Fault → F.may_fail files.now }
{
    let Some(bytes) = front_of(alloc, files, path)? else {
        return Ok(None);
    };
    let Some(front) = CoreFront::parse(&bytes) else {
        return Ok(None);
    };
    if !has_size(alloc, files, path, front.end())? {
        return Ok(None);
    }
    lines_by_front(alloc, files, names, path, &front)
}
