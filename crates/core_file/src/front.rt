// The front of a core file: its header, its program headers and its notes.
ghost use Rattle.std.specs.Prelude.{◌≡◌, ◌<◌, ◌≤◌, ◌^◌, ℕ, List, length};
ghost use Rattle.std.specs.Prelude.{IfSome, IsSome, IsTrue, Some};
ghost use Rattle.std.specs.Option.{option_map};
ghost use Rattle.core_file.specs.MappedViews.{parts_left};
ghost use Rattle.core_file.specs.Left.{places_left, threads_left};
ghost use Rattle.core_file.specs.Fronts.{IsFrontOf, IsCoreWithFront};
ghost use Rattle.core_file.specs.Fronts.{is_counted, front_by, front_of};
ghost use Rattle.core_file.specs.Fronts.{front_end, front_size, headers_end, notes_end, fitting};

use crate::header::{
    HEADER_SIZE, PN_XNUM, PROGRAM_HEADER_SIZE, has_core_header, header_count, headers_offset,
};
use crate::mapped::{MappedParts, parts_by_notes};
use crate::places::Places;
use crate::program_header::{PT_LOAD, PT_NOTE, ProgramHeader, last_end, program_headers};
use crate::threads::{Threads, notes_are_whole};
use memory_image::Records;
use std::marker::Model;

/// What the first bytes of a core file of x86-64 say of it. These bytes are borrowed; the memory of
/// the file needn't be among them.
///
/// Proofs see the registers of the threads, where the memory lies, which files were mapped, and how
/// long the file has to be.
#[derive(Drop)]
pub struct CoreFront<'a> {
    front: &'a [u8],
    headers: Records<'a, ProgramHeader>,
    end: u64,
}

impl<'a> Model for CoreFront<'a> {
    ghost use Rattle.core_file.specs.Fronts.{FrontValue, front_to};

    ghost Value = { FrontValue };

    ghost view = { λ f. front_to f.front.now f.headers f.end };
}

/// Whether the bytes begin with the header of a core file, in which the number of program headers
/// stands.
fn is_counted(bytes: &[u8]) -> bool
    ensures value { result ≡ is_counted bytes.now }
    ensures size { IsTrue result → 64 ≤ length bytes.now }
{
    has_core_header(bytes) && header_count(bytes) != PN_XNUM
}

/// What the front says whose program headers these are, where it has the notes.
fn front_by<'a>(front: &'a [u8], headers: Records<'a, ProgramHeader>) -> Option<CoreFront<'a>>
    ensures { result ≡ front_by front.now headers.entry }
{
    let memory_end = last_end(&headers, PT_LOAD)?;
    let notes_end = last_end(&headers, PT_NOTE)?;
    if notes_end <= front.len() as u64 && notes_are_whole(front, &headers) {
        Some(CoreFront {
            front,
            headers,
            end: memory_end.max(notes_end),
        })
    } else {
        None
    }
}

/// What these first bytes of a file say.
#[tactic(auto, unfolding(crate::specs::Fronts::front_of))]
fn front_in(front: &[u8]) -> Option<CoreFront<'_>>
    ensures { result ≡ front_of front.now }
{
    if !is_counted(front) {
        return None;
    }
    front_by(front, program_headers(front)?)
}

impl<'a> CoreFront<'a> {
    /// What these first bytes of a core file say. They have to be as many as [`front_size`] says;
    /// there may be more.
    ///
    /// `None` where the bytes don't begin with the header of a core file of x86-64 in which the
    /// number of program headers stands; where these or a segment of notes don't lie within the
    /// bytes; where a segment of notes isn't whole notes; and where a segment's end passes 2^64.
    pub fn parse(front: &'a [u8]) -> Option<CoreFront<'a>>
        // A file that begins so and is long enough is a core file, and holds what the front says.
        ensures front { IfSome result (λ value. IsFrontOf front.now value) }
        // The first bytes of a core file are read where its front doesn't pass them.
        ensures whole { (bytes : List ℕ) → IsCoreWithFront front.now bytes →
            front_end bytes ≤ length front.now → IsSome result }
        ensures exact { result ≡ front_of front.now }
        // There are fewer than 2^64 threads, where the front has at most 2^48 bytes, so that they
        // can be counted.
        ensures few { length front.now ≤ 2 ^ 48 → IfSome result (λ f. length f.threads < 2 ^ 64) }
    {
        front_in(front)
    }

    /// The registers of the threads, in the order of the notes.
    pub fn threads(&self) -> Threads<'a>
        ensures { threads_left result ≡ self.now.threads }
    {
        Threads::over(self.front, self.headers.after(0))
    }

    /// Where the segments of memory lie that have bytes in the file, in the order of the program
    /// headers.
    pub fn places(&self) -> Places<'a>
        ensures left { places_left result ≡ self.now.places }
        ensures few { length self.now.places < 2 ^ 64 }
    {
        Places::over(self.headers.after(0))
    }

    /// The parts of files that were mapped: those of the first note `NT_FILE`. `None` where there
    /// is no such note, or where its parts don't lie within it.
    pub fn mapped_parts(&self) -> Option<MappedParts<'a>>
        ensures { option_map parts_left result ≡ self.now.parts }
    {
        parts_by_notes(self.front, &self.headers)
    }

    /// How many bytes the file has to have for its memory and its notes.
    pub fn end(&self) -> u64
        ensures { result ≡ self.now.end }
    {
        self.end
    }
}

/// Where the program headers of a file end that begins with these bytes.
fn headers_end(bytes: &[u8]) -> Option<u64>
    requires { 64 ≤ length bytes.now }
    ensures { result ≡ fitting (headers_end bytes.now) }
{
    let size = u64::from(header_count(bytes)) * u64::from(PROGRAM_HEADER_SIZE);
    headers_offset(bytes).checked_add(size)
}

/// Where the notes of a file end that begins with these bytes, 0 where these don't have the program
/// headers.
fn notes_end(bytes: &[u8]) -> Option<u64>
    requires { 64 ≤ length bytes.now }
    ensures { result ≡ fitting (notes_end bytes.now) }
{
    match program_headers(bytes) {
        Some(headers) => last_end(&headers, PT_NOTE),
        None => Some(0),
    }
}

/// How many bytes the front of a file has that begins with these.
#[tactic(auto, unfolding(crate::specs::Fronts::front_end))]
fn size_in(bytes: &[u8]) -> Option<u64>
    ensures { result ≡ front_size bytes.now }
{
    if !is_counted(bytes) {
        return None;
    }
    let end = headers_end(bytes)?.max(notes_end(bytes)?);
    Some(end.max(HEADER_SIZE as u64))
}

/// How many of a core file's first bytes [`CoreFront::parse`] needs, as far as these first bytes
/// of it say: up to the end of the ELF header, of the program headers, and of the notes where all
/// program headers are among these bytes. So 64 bytes say how many are needed for the program
/// headers, and these how many for all.
///
/// `None` where the bytes don't begin with the header of a core file of x86-64, which has 64 bytes,
/// or the number of program headers doesn't stand in it; and where an end passes 2^64.
pub fn front_size(bytes: &[u8]) -> Option<u64>
    // 64 bytes of a core file or more say how many it has up to where its program headers end.
    ensures headers { (file : List ℕ) → IsCoreWithFront bytes.now file → 64 ≤ length bytes.now →
        (n : ℕ) × (result ≡ Some n) × (headers_end file ≤ n) × (n ≤ length file) }
    // As many bytes say up to where its front ends.
    ensures whole { (file : List ℕ) → IsCoreWithFront bytes.now file → 64 ≤ length bytes.now →
        headers_end file ≤ length bytes.now →
        (result ≡ Some (front_end file)) × (front_end file ≤ length file) }
    ensures exact { result ≡ front_size bytes.now }
{
    size_in(bytes)
}
