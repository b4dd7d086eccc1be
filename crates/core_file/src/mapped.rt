// Which files were mapped. Linux's note NT_FILE.
ghost use Rattle.std.specs.Prelude.{◌≡◌};
ghost use Rattle.std.specs.Option.{option_map};
ghost use Rattle.core_file.specs.Left.{note_of, notes_left};
ghost use Rattle.core_file.specs.MappedParts.{is_on_files, description_in, files_in, split_path};
ghost use Rattle.core_file.specs.MappedParts.{parts_in, parts_by_notes, mapped_parts};
ghost use Rattle.core_file.specs.MappedViews.{parts_left};

use crate::file::headers_within;
use crate::header::has_core_header;
use crate::notes::{NoteEntries, NoteEntry};
use crate::program_header::ProgramHeader;
use crate::status::zero_in;
use memory_image::{Record, Records, u64_at};

// the type of a note on the files that were mapped
const NT_FILE: u32 = 0x4649_4c45;

// how many bytes stand before the parts: their number, and the size of a page
const COUNTS_SIZE: usize = 16;

// the bytes of a part: its first address, the address after its last, and how many pages of the file stand before it
const PART_SIZE: usize = 24;

/// A part of a file that was mapped.
#[derive(Clone, Copy, Debug)]
pub struct MappedPart<'a> {
    /// Its first address.
    pub start: u64,
    /// The address after its last.
    pub end: u64,
    /// Where it begins in the file.
    pub offset: u64,
    /// The file's path.
    pub path: &'a [u8],
}

/// What a note tells of a part beside its file's path.
#[derive(Clone, Copy)]
pub(crate) struct PartEntry {
    start: u64,
    end: u64,
    pages: u64,
}

impl Record for PartEntry {
    ghost use Rattle.core_file.specs.MappedParts.{part_entry_of};
    ghost use Rattle.core_file.specs.PartEntryBytes.{part_entry_keeps_all};
    ghost use Rattle.std.proofs.Common.{lit≤};

    const SIZE: usize = 24;

    ghost SIZE = { 24 };

    ghost value_of = { part_entry_of };

    fn read(bytes: &[u8]) -> PartEntry {
        PartEntry {
            start: u64_at(bytes, 0),
            end: u64_at(bytes, 8),
            pages: u64_at(bytes, 16),
        }
    }

    ghost has_size = { lit≤ tt };

    ghost keeps_all = { part_entry_keeps_all };
}

/// The parts of files that were mapped, in the order of the note: by their addresses.
#[derive(Drop)]
pub struct MappedParts<'a> {
    page_size: u64,
    entries: Records<'a, PartEntry>,
    paths: &'a [u8],
}

/// The path that bytes begin with, up to a zero byte, and what stands after that. `None` where there is no such byte.
fn split_path(paths: &[u8]) -> Option<(&[u8], &[u8])>
    ensures { option_map (λ p. (p.0.now, p.1.now)) result ≡ split_path paths.now }
{
    let end = zero_in(paths)?;
    Some((&paths[..end], &paths[end + 1..]))
}

impl<'a> Iterator for MappedParts<'a> {
    ghost use Rattle.std.specs.Iterator.{YieldsFirstBy, item_count};
    ghost use Rattle.core_file.specs.MappedViews.{part_of, parts_left};

    type Item = MappedPart<'a>;

    ghost next_gives = { YieldsFirstBy part_of parts_left };

    ghost remaining = { item_count parts_left };

    fn next(&mut self) -> Option<MappedPart<'a>> {
        let (path, rest) = split_path(self.paths)?;
        let entry = self.entries.get(0)?;
        self.entries = self.entries.after(1);
        self.paths = rest;
        Some(MappedPart {
            start: entry.start,
            end: entry.end,
            offset: entry.pages.wrapping_mul(self.page_size),
            path,
        })
    }
}

impl<'a> NoteEntry<'a> {
    /// Whether it tells which files were mapped.
    fn is_on_files(&self) -> bool
        ensures { result ≡ is_on_files (note_of self.now) }
    {
        self.kind == NT_FILE && self.name_text() == b"CORE".as_slice()
    }
}

/// What the first note on mapped files tells, where there is one.
fn description_in(notes: NoteEntries<'_>) -> Option<&[u8]>
    ensures { option_map (λ d. d.now) result ≡ description_in (notes_left notes.entry) }
{
    let mut notes = notes;
    while let Some(note) = notes.next() {
        if note.is_on_files() {
            return Some(note.description);
        }
    }
    None
}

/// What the first note on mapped files tells, of those of all segments of notes.
fn files_in<'a>(bytes: &'a [u8], headers: &Records<'_, ProgramHeader>) -> Option<&'a [u8]>
    ensures { option_map (λ d. d.now) result ≡ files_in bytes.now headers.now }
{
    for i in 0..headers.len() {
        let notes = NoteEntries::over(headers.at(i).note_bytes(bytes));
        if let Some(description) = description_in(notes) {
            return Some(description);
        }
    }
    None
}

/// The parts of which a note tells. `None` where they don't lie within it.
fn parts_in(description: &[u8]) -> Option<MappedParts<'_>>
    ensures { option_map parts_left result ≡ parts_in description.now }
{
    if description.len() < COUNTS_SIZE {
        return None;
    }
    let count = u64_at(description, 0) as usize;
    let entries = Records::over(description, COUNTS_SIZE as u64, count)?;
    Some(MappedParts {
        page_size: u64_at(description, 8),
        entries,
        paths: &description[COUNTS_SIZE + count * PART_SIZE..],
    })
}

/// The parts of files that were mapped, of which the notes of these segments tell.
pub(crate) fn parts_by_notes<'a>(
    bytes: &'a [u8],
    headers: &Records<'_, ProgramHeader>,
) -> Option<MappedParts<'a>>
    ensures { option_map parts_left result ≡ parts_by_notes bytes.now headers.now }
{
    let description = files_in(bytes, headers)?;
    parts_in(description)
}

/// The parts of files that were mapped where these bytes are the core file: those of the first note
/// `NT_FILE`. `None` where there is no such note, where its parts don't lie within it, or where the
/// bytes don't begin with the header of a core file, or its segments don't lie within them.
pub fn mapped_parts(bytes: &[u8]) -> Option<MappedParts<'_>>
    ensures { option_map parts_left result ≡ mapped_parts bytes.now }
{
    if !has_core_header(bytes) {
        return None;
    }
    let headers = headers_within(bytes)?;
    parts_by_notes(bytes, &headers)
}
