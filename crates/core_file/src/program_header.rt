// Program headers, which say what the segments of a file are. System V gABI, chapter "Program Loading and Dynamic
// Linking", part "Program Header".
ghost use Rattle.std.specs.Prelude.{◌≡◌, ◌↔◌, ◌<◌, ◌≤◌, length, IsTrue};
ghost use Rattle.std.specs.Option.{option_map};
ghost use Rattle.memory_image.specs.Regions.{span_of};
ghost use Rattle.core_file.specs.ProgramHeaders.{file_bytes, is_within, are_within, segment_in};
ghost use Rattle.core_file.specs.ProgramHeaders.{has_memory, program_headers};
ghost use Rattle.core_file.specs.CoreValue.{note_bytes};
ghost use Rattle.core_file.specs.Fronts.{place_in, end_of, last_end, fitting};

use crate::header::{header_count, headers_offset};
use crate::places::SegmentPlace;
use memory_image::{Record, Records, u32_at, u64_at};

// the type of a segment that is memory, and that of one that is notes
pub(crate) const PT_LOAD: u32 = 1;

pub(crate) const PT_NOTE: u32 = 4;

/// A program header: what a segment is, and where it lies in the file and in memory.
#[derive(Clone, Copy)]
pub(crate) struct ProgramHeader {
    p_type: u32,
    p_flags: u32,
    p_offset: u64,
    p_vaddr: u64,
    p_paddr: u64,
    p_filesz: u64,
    p_memsz: u64,
    p_align: u64,
}

impl Record for ProgramHeader {
    ghost use Rattle.core_file.specs.ProgramHeaders.{program_header_of};
    ghost use Rattle.core_file.specs.ProgramHeaderBytes.{program_header_keeps_all};
    ghost use Rattle.std.proofs.Common.{lit≤};

    const SIZE: usize = 56;

    ghost SIZE = { 56 };

    ghost value_of = { program_header_of };

    fn read(bytes: &[u8]) -> ProgramHeader {
        ProgramHeader {
            p_type: u32_at(bytes, 0),
            p_flags: u32_at(bytes, 4),
            p_offset: u64_at(bytes, 8),
            p_vaddr: u64_at(bytes, 16),
            p_paddr: u64_at(bytes, 24),
            p_filesz: u64_at(bytes, 32),
            p_memsz: u64_at(bytes, 40),
            p_align: u64_at(bytes, 48),
        }
    }

    ghost has_size = { lit≤ tt };

    ghost keeps_all = { program_header_keeps_all };
}

impl ProgramHeader {
    /// The part of the file that is the segment's, as far as the file goes.
    fn file_bytes<'a>(&self, bytes: &'a [u8]) -> &'a [u8]
        ensures { result.now ≡ file_bytes bytes.now self.now }
    {
        let start = self.p_offset.min(bytes.len() as u64) as usize;
        let rest = &bytes[start..];
        let size = self.p_filesz.min(rest.len() as u64) as usize;
        &rest[..size]
    }

    /// Whether the segment lies within the file, where it is one of memory or of notes.
    fn is_within(&self, bytes: &[u8]) -> bool
        ensures { result ≡ is_within (length bytes.now) self.now }
    {
        let size = bytes.len() as u64;
        match self.p_type {
            PT_LOAD | PT_NOTE => self.p_offset <= size && self.p_filesz <= size - self.p_offset,
            _ => true,
        }
    }

    /// Whether the segment is one of memory, and the file has bytes of it.
    fn has_memory(&self) -> bool
        ensures { result ≡ has_memory self.now }
    {
        self.p_type == PT_LOAD && self.p_filesz > 0
    }

    /// The address and the bytes of the segment, where it is one of memory and the file has bytes of it.
    pub(crate) fn segment<'a>(&self, bytes: &'a [u8]) -> Option<(u64, &'a [u8])>
        ensures { option_map span_of result ≡ segment_in bytes.now self.now }
    {
        if self.has_memory() {
            Some((self.p_vaddr, self.file_bytes(bytes)))
        } else {
            None
        }
    }

    /// Where the segment lies, where it is one of memory and the file has bytes of it.
    pub(crate) fn place(&self) -> Option<SegmentPlace>
        ensures { result ≡ place_in self.now }
    {
        if self.has_memory() {
            Some(SegmentPlace {
                address: self.p_vaddr,
                offset: self.p_offset,
                size: self.p_filesz,
            })
        } else {
            None
        }
    }

    /// Where the segment ends in the file, and 0 where it is of another type. `None` where the end
    /// passes 2^64.
    fn end_of(&self, kind: u32) -> Option<u64>
        ensures { result ≡ fitting (end_of kind self.now) }
    {
        if self.p_type == kind {
            self.p_offset.checked_add(self.p_filesz)
        } else {
            Some(0)
        }
    }

    /// The bytes of the segment, where it is one of notes, and none of another one.
    pub(crate) fn note_bytes<'a>(&self, bytes: &'a [u8]) -> &'a [u8]
        ensures { result.now ≡ note_bytes bytes.now self.now }
    {
        if self.p_type == PT_NOTE {
            self.file_bytes(bytes)
        } else {
            &[]
        }
    }
}

/// The program headers of a file, where they lie within these bytes of it.
pub(crate) fn program_headers(bytes: &[u8]) -> Option<Records<'_, ProgramHeader>>
    requires { 64 ≤ length bytes.now }
    ensures { result ≡ program_headers bytes.now }
{
    let count = usize::from(header_count(bytes));
    Records::over(bytes, headers_offset(bytes), count)
}

/// Where the segments of a type end in the file: the greatest end. `None` where an end passes 2^64.
pub(crate) fn last_end(headers: &Records<'_, ProgramHeader>, kind: u32) -> Option<u64>
    ensures { result ≡ fitting (last_end kind headers.now) }
{
    let mut end = 0;
    for i in 0..headers.len() {
        end = headers.at(i).end_of(kind)?.max(end);
    }
    Some(end)
}

/// Whether each segment of memory or of notes lies within the file.
pub(crate) fn are_within(bytes: &[u8], headers: &Records<'_, ProgramHeader>) -> bool
    ensures { result ≡ are_within bytes.now headers.now }
{
    for i in 0..headers.len() {
        if !headers.at(i).is_within(bytes) {
            return false;
        }
    }
    true
}
