// A core file.
ghost use Rattle.std.specs.Prelude.{◌≡◌, ◌↔◌, ◌⊎◌, ◌≢◌, ◌<◌, ◌≤◌, ◌^◌, ℕ, List, length, take, slice_get, Ok, Err};
ghost use Rattle.std.specs.Prelude.{IfOk, OnOk, IfSome, MatchOption, IsOkUnless, IsTrue, IsFalse, IsSome, Some};
ghost use Rattle.std.specs.Option.{option_map};
ghost use Rattle.memory_image.specs.Regions.{span_of};
ghost use Rattle.core_file.specs.ElfHeader.{has_core_header, header_count, PN_XNUM};
ghost use Rattle.core_file.specs.ProgramHeaders.{headers_of};
ghost use Rattle.core_file.specs.Notes.{Note};
ghost use Rattle.core_file.specs.CoreValue.{CoreValue, core_of, segments_fit, headers_within};
ghost use Rattle.core_file.specs.CoreGrammar.{IsCore, SpellNotes};
ghost use Rattle.core_file.specs.Adding.{with_spans, first_refused, error_at, HoldsAlso};
ghost use Rattle.core_file.specs.Left.{segments_left, threads_left};

use crate::errors::{AddError, CoreError};
use crate::header::{PN_XNUM, has_core_header, header_count};
use crate::program_header::{ProgramHeader, are_within, program_headers};
use crate::segments::Segments;
use crate::threads::{Threads, notes_are_whole};
use memory_image::{ImageError, MemoryImage, Records};
use std::marker::Model;

/// A core file of x86-64, whose bytes are borrowed.
///
/// Proofs see the memory that the file has, and the registers of its threads.
#[derive(Drop)]
pub struct CoreFile<'a> {
    bytes: &'a [u8],
    headers: Records<'a, ProgramHeader>,
}

impl<'a> Model for CoreFile<'a> {
    ghost use Rattle.core_file.specs.CoreValue.{CoreValue, core_with};

    ghost Value = { CoreValue };

    ghost view = { λ c. core_with c.bytes.now c.headers };
}

/// The program headers of a file, where they and the segments of memory and of notes lie within it.
pub(crate) fn headers_within(bytes: &[u8]) -> Option<Records<'_, ProgramHeader>>
    requires { 64 ≤ length bytes.now }
    ensures { result ≡ headers_within bytes.now }
{
    let headers = program_headers(bytes)?;
    if are_within(bytes, &headers) {
        Some(headers)
    } else {
        None
    }
}

/// The core file that these bytes are, or the first cause why they are none.
#[tactic(auto, unfolding(crate::specs::CoreValue::core_of))]
fn core_in(bytes: &[u8]) -> Result<CoreFile<'_>, CoreError>
    ensures { result ≡ core_of bytes.now }
{
    if !has_core_header(bytes) {
        return Err(CoreError::Header);
    }
    if header_count(bytes) == PN_XNUM {
        return Err(CoreError::ManySegments);
    }
    let Some(headers) = headers_within(bytes) else {
        return Err(CoreError::Segments);
    };
    if notes_are_whole(bytes, &headers) {
        Ok(CoreFile { bytes, headers })
    } else {
        Err(CoreError::Notes)
    }
}

impl<'a> CoreFile<'a> {
    /// The core file that these bytes are.
    ///
    /// # Errors
    ///
    /// The first that holds, in this order: [`CoreError::Header`] where the bytes don't begin with the header of a core
    /// file of x86-64; [`CoreError::ManySegments`] where the number of program headers stands elsewhere;
    /// [`CoreError::Segments`] where they, or the bytes of a segment of memory or of notes, don't lie within the file;
    /// and [`CoreError::Notes`] where a segment of notes isn't whole notes.
    pub fn parse(bytes: &'a [u8]) -> Result<CoreFile<'a>, CoreError>
        // What is read is what the format says that the bytes hold, and each core file is read.
        ensures grammar { IfOk result (λ core. IsCore bytes.now core) }
        ensures whole { (core : CoreValue) → IsCore bytes.now core → result ≡ Ok core }
        // Which error it is.
        ensures header { (result ≡ Err CoreError.Header) ↔ IsFalse (has_core_header bytes.now) }
        ensures many_segments { (result ≡ Err CoreError.ManySegments) ↔
            (IsTrue (has_core_header bytes.now) × (header_count bytes.now ≡ PN_XNUM)) }
        ensures segments { (result ≡ Err CoreError.Segments) ↔
            (IsTrue (has_core_header bytes.now) × (header_count bytes.now ≢ PN_XNUM) ×
            IsFalse (segments_fit bytes.now)) }
        ensures notes { (result ≡ Err CoreError.Notes) ↔
            (IsTrue (has_core_header bytes.now) × (header_count bytes.now ≢ PN_XNUM) ×
            IsTrue (segments_fit bytes.now) ×
            ((notes : List Note) → SpellNotes bytes.now (headers_of bytes.now) notes → ⊥)) }
        ensures exact { result ≡ core_of bytes.now }
        // There are fewer than 2^64 threads, where the file has at most 2^48 bytes, so that they can be counted. Segments
        // of notes may share their bytes, and each of them counts.
        ensures few { length bytes.now ≤ 2 ^ 48 → IfOk result (λ core. length core.threads < 2 ^ 64) }
    {
        core_in(bytes)
    }

    /// The segments of memory that have bytes in the file.
    pub fn segments(&self) -> Segments<'a>
        ensures left { segments_left result ≡ self.now.segments }
        ensures few { length self.now.segments < 2 ^ 64 }
    {
        Segments::over(self.bytes, self.headers.after(0))
    }

    /// How many segments of memory have bytes in the file. They are counted anew by each call.
    pub fn segments_len(&self) -> usize
        ensures { result ≡ length self.now.segments }
    {
        self.segments().count()
    }

    /// The address and the bytes of the segment of this index. `None` where the index is at or past their number. The
    /// program headers are read from the first one on: [`segments`](CoreFile::segments) gives all segments by one run.
    pub fn segment(&self, i: usize) -> Option<(u64, &'a [u8])>
        ensures { option_map span_of result ≡ slice_get self.now.segments i }
    {
        self.segments().nth(i)
    }

    /// The registers of the threads, in the order of the notes. Those of a file of up to 2^48 bytes can be counted, as
    /// [`parse`](CoreFile::parse) says.
    pub fn threads(&self) -> Threads<'a>
        ensures { threads_left result ≡ self.now.threads }
    {
        Threads::over(self.bytes, self.headers.after(0))
    }

    /// Adds the segments to an image, in order. The segments before a refused one stay.
    ///
    /// # Errors
    ///
    /// [`AddError::Region`] where the image refuses a segment for another cause than that there is no memory, with the
    /// index of the first such segment; [`AddError::NoMemory`] where there is no memory to note a region.
    pub fn add_to(&self, image: &mut MemoryImage<'a>) -> Result<(), AddError>
        ensures added { OnOk result (HoldsAlso image.old self.now.segments image.new) }
        ensures spans { OnOk result (image.new ≡ with_spans image.old self.now.segments) }
        ensures refused { MatchOption (first_refused image.old self.now.segments)
            (IsOkUnless result AddError.NoMemory)
            (λ i. (result ≡ Err (AddError.Region i)) ⊎ (result ≡ Err AddError.NoMemory)) }
        // The segments before the one at which it stops stay.
        ensures region { (i : ℕ) → result ≡ Err (AddError.Region i) →
            (first_refused image.old self.now.segments ≡ Some i) ×
            (image.new ≡ with_spans image.old (take i self.now.segments)) }
        ensures memory { result ≡ Err AddError.NoMemory → (i : ℕ) ×
            (i < length self.now.segments) ×
            (image.new ≡ with_spans image.old (take i self.now.segments)) }
    {
        for (i, (address, bytes)) in self.segments().enumerate() {
            if let Err(error) = image.add(address, bytes) {
                return Err(error_at(i, error));
            }
        }
        Ok(())
    }
}

/// Why an image doesn't take the segments, where it refuses the one of this index.
fn error_at(i: usize, error: ImageError) -> AddError
    ensures { result ≡ error_at i error }
{
    match error {
        ImageError::NoMemory => AddError::NoMemory,
        ImageError::Empty | ImageError::Wraps | ImageError::Overlap(_) => AddError::Region(i),
    }
}
