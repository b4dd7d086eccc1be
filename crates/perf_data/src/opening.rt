// A file that is read from a source, as far as its records.
ghost use Rattle.std.specs.Prelude.{◌≡◌, ◌≢◌, ◌+◌, ◌<◌, ◌≤◌, ◌^◌, ◌++◌, ℕ, List, IfErr, IfOk, IfSome};
ghost use Rattle.std.specs.Prelude.{IsErrOf, IsFalse, IsTrue, Some, length, vec_len};
ghost use Rattle.std.specs.Io.KnownBytes.{IsAtEnd, Keeps, prepend_known};
ghost use Rattle.memory_image.specs.Ends.{Rose};
ghost use Rattle.perf_data.specs.FileHeader.{section_offset, section_size};
ghost use Rattle.perf_data.specs.Streams.{GoesOn, HasStart, due_of, layout_before, records_in};

use crate::errors::PerfError;
use crate::file::shared_layout;
use crate::header::{
    ATTRIBUTES_OFFSET, HEADER_SIZE, RECORDS_OFFSET, has_file_header, is_foreign, is_pipe,
};
use crate::layout::Layout;
use crate::reader::RecordReader;
use crate::stream::{PIECE_SIZE, StreamError, read_rest, read_up_to};
use memory_image::{Source, u64_at};
use std::alloc::Global;

/// A perf.data file that is read from a source.
#[derive(Drop)]
pub enum OpenFile {
    /// All bytes of the file, where it is short or its attributes don't stand before its records.
    Whole(Vec<u8>),
    /// Its records, after what stands before them was read.
    Streamed(RecordReader),
    /// Why its bytes aren't read as a file.
    Refused(PerfError),
}

/// The layout of a file's samples, or the first cause before the records why it isn't read.
#[tactic(auto, unfolding(crate::specs::Streams::layout_before))]
fn layout_before(bytes: &[u8]) -> Result<Layout, PerfError>
    ensures { result ≡ layout_before bytes.now }
{
    if is_foreign(bytes) {
        return Err(PerfError::ByteOrder);
    }
    if is_pipe(bytes) {
        return Err(PerfError::Pipe);
    }
    if !has_file_header(bytes) {
        return Err(PerfError::Header);
    }
    shared_layout(bytes)
}

/// Where a section ends of which the header tells at a place. `None` past 2^64 - 1.
fn section_end(bytes: &[u8], place: usize) -> Option<u64>
    requires { place + 16 ≤ length bytes.now }
    ensures value { IfSome result
        (λ end. end ≡ section_offset bytes.now place + section_size bytes.now place) }
    ensures in_range { IfSome result
        (λ _. section_offset bytes.now place + section_size bytes.now place < 2 ^ 64) }
{
    u64_at(bytes, place).checked_add(u64_at(bytes, place + 8))
}

/// How many bytes of a file tell its layout and stand before its records. `None` where its
/// attributes don't stand before these.
fn size_before(bytes: &[u8]) -> Option<u64>
    requires { 104 ≤ length bytes.now }
    ensures { IfSome result (λ size. (more : List ℕ) → size ≤ length (bytes.now ++ more) →
        HasStart (bytes.now ++ more)) }
{
    if !has_file_header(bytes) {
        return Some(0);
    }
    let offset = u64_at(bytes, RECORDS_OFFSET);
    let _ = section_end(bytes, RECORDS_OFFSET)?;
    let end = section_end(bytes, ATTRIBUTES_OFFSET)?;
    if end <= offset { Some(offset) } else { None }
}

/// Reads the start of a file, or all of it: whether there may be more.
fn read_front<I: Source>(
    input: &mut I,
    piece: &mut [u8],
    front: &mut Vec<u8>,
) -> Result<bool, StreamError>
    requires some { 0 < length piece.old }
    ensures kept { IfOk result (λ _. Keeps (prepend_known front.old.items (I.left input.old))
        (prepend_known front.new.items (I.left input.new))) }
    ensures start { IfOk result (λ is. IsTrue is → HasStart front.new.items) }
    ensures ends { IfOk result (λ is. IsFalse is → IsAtEnd (I.left input.new)) }
    ensures on { GoesOn (I.left input.old) (I.left input.new) (I.faults input.old)
        (I.faults input.new) }
    ensures fault { IsErrOf result StreamError.Fault →
        Rose (I.faults input.old) (I.faults input.new) }
    ensures piece { length piece.new ≡ length piece.old }
    ensures kind { IfErr result (λ e. (cause : PerfError) → e ≢ StreamError.Unread cause) }
{
    if !read_up_to(input, piece, HEADER_SIZE as u64, front)? {
        return Ok(false);
    }
    match size_before(front) {
        Some(size) => read_up_to(input, piece, size, front),
        None => read_rest(input, piece, front),
    }
}

/// The file that these bytes are the start of.
fn opened(alloc: Global, front: Vec<u8>, piece: Vec<u8>) -> OpenFile
    requires start { HasStart front.items }
    requires some { 0 < vec_len piece }
    ensures { (more : List ℕ) → due_of result (Some more) ≡ Some (records_in (front.items ++ more)) }
{
    match layout_before(&front) {
        Ok(layout) => {
            let offset = u64_at(&front, RECORDS_OFFSET);
            let size = u64_at(&front, RECORDS_OFFSET + 8);
            let spare = Vec::new(alloc);
            OpenFile::Streamed(RecordReader::after(layout, offset, size, front, spare, piece))
        }
        Err(error) => OpenFile::Refused(error),
    }
}

/// Opens the perf.data file that the bytes of a source are.
///
/// What stands before the records is read and held; where the attributes don't stand there, or the
/// file is short, it is held whole.
///
/// # Errors
///
/// `Fault` where a read failed; `NoMemory` where memory ran out.
pub fn open_file<I: Source>(alloc: Global, input: &mut I) -> Result<OpenFile, StreamError>
    ensures due { IfOk result (λ file. IfSome (I.left input.old)
        (λ bytes. due_of file (I.left input.new) ≡ Some (records_in bytes))) }
    ensures on { GoesOn (I.left input.old) (I.left input.new) (I.faults input.old)
        (I.faults input.new) }
    ensures fault { IsErrOf result StreamError.Fault →
        Rose (I.faults input.old) (I.faults input.new) }
    ensures kind { IfErr result (λ e. (cause : PerfError) → e ≢ StreamError.Unread cause) }
{
    let mut piece = Vec::new(alloc);
    piece.resize(PIECE_SIZE, 0)?;
    let mut front = Vec::new(alloc);
    if read_front(input, &mut piece, &mut front)? {
        Ok(opened(alloc, front, piece))
    } else {
        Ok(OpenFile::Whole(front))
    }
}
