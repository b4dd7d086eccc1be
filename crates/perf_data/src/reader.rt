// The records of a file one at a time, as its bytes are read from a source.
ghost use Rattle.std.specs.Prelude.{◌+◌, ◌<◌, ◌≤◌, ◌^◌, vec_len};

use crate::errors::PerfError;
use crate::layout::Layout;
use crate::record::{Record, first_record};
use crate::stream::{StreamError, pass_all, read_up_to};
use memory_image::Source;
use std::mem;

/// The most bytes of a record.
const RECORD_SIZE: u64 = 65_535;

/// The records of a perf.data file one at a time, as its bytes are read from a source. At most two
/// records and three pieces of 131,072 bytes are held, beside what stood before the records.
///
/// Each call is given the same source.
#[derive(Drop)]
pub struct RecordReader {
    layout: Layout,
    // where the next record stands in the file
    offset: u64,
    // how many bytes the section of the records has from there on
    size: u64,
    // where it stands in the buffer
    start: usize,
    buffer: Vec<u8>,
    spare: Vec<u8>,
    piece: Vec<u8>,
    ghost in_range: { offset + size < 2 ^ 64 },
    ghost within: { start ≤ vec_len buffer },
    ghost some: { 0 < vec_len piece },
}

impl RecordReader {
    ghost use Rattle.std.specs.Prelude.{◌≡◌, ◌≢◌, ◌⊎◌, ◌++◌, ℕ, List, Err, IfErr, IfOk, IfSome};
    ghost use Rattle.std.specs.Prelude.{IsErrOf, IsFalse, IsOk, IsTrue, drop, length, take};
    ghost use Rattle.std.specs.Io.KnownBytes.{IsAtEnd, Keeps};
    ghost use Rattle.memory_image.specs.Ends.{Rose};
    ghost use Rattle.memory_image.specs.Results.{result_map};
    ghost use Rattle.perf_data.specs.Records.{first_record};
    ghost use Rattle.perf_data.specs.Streams.{GoesOn, HasPlace, IsFilled, bytes_left, due_left};
    ghost use Rattle.perf_data.specs.Streams.{held};
    ghost use Rattle.perf_data.specs.Views.{record_pair};

    /// The records after the start of a file, which is held with some of what follows.
    pub(crate) fn after(
        layout: Layout,
        offset: u64,
        size: u64,
        front: Vec<u8>,
        spare: Vec<u8>,
        piece: Vec<u8>,
    ) -> RecordReader
        requires in_range { offset + size < 2 ^ 64 }
        requires within { offset ≤ vec_len front }
        requires some { 0 < vec_len piece }
        ensures place { HasPlace result layout offset size }
        ensures held { held result ≡ drop offset front.items }
    {
        RecordReader {
            layout,
            offset,
            size,
            start: offset as usize,
            buffer: front,
            spare,
            piece,
        }
    }

    /// Lets go of the bytes before the next record, and reads on until there are so many.
    fn fill<I: Source>(&mut self, input: &mut I, wanted: u64) -> Result<bool, StreamError>
        ensures place { HasPlace self.new self.old.layout self.old.offset self.old.size }
        ensures kept { IfOk result (λ _. Keeps (bytes_left self.old (I.left input.old))
            (bytes_left self.new (I.left input.new))) }
        ensures enough { IfOk result (λ is. IsTrue is → wanted ≤ length (held self.new)) }
        ensures ends { IfOk result (λ is. IsFalse is →
            IsAtEnd (I.left input.new) × (length (held self.new) < wanted)) }
        ensures kind { IfErr result (λ e. (cause : PerfError) → e ≢ StreamError.Unread cause) }
        ensures on { GoesOn (I.left input.old) (I.left input.new) (I.faults input.old)
            (I.faults input.new) }
        ensures fault { IsErrOf result StreamError.Fault →
            Rose (I.faults input.old) (I.faults input.new) }
    {
        self.spare.clear();
        self.spare.extend_from_slice(&self.buffer[self.start..])?;
        mem::swap(&mut self.buffer, &mut self.spare);
        self.start = 0;
        read_up_to(input, &mut self.piece, wanted, &mut self.buffer)
    }

    /// Reads on until the next record is held: whether there is one more. There is none at the end of
    /// the section, and none where the section passes the source's end, as
    /// [`finish`](RecordReader::finish) then says.
    ///
    /// # Errors
    ///
    /// `Fault` where a read failed; `NoMemory` where memory ran out.
    pub fn advance<I: Source>(&mut self, input: &mut I) -> Result<bool, StreamError>
        ensures place { HasPlace self.new self.old.layout self.old.offset self.old.size }
        ensures kept { IfOk result (λ _. Keeps (bytes_left self.old (I.left input.old))
            (bytes_left self.new (I.left input.new))) }
        ensures more { IfOk result (λ more. IsTrue more → IsFilled self.new) }
        ensures none { IfOk result (λ more. IsFalse more → (self.old.size ≡ 0) ⊎
            (IsAtEnd (I.left input.new) × (length (held self.new) < self.old.size))) }
        ensures on { GoesOn (I.left input.old) (I.left input.new) (I.faults input.old)
            (I.faults input.new) }
        ensures fault { IsErrOf result StreamError.Fault →
            Rose (I.faults input.old) (I.faults input.new) }
        ensures kind { IfErr result (λ e. (cause : PerfError) → e ≢ StreamError.Unread cause) }
    {
        if self.size == 0 {
            return Ok(false);
        }
        let wanted = self.size.min(RECORD_SIZE);
        if wanted <= (self.buffer.len() - self.start) as u64 {
            return Ok(true);
        }
        self.fill(input, wanted)
    }

    /// The next record and its size, after [`advance`](RecordReader::advance) said that there is one.
    ///
    /// # Errors
    ///
    /// Why the record isn't read, if the section of the records is whole.
    pub fn record(&self) -> Result<(Record<'_>, usize), PerfError>
        requires { IsFilled self.now }
        ensures value { (more : List ℕ) → result_map record_pair result ≡
            first_record self.now.layout self.now.offset (take self.now.size (held self.now ++ more)) }
        ensures within { IfOk result (λ p. (8 ≤ p.1) × (p.1 ≤ self.now.size) ×
            (p.1 ≤ length (held self.now))) }
    {
        let wanted = self.size.min(RECORD_SIZE) as usize;
        first_record(
            &self.layout,
            self.offset,
            &self.buffer[self.start..][..wanted],
        )
    }

    /// Passes the next record, which has this size.
    pub fn pass(&mut self, size: usize)
        requires section { size ≤ self.old.size }
        requires held { size ≤ length (held self.old) }
        ensures layout { self.new.layout ≡ self.old.layout }
        ensures offset { self.new.offset ≡ self.old.offset + size }
        ensures size { self.new.size + size ≡ self.old.size }
        ensures held { held self.new ≡ drop size (held self.old) }
    {
        self.start += size;
        self.offset += size as u64;
        self.size -= size as u64;
    }

    /// Reads the source to its end: whether the section of the records is whole.
    ///
    /// # Errors
    ///
    /// `Fault` where a read failed; `NoMemory` where there are 2^64 - 1 bytes or more.
    pub fn finish<I: Source>(&mut self, input: &mut I) -> Result<bool, StreamError>
        ensures whole { IfOk result (λ whole. IsTrue whole →
            IfSome (due_left self.old (I.left input.old)) (λ due. IsOk due)) }
        ensures cut { IfOk result (λ whole. IsFalse whole →
            IfSome (due_left self.old (I.left input.old)) (λ due. due ≡ Err PerfError.Records)) }
        ensures ends { IfOk result (λ _. IsAtEnd (I.left input.new)) }
        ensures place { HasPlace self.new self.old.layout self.old.offset self.old.size }
        ensures held { held self.new ≡ held self.old }
        ensures on { GoesOn (I.left input.old) (I.left input.new) (I.faults input.old)
            (I.faults input.new) }
        ensures fault { IsErrOf result StreamError.Fault →
            Rose (I.faults input.old) (I.faults input.new) }
        ensures kind { IfErr result (λ e. (cause : PerfError) → e ≢ StreamError.Unread cause) }
    {
        let held = (self.buffer.len() - self.start) as u64;
        let passed = pass_all(input, &mut self.piece)?;
        Ok(self.size.saturating_sub(held) <= passed)
    }
}
