// The bytes of a source, as far as they are needed.
ghost use Rattle.std.specs.Prelude.{◌≡◌, ◌≢◌, ◌++◌, ◌<◌, ◌≤◌, ℕ, List, IfErr, IfOk, IfSome, IsErrOf};
ghost use Rattle.std.specs.Prelude.{IsFalse, IsTrue, OnOk, length};
ghost use Rattle.std.specs.Io.KnownBytes.{IsAtEnd, Keeps, prepend_known};
ghost use Rattle.memory_image.specs.Ends.{Rose};
ghost use Rattle.perf_data.specs.Streams.{GoesOn};

use crate::errors::PerfError;
use memory_image::{Failed, Source};
use std::alloc::{AllocError, Global};

/// How many bytes are read at once.
pub(crate) const PIECE_SIZE: usize = 131_072;

/// Why a perf.data file isn't read from a source.
#[derive(Clone, Copy, Debug, PartialEq, Eq, thiserror::Error)]
pub enum StreamError {
    /// Memory ran out.
    #[error("out of memory")]
    NoMemory,
    /// A read failed.
    #[error("a read failed")]
    Fault,
    /// The bytes aren't read as a perf.data file, or a record can't be read.
    #[error("{0}")]
    Unread(PerfError),
}

impl From<AllocError> for StreamError {
    ghost use Rattle.std.specs.Prelude.{◌≡◌};
    ghost use Rattle.perf_data.specs.declared.stream.StreamError.TheVariants.{NoMemory};

    ghost from_gives = { λ _ e. e ≡ NoMemory };

    fn from(_e: AllocError) -> StreamError {
        StreamError::NoMemory
    }
}

impl From<Failed> for StreamError {
    ghost use Rattle.std.specs.Prelude.{◌≡◌};
    ghost use Rattle.perf_data.specs.declared.stream.StreamError.TheVariants.{Fault};

    ghost from_gives = { λ _ e. e ≡ Fault };

    fn from(_e: Failed) -> StreamError {
        StreamError::Fault
    }
}

impl From<PerfError> for StreamError {
    ghost use Rattle.std.specs.Prelude.{◌≡◌};
    ghost use Rattle.perf_data.specs.declared.stream.StreamError.TheVariants.{Unread};

    ghost from_gives = { λ cause e. e ≡ Unread cause };

    fn from(cause: PerfError) -> StreamError {
        StreamError::Unread(cause)
    }
}

/// Puts the next bytes of a source last, as many as a read gives: whether there are any.
fn read_piece<I: Source>(
    input: &mut I,
    piece: &mut [u8],
    bytes: &mut Vec<u8>,
) -> Result<bool, StreamError>
    requires { 0 < length piece.old }
    ensures kept { IfOk result (λ _. Keeps (prepend_known bytes.old.items (I.left input.old))
        (prepend_known bytes.new.items (I.left input.new))) }
    ensures front { (more : List ℕ) × (bytes.new.items ≡ bytes.old.items ++ more) }
    ensures grows { IfOk result (λ some. IsTrue some →
        length bytes.old.items < length bytes.new.items) }
    ensures ends { IfOk result (λ some. IsFalse some →
        IsAtEnd (I.left input.new) × (bytes.new.items ≡ bytes.old.items)) }
    ensures on { GoesOn (I.left input.old) (I.left input.new) (I.faults input.old)
        (I.faults input.new) }
    ensures fault { IsErrOf result StreamError.Fault →
        Rose (I.faults input.old) (I.faults input.new) }
    ensures piece { length piece.new ≡ length piece.old }
    ensures kind { IfErr result (λ e. (cause : PerfError) → e ≢ StreamError.Unread cause) }
{
    let count = input.read(piece)?;
    bytes.extend_from_slice(&piece[..count])?;
    Ok(count > 0)
}

/// Puts the next bytes of a source last until there are so many: whether there are. Otherwise the
/// source is at its end.
///
/// # Errors
///
/// `Fault` where a read failed; `NoMemory` where memory ran out.
pub(crate) fn read_up_to<I: Source>(
    input: &mut I,
    piece: &mut [u8],
    wanted: u64,
    bytes: &mut Vec<u8>,
) -> Result<bool, StreamError>
    requires { 0 < length piece.old }
    ensures kept { IfOk result (λ _. Keeps (prepend_known bytes.old.items (I.left input.old))
        (prepend_known bytes.new.items (I.left input.new))) }
    ensures front { (more : List ℕ) × (bytes.new.items ≡ bytes.old.items ++ more) }
    ensures enough { IfOk result (λ is. IsTrue is → wanted ≤ length bytes.new.items) }
    ensures ends { IfOk result (λ is. IsFalse is →
        IsAtEnd (I.left input.new) × (length bytes.new.items < wanted)) }
    ensures on { GoesOn (I.left input.old) (I.left input.new) (I.faults input.old)
        (I.faults input.new) }
    ensures fault { IsErrOf result StreamError.Fault →
        Rose (I.faults input.old) (I.faults input.new) }
    ensures piece { length piece.new ≡ length piece.old }
    ensures kind { IfErr result (λ e. (cause : PerfError) → e ≢ StreamError.Unread cause) }
{
    while (bytes.len() as u64) < wanted {
        if !read_piece(input, piece, bytes)? {
            return Ok(false);
        }
    }
    Ok(true)
}

/// Puts all bytes of a source last, and answers `false`.
///
/// # Errors
///
/// `Fault` where a read failed; `NoMemory` where memory ran out.
pub(crate) fn read_rest<I: Source>(
    input: &mut I,
    piece: &mut [u8],
    bytes: &mut Vec<u8>,
) -> Result<bool, StreamError>
    requires { 0 < length piece.old }
    ensures kept { IfOk result (λ _. Keeps (prepend_known bytes.old.items (I.left input.old))
        (prepend_known bytes.new.items (I.left input.new))) }
    ensures ends { IfOk result (λ is. IsFalse is × IsAtEnd (I.left input.new)) }
    ensures on { GoesOn (I.left input.old) (I.left input.new) (I.faults input.old)
        (I.faults input.new) }
    ensures fault { IsErrOf result StreamError.Fault →
        Rose (I.faults input.old) (I.faults input.new) }
    ensures piece { length piece.new ≡ length piece.old }
    ensures kind { IfErr result (λ e. (cause : PerfError) → e ≢ StreamError.Unread cause) }
{
    while read_piece(input, piece, bytes)? {}
    Ok(false)
}

/// Reads a source to its end and lets the bytes go: how many there were.
///
/// # Errors
///
/// `Fault` where a read failed; `NoMemory` where there are 2^64 - 1 bytes or more.
pub(crate) fn pass_all<I: Source>(input: &mut I, piece: &mut [u8]) -> Result<u64, StreamError>
    requires { 0 < length piece.old }
    ensures count { IfOk result (λ count.
        IfSome (I.left input.old) (λ left. length left ≡ count)) }
    ensures ends { IfOk result (λ _. IsAtEnd (I.left input.new)) }
    ensures on { GoesOn (I.left input.old) (I.left input.new) (I.faults input.old)
        (I.faults input.new) }
    ensures fault { IsErrOf result StreamError.Fault →
        Rose (I.faults input.old) (I.faults input.new) }
    ensures piece { length piece.new ≡ length piece.old }
    ensures kind { IfErr result (λ e. (cause : PerfError) → e ≢ StreamError.Unread cause) }
{
    let mut passed = 0u64;
    while passed < u64::MAX {
        let count = input.read(piece)?;
        if count == 0 {
            return Ok(passed);
        }
        passed = passed.saturating_add(count as u64);
    }
    Err(StreamError::NoMemory)
}

/// Reads a source to its end and lets the bytes go.
///
/// # Errors
///
/// `Fault` where a read failed; `NoMemory` where memory ran out, or where there are 2^64 - 1 bytes or
/// more.
pub fn pass_source<I: Source>(alloc: Global, input: &mut I) -> Result<(), StreamError>
    ensures ends { OnOk result (IsAtEnd (I.left input.new)) }
    ensures on { GoesOn (I.left input.old) (I.left input.new) (I.faults input.old)
        (I.faults input.new) }
    ensures fault { IsErrOf result StreamError.Fault →
        Rose (I.faults input.old) (I.faults input.new) }
    ensures kind { IfErr result (λ e. (cause : PerfError) → e ≢ StreamError.Unread cause) }
{
    let mut piece = Vec::new(alloc);
    piece.resize(PIECE_SIZE, 0)?;
    let _ = pass_all(input, &mut piece)?;
    Ok(())
}
