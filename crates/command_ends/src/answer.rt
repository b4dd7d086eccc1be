// What a command answers: a status, and the text that is written for it.
ghost use Rattle.std.specs.Prelude.{◌≡◌, ◌≢◌, ◌⊎◌, ◌+◌, ◌≤◌, ◌^◌, [], IfOk, IfErr, IfSome, MatchResult};
ghost use Rattle.std.specs.Prelude.{vec_len};
ghost use Rattle.std.specs.Io.KnownBytes.{Consumes, IsAtEnd};
ghost use Rattle.memory_image.specs.Ends.{Rose};
ghost use Rattle.command_ends.specs.Ends.{ConsumesAtMost};
ghost use Rattle.command_ends.specs.Answers.{AnswersBytes, IsUnread, bad_line, fault_due};

use crate::status::Status;
use crate::streams::{ReadFailure, read_all};
use memory_image::Source;
use stack_report::{Report, labelled_line_of, line_of};
use stack_snapshot::{Field, SnapshotError};
use std::alloc::{AllocError, Global};

/// What is to be written, and the status once it is.
#[derive(Drop)]
pub struct Answer {
    /// The status of the run, where the text was written.
    pub status: Status,
    /// What is written.
    pub text: Report,
}

/// An answer without text.
pub fn silent_answer(alloc: Global, status: Status) -> Answer
    ensures { (result.status ≡ status) × (result.text ≡ []) }
{
    Answer {
        status,
        text: Report::new(alloc),
    }
}

/// The answer with the text, unless memory ran out: then it is `Memory`, and without text.
pub fn text_answer(alloc: Global, status: Status, text: Result<Report, AllocError>) -> Answer
    ensures { MatchResult text (λ report. (result.status ≡ status) × (result.text ≡ report))
        (λ _. (result.status ≡ Status.Memory) × (result.text ≡ [])) }
{
    match text {
        Ok(text) => Answer { status, text },
        Err(AllocError) => silent_answer(alloc, Status::Memory),
    }
}

/// Says which field of a snapshot is faulty.
///
/// # Errors
///
/// `AllocError` where memory ran out.
pub fn bad_line(alloc: Global, field: Field) -> Result<Report, AllocError>
    ensures { IfOk result (λ report. report ≡ bad_line field) }
{
    labelled_line_of(alloc, "bad snapshot: ", field.name())
}

/// The answer to bytes that are no snapshot.
pub fn fault_answer(alloc: Global, error: SnapshotError) -> Answer
    ensures { AnswersBytes (fault_due error) result.status result.text }
{
    match error {
        SnapshotError::NoMemory => silent_answer(alloc, Status::Memory),
        SnapshotError::NotJson => text_answer(alloc, Status::NotJson, line_of(alloc, "not json")),
        SnapshotError::Bad(field) => text_answer(
            alloc,
            Status::BadSnapshot,
            bad_line(alloc, field),
        ),
    }
}

/// All bytes of the input, at most 67,108,864 of them, or the answer where they can't be had.
///
/// # Errors
///
/// The answer is `ReadFault` where a read failed, `TooLong` where there are more bytes, and `Memory`
/// where memory ran out.
pub fn read_input<I: Source>(alloc: Global, input: &mut I) -> Result<Vec<u8>, Answer>
    ensures all { IfOk result
        (λ bytes. Consumes (I.left input.old) (I.left input.new) bytes.items) }
    ensures ended { IfOk result (λ bytes. IsAtEnd (I.left input.new)) }
    ensures short { IfOk result (λ bytes. vec_len bytes ≤ 2 ^ 26) }
    ensures unread { IfErr result (λ answer. IfSome (I.left input.old)
        (λ left. IsUnread left answer.status answer.text)) }
    ensures kind { IfErr result (λ answer. (answer.status ≡ Status.ReadFault) ⊎
        ((answer.status ≡ Status.Memory) ⊎ (answer.status ≡ Status.TooLong))) }
    ensures silent { IfErr result (λ answer. (answer.status ≡ Status.Memory) ⊎
        (answer.status ≡ Status.ReadFault) → answer.text ≡ []) }
    ensures fault { IfErr result (λ answer. answer.status ≡ Status.ReadFault →
        Rose (I.faults input.old) (I.faults input.new)) }
    ensures bound { ConsumesAtMost (I.left input.old) (I.left input.new) (2 ^ 26 + 1) }
{
    match read_all(alloc, input) {
        Ok(bytes) => Ok(bytes),
        Err(ReadFailure::Fault) => Err(silent_answer(alloc, Status::ReadFault)),
        Err(ReadFailure::Memory) => Err(silent_answer(alloc, Status::Memory)),
        Err(ReadFailure::TooLong) => Err(text_answer(
            alloc,
            Status::TooLong,
            line_of(alloc, "too long"),
        )),
    }
}
