// One run of the program, from its words, its tables and its input to its output.
ghost use Rattle.std.specs.Prelude.{◌≡◌, ◌≢◌, ◌⊎◌, ◌++◌, [], ℕ, List, Result, IfOk, IfSome, IsErrOf};
ghost use Rattle.std.specs.Prelude.{IsSome, None, ⊤};
ghost use Rattle.std.specs.Io.KnownBytes.{Keeps};
ghost use Rattle.memory_image.specs.Ends.{Rose};
ghost use Rattle.command_ends.specs.Verdicts.{ComesExactly, IsReady, IsReadyOrFailed, Tells};
ghost use Rattle.command_ends.specs.Verdicts.{verdict};
ghost use Rattle.perf_data.specs.declared.errors.PerfError.{PerfError};
ghost use Rattle.perf_data.specs.Records.{RecordValue};
ghost use Rattle.perf_data.specs.Samples.{SampleValue};
ghost use Rattle.perf_data.specs.Streams.{GoesOn};
ghost use Rattle.perf_data.specs.Streams as streams;
ghost use Rattle.unwind_definitions.specs.State.{State};
ghost use Rattle.folded_stacks.specs.Counts.{StackCount, HasStack, IsFolded};
ghost use Rattle.stack_snapshot.specs.Answers.{content_of, value_of};
ghost use Rattle.stack_snapshot.specs.Content.{space_of};
ghost use Rattle.stack_snapshot.specs.Origins.{OriginValue, origins_by};
ghost use Rattle.sampled_profile.specs.declared.stack_end.StackEnd.{StackEnd};
ghost use Rattle.sampled_profile.specs.KnownSamples.{BeginsKnownFront, BeginsKnownStack};
ghost use Rattle.sampled_profile.specs.KnownSamples.{BeginsPoppedStack, HasSample};
ghost use Rattle.sampled_profile.specs.KnownSamples.{front_lines, front_text};
ghost use Rattle.sampled_profile.specs.KnownSamples.{known_lines, known_text};
ghost use Rattle.sampled_profile.specs.KnownSamples.{popped_lines, popped_text};
ghost use Rattle.sampled_profile.specs.Profiles.{Tables, profile_text, stacks_of, tables};
ghost use Rattle.sampled_profile.specs.Scripts.{script_text};
ghost use Rattle.sampled_profile.specs.Streamed.{GivesStreamed};
ghost use Rattle.profile.specs.Due.{Asks, bytes_due, due_of, lines_due, read_due};
ghost use Rattle.profile.specs.Due.{request_in, tables_of, told_by, told_due};
ghost use Rattle.profile.specs.Lines.{usage_line};
ghost use Rattle.profile.specs.Reading.{IsFailure, IsOfSource, KeepsToEnds, LeavesSource};

use crate::lines::{refused_line, usage_line};
use crate::request::{Form, request_of};
use command_ends::{Answer, Status, Words, fault_answer, silent_answer, text_answer, write_answer};
use memory_image::{Sink, Source};
use perf_data::{OpenFile, StreamError, open_file, pass_source};
use sampled_profile::{profile_of_source, script_of_source};
use stack_deliver::Space;
use stack_report::Report;
use stack_snapshot::{Origins, Snapshot, read_named_snapshot};
use std::alloc::{AllocError, Global};

/// The space of a snapshot, in which its modules are prepared where they can be. The answer to samples
/// over it is the same.
fn prepared_space(alloc: Global, snapshot: &Snapshot) -> Result<Space<'_>, AllocError>
    ensures { IfOk result (λ space. (origins : List OriginValue) (limit : ℕ) (form : Form)
        (records : List (Result RecordValue PerfError)) →
        told_by (tables space origins limit) form records ≡
        told_by (tables (space_of snapshot.now) origins limit) form records) }
{
    let mut space = snapshot.space(alloc)?;
    space.prepare()?;
    Ok(space)
}

/// The lines of the distinct stacks of a perf.data file.
fn folded_lines<I: Source>(
    alloc: Global,
    space: &Space<'_>,
    origins: &Origins,
    limit: u32,
    file: OpenFile,
    input: &mut I,
) -> Result<Report, StreamError>
    ensures due { IfSome (streams.due_of file (I.left input.old)) (λ due.
        GivesStreamed result (told_due (tables space.now origins.now limit) Form.Folded due)) }
    ensures on { GoesOn (I.left input.old) (I.left input.new) (I.faults input.old)
        (I.faults input.new) }
    ensures fault { IsErrOf result StreamError.Fault →
        Rose (I.faults input.old) (I.faults input.new) }
{
    let profile = profile_of_source(alloc, space, origins, limit, file, input)?;
    let mut report = Report::new(alloc);
    profile.put_lines(&mut report)?;
    Ok(report)
}

/// The lines of a perf.data file over the modules of a space.
fn lines_over<I: Source>(
    alloc: Global,
    form: Form,
    space: &Space<'_>,
    origins: &Origins,
    limit: u32,
    file: OpenFile,
    input: &mut I,
) -> Result<Report, StreamError>
    ensures due { IfSome (streams.due_of file (I.left input.old)) (λ due.
        GivesStreamed result (told_due (tables space.now origins.now limit) form due)) }
    ensures on { GoesOn (I.left input.old) (I.left input.new) (I.faults input.old)
        (I.faults input.new) }
    ensures fault { IsErrOf result StreamError.Fault →
        Rose (I.faults input.old) (I.faults input.new) }
{
    match form {
        Form::Folded => folded_lines(alloc, space, origins, limit, file, input),
        Form::Script => script_of_source(alloc, space, origins, limit, file, input),
    }
}

/// The lines of a perf.data file over the modules of a snapshot.
fn lines_of<I: Source>(
    alloc: Global,
    form: Form,
    snapshot: &Snapshot,
    origins: &Origins,
    file: OpenFile,
    input: &mut I,
) -> Result<Report, StreamError>
    ensures due { IfSome (streams.due_of file (I.left input.old)) (λ due.
        GivesStreamed result (told_due (tables_of snapshot.now origins.now) form due)) }
    ensures on { GoesOn (I.left input.old) (I.left input.new) (I.faults input.old)
        (I.faults input.new) }
    ensures fault { IsErrOf result StreamError.Fault →
        Rose (I.faults input.old) (I.faults input.new) }
{
    let space = prepared_space(alloc, snapshot)?;
    lines_over(alloc, form, &space, origins, snapshot.limit(), file, input)
}

/// The answer where a perf.data file isn't read.
fn failed_answer(alloc: Global, error: StreamError) -> Answer
    ensures failure { IsFailure error result.status result.text }
    ensures kind { IsOfSource result.status }
    ensures silent { (result.status ≡ Status.Memory) ⊎ (result.status ≡ Status.ReadFault) →
        result.text ≡ [] }
    ensures fault { result.status ≡ Status.ReadFault → error ≡ StreamError.Fault }
{
    match error {
        StreamError::NoMemory => silent_answer(alloc, Status::Memory),
        StreamError::Fault => silent_answer(alloc, Status::ReadFault),
        StreamError::Unread(error) => {
            text_answer(alloc, Status::Refused, refused_line(alloc, error))
        }
    }
}

/// The answer to a perf.data file.
fn perf_answer<I: Source>(
    alloc: Global,
    form: Form,
    snapshot: &Snapshot,
    origins: &Origins,
    file: OpenFile,
    input: &mut I,
) -> Answer
    ensures answer { IfSome (streams.due_of file (I.left input.old)) (λ due. IsReadyOrFailed (lines_due
        (told_due (tables_of snapshot.now origins.now) form due)) result.status result.text) }
    ensures kind { IsOfSource result.status }
    ensures silent { (result.status ≡ Status.Memory) ⊎ (result.status ≡ Status.ReadFault) →
        result.text ≡ [] }
    ensures on { GoesOn (I.left input.old) (I.left input.new) (I.faults input.old)
        (I.faults input.new) }
    ensures fault { result.status ≡ Status.ReadFault →
        Rose (I.faults input.old) (I.faults input.new) }
{
    match lines_of(alloc, form, snapshot, origins, file, input) {
        Ok(lines) => text_answer(alloc, Status::Done, Ok(lines)),
        Err(error) => failed_answer(alloc, error),
    }
}

/// The answer to a perf.data file, by the bytes of the tables' file.
fn file_answer<I: Source>(
    alloc: Global,
    form: Form,
    tables: &[u8],
    file: OpenFile,
    input: &mut I,
) -> Answer
    ensures answer { IfSome (streams.due_of file (I.left input.old)) (λ due. IsReadyOrFailed
        (read_due (origins_by (value_of tables.now)) form due (content_of tables.now))
        result.status result.text) }
    ensures kind { IsOfSource result.status }
    ensures silent { (result.status ≡ Status.Memory) ⊎ (result.status ≡ Status.ReadFault) →
        result.text ≡ [] }
    ensures on { GoesOn (I.left input.old) (I.left input.new) (I.faults input.old)
        (I.faults input.new) }
    ensures fault { result.status ≡ Status.ReadFault →
        Rose (I.faults input.old) (I.faults input.new) }
{
    match read_named_snapshot(alloc, tables) {
        Ok((snapshot, origins)) => perf_answer(alloc, form, &snapshot, &origins, file, input),
        Err(error) => fault_answer(alloc, error),
    }
}

/// The answer to the bytes of the source, as far as they were read.
fn source_answer<I: Source>(alloc: Global, form: Form, tables: &[u8], input: &mut I) -> Answer
    ensures answer { IfSome (I.left input.old) (λ bytes.
        IsReadyOrFailed (bytes_due tables.now form bytes) result.status result.text) }
    ensures kind { IsOfSource result.status }
    ensures silent { (result.status ≡ Status.Memory) ⊎ (result.status ≡ Status.ReadFault) →
        result.text ≡ [] }
    ensures on { GoesOn (I.left input.old) (I.left input.new) (I.faults input.old)
        (I.faults input.new) }
    ensures fault { result.status ≡ Status.ReadFault →
        Rose (I.faults input.old) (I.faults input.new) }
{
    match open_file(alloc, input) {
        Ok(file) => file_answer(alloc, form, tables, file, input),
        Err(error) => failed_answer(alloc, error),
    }
}

/// The answer to all bytes of the source. A fault after those that decide it is answered in its place.
fn input_answer<I: Source>(alloc: Global, form: Form, tables: &[u8], input: &mut I) -> Answer
    ensures answer { IfSome (I.left input.old) (λ bytes.
        IsReadyOrFailed (bytes_due tables.now form bytes) result.status result.text) }
    ensures kind { IsOfSource result.status }
    ensures leaves { LeavesSource ⊤ result.status result.text
        (Rose (I.faults input.old) (I.faults input.new)) (I.left input.old) (I.left input.new) }
{
    let answer = source_answer(alloc, form, tables, input);
    match pass_source(alloc, input) {
        Ok(()) => answer,
        Err(error) => failed_answer(alloc, error),
    }
}

fn decide<I: Source>(alloc: Global, words: &Words, tables: &[u8], input: &mut I) -> Answer
    ensures answer { IfSome (I.left input.old) (λ bytes.
        IsReadyOrFailed (due_of words.now tables.now bytes) result.status result.text) }
    ensures usage { request_in words.now ≡ None →
        IsReady (verdict Status.Usage usage_line) result.status result.text }
    ensures no_other { result.status ≡ Status.Usage → request_in words.now ≡ None }
    ensures leaves { LeavesSource (IsSome (request_in words.now)) result.status result.text
        (Rose (I.faults input.old) (I.faults input.new)) (I.left input.old) (I.left input.new) }
    ensures unread { request_in words.now ≡ None →
        (result.status ≢ Status.ReadFault) × Keeps (I.left input.old) (I.left input.new) }
    ensures kind { result.status ≢ Status.WriteFault }
{
    match request_of(words) {
        Some(request) => input_answer(alloc, request.form, tables, input),
        None => text_answer(alloc, Status::Usage, usage_line(alloc)),
    }
}

/// Writes the folded stacks of the perf.data file that the input is to the output, or its samples one
/// after another, or why there are none. `tables` are the bytes of the file that the words name.
///
/// The input is read to its end, and not at all where the words name no file. A perf.data file whose
/// attributes stand before its records is held two records and three pieces at a time at most; another
/// is held whole. The checks go in this order: words, reading, JSON, snapshot, perf.data, writing. Running
/// out of memory at any of them is `Memory`.
pub fn run<I: Source, O: Sink>(
    alloc: Global,
    words: &Words,
    tables: &[u8],
    input: &mut I,
    output: &mut O,
) -> Status
    // What is due for the words, the tables' bytes and the source's is answered and written.
    ensures told { IfSome (I.left input.old) (λ bytes.
        Tells (due_of words.now tables.now bytes) result (O.holds output.old)
        (O.holds output.new)) }
    // Of a perf.data file of which each record is read, the distinct stacks of its samples over the
    // tables are written, in order and each once, with the number of the samples that show it.
    ensures folded { IfSome (I.left input.old) (λ bytes. (t : Tables)
        (records : List RecordValue) (lines : List StackCount) →
        Asks Form.Folded words.now tables.now bytes t records → IsFolded (stacks_of t records) lines →
        Tells (verdict Status.Done (profile_text lines)) result (O.holds output.old)
        (O.holds output.new)) }
    // And where this is asked for, the samples one after another.
    ensures script { IfSome (I.left input.old) (λ bytes. (t : Tables)
        (records : List RecordValue) → Asks Form.Script words.now tables.now bytes t records →
        Tells (verdict Status.Done (script_text t records)) result (O.holds output.old)
        (O.holds output.new)) }
    // The line of a sample whose thread's stack is known, of each of whose frames it is known how its
    // caller's state follows, in an ELF module by facts that its tables say, at any address, has the
    // frames of the stack, by their functions where these are described.
    ensures folded_known { IfSome (I.left input.old) (λ bytes. (t : Tables)
        (records earlier : List RecordValue) (sample : SampleValue) (s : State)
        (callers : List State) →
        Asks Form.Folded words.now tables.now bytes t records → HasSample records sample earlier →
        (is : BeginsKnownStack t.space t.limit sample s callers) →
        (lines : List StackCount) × IsFolded (stacks_of t records) lines ×
        HasStack lines (known_text t earlier sample s callers is) ×
        Tells (verdict Status.Done (profile_text lines)) result (O.holds output.old)
        (O.holds output.new)) }
    // So have the lines of it among the samples one after another, after those of the samples before.
    ensures script_known { IfSome (I.left input.old) (λ bytes. (t : Tables)
        (records earlier : List RecordValue) (sample : SampleValue) (s : State)
        (callers : List State) →
        Asks Form.Script words.now tables.now bytes t records → HasSample records sample earlier →
        (is : BeginsKnownStack t.space t.limit sample s callers) →
        (after : List ℕ) × Tells (verdict Status.Done
        (script_text t earlier ++ known_lines t earlier sample s callers is ++ after)) result
        (O.holds output.old) (O.holds output.new)) }
    // And so it is, with a mark, of a sample at whose thread's start registers were popped, and whose
    // stack is known over the memory that keeps them.
    ensures folded_popped { IfSome (I.left input.old) (λ bytes. (t : Tables)
        (records earlier : List RecordValue) (sample : SampleValue) (s : State)
        (callers : List State) →
        Asks Form.Folded words.now tables.now bytes t records → HasSample records sample earlier →
        (is : BeginsPoppedStack t.space t.limit sample s callers) →
        (lines : List StackCount) × IsFolded (stacks_of t records) lines ×
        HasStack lines (popped_text t earlier sample s callers is) ×
        Tells (verdict Status.Done (profile_text lines)) result (O.holds output.old)
        (O.holds output.new)) }
    ensures script_popped { IfSome (I.left input.old) (λ bytes. (t : Tables)
        (records earlier : List RecordValue) (sample : SampleValue) (s : State)
        (callers : List State) →
        Asks Form.Script words.now tables.now bytes t records → HasSample records sample earlier →
        (is : BeginsPoppedStack t.space t.limit sample s callers) →
        (after : List ℕ) × Tells (verdict Status.Done
        (script_text t earlier ++ popped_lines t earlier sample s callers is ++ after)) result
        (O.holds output.old) (O.holds output.new)) }
    // Where this is known of the innermost frames alone, as of a stack that goes on after the end of
    // its copy, these frames are innermost, whatever more there is and whyever it ends.
    ensures folded_front { IfSome (I.left input.old) (λ bytes. (t : Tables)
        (records earlier : List RecordValue) (sample : SampleValue) (s : State)
        (callers : List State) →
        Asks Form.Folded words.now tables.now bytes t records → HasSample records sample earlier →
        (is : BeginsKnownFront t.space t.limit sample s callers) →
        (more : List ℕ) × (end : StackEnd) × (lines : List StackCount) ×
        IsFolded (stacks_of t records) lines ×
        HasStack lines (front_text t earlier sample s callers is more end) ×
        Tells (verdict Status.Done (profile_text lines)) result (O.holds output.old)
        (O.holds output.new)) }
    ensures script_front { IfSome (I.left input.old) (λ bytes. (t : Tables)
        (records earlier : List RecordValue) (sample : SampleValue) (s : State)
        (callers : List State) →
        Asks Form.Script words.now tables.now bytes t records → HasSample records sample earlier →
        (is : BeginsKnownFront t.space t.limit sample s callers) →
        (more : List ℕ) × (end : StackEnd) × (after : List ℕ) × Tells (verdict Status.Done
        (script_text t earlier ++ front_lines t earlier sample s callers is more end ++ after))
        result (O.holds output.old) (O.holds output.new)) }
    // Whatever the source gives, words that name no file are answered so, and no others.
    ensures usage { ComesExactly result Status.Usage (request_in words.now ≡ None) }
    ensures usage_told { request_in words.now ≡ None →
        Tells (verdict Status.Usage usage_line) result (O.holds output.old) (O.holds output.new) }
    ensures unread { request_in words.now ≡ None →
        (result ≢ Status.ReadFault) × Keeps (I.left input.old) (I.left input.new) }
    // Without memory, and after a fault of the source, nothing is written; a fault is answered only
    // where one rose; and the source is read to its end where the status says so.
    ensures ends { KeepsToEnds (IsSome (request_in words.now)) result
        (Rose (I.faults input.old) (I.faults input.new))
        (Rose (O.faults output.old) (O.faults output.new)) (I.left input.old) (I.left input.new)
        (O.holds output.old) (O.holds output.new) }
{
    let answer = decide(alloc, words, tables, input);
    write_answer(output, answer.status, answer.text.bytes())
}
