// The samples of a perf.data file that is read from a source, one record at a time.
ghost use Rattle.std.specs.Prelude.{◌≡◌, ◌≢◌, ◌+◌, ◌<◌, ◌^◌, ◌∷◌, [], Err, IfErr, IfOk, IfSome};
ghost use Rattle.std.specs.Prelude.{IsErrOf, IsFalse, IsOk, IsTrue, List, OnOk};
ghost use Rattle.memory_image.specs.Ends.{Rose};
ghost use Rattle.perf_data.specs.Records.{RecordValue};
ghost use Rattle.perf_data.specs.Streams.{GoesOn, due_left, due_of, records_in};
ghost use Rattle.stack_snapshot.specs.Origins.{OriginValue};
ghost use Rattle.sampled_profile.specs.Kept.{IsScript, IsTally};
ghost use Rattle.sampled_profile.specs.Profiles.{tables};
ghost use Rattle.sampled_profile.specs.Streamed.{CountsDue, CountsStreamed, EndsAt, GivesStreamed};
ghost use Rattle.sampled_profile.specs.Streamed.{IsCause};
ghost use Rattle.sampled_profile.specs.Streamed.{ScriptStreamed, TakesRecord, profile_due};
ghost use Rattle.sampled_profile.specs.Streamed.{script_due};
ghost use Rattle.sampled_profile.specs.Tables.{total_of};

use crate::profile::{
    Profile, ProfileError, Tally, empty_tally, note_record as note_in_tally, profile_of,
};
use crate::script::{Script, empty_script, note_record as note_in_script, script_of};
use crate::stack_table::StackTable;
use crate::text_counts::counts_by_text;
use memory_image::Source;
use perf_data::{OpenFile, PerfError, PerfFile, RecordReader, StreamError};
use stack_deliver::{FrameCache, Space};
use stack_report::Report;
use stack_snapshot::Origins;
use std::alloc::Global;

impl From<ProfileError> for StreamError {
    ghost use Rattle.std.specs.Prelude.{◌≡◌};
    ghost use Rattle.sampled_profile.specs.Streamed.{streamed};

    ghost from_gives = { λ cause e. e ≡ streamed cause };

    fn from(cause: ProfileError) -> StreamError {
        match cause {
            ProfileError::NoMemory => StreamError::NoMemory,
            ProfileError::Unread(error) => StreamError::Unread(error),
        }
    }
}

/// Reads a source to its end.
///
/// # Errors
///
/// `Unread` with [`PerfError::Records`] where the section of the records passes the source's end;
/// `Fault` where a read failed; `NoMemory` where memory ran out.
fn end_section<I: Source>(reader: &mut RecordReader, input: &mut I) -> Result<(), StreamError>
    ensures whole { OnOk result (IfSome (due_left reader.old (I.left input.old)) (λ due. IsOk due)) }
    ensures cut { IfErr result (λ e. (cause : PerfError) → e ≡ StreamError.Unread cause →
        (cause ≡ PerfError.Records) × IfSome (due_left reader.old (I.left input.old))
        (λ due. due ≡ Err PerfError.Records)) }
    ensures on { GoesOn (I.left input.old) (I.left input.new) (I.faults input.old)
        (I.faults input.new) }
    ensures fault { IsErrOf result StreamError.Fault →
        Rose (I.faults input.old) (I.faults input.new) }
{
    if reader.finish(input)? {
        Ok(())
    } else {
        Err(StreamError::Unread(PerfError::Records))
    }
}

/// Why there is no answer to a file one of whose records can't be read: for this error, unless the
/// section of the records passes the source's end.
fn cause_of<I: Source>(reader: &mut RecordReader, input: &mut I, error: PerfError) -> StreamError
    ensures cause { IsCause result error (due_left reader.old (I.left input.old)) }
    ensures on { GoesOn (I.left input.old) (I.left input.new) (I.faults input.old)
        (I.faults input.new) }
    ensures fault { result ≡ StreamError.Fault → Rose (I.faults input.old) (I.faults input.new) }
{
    match end_section(reader, input) {
        Ok(()) => StreamError::Unread(error),
        Err(error) => error,
    }
}

/// Counts what the next record says: whether there is one.
fn count_next<I: Source>(
    cache: &mut FrameCache<'_, '_>,
    limit: u32,
    reader: &mut RecordReader,
    input: &mut I,
    tally: &mut Tally,
) -> Result<bool, StreamError>
    requires places { tally.old.room.limit ≡ limit }
    requires few { 0 < reader.old.size → total_of tally.old.stacks.counts.entries + 1 < 2 ^ 64 }
    ensures taken { IfOk result (λ more. IsTrue more → (r : RecordValue) ×
        TakesRecord r (due_left reader.old (I.left input.old))
        (due_left reader.new (I.left input.new)) ×
        ((origins : List OriginValue) (earlier : List RecordValue) →
        IsTally (tables cache.old origins limit) tally.old earlier →
        IsTally (tables cache.old origins limit) tally.new (r ∷ earlier))) }
    ensures fewer { IfOk result (λ more. IsTrue more → reader.new.size < reader.old.size) }
    ensures ended { IfOk result (λ more. IsFalse more →
        EndsAt [] (due_left reader.old (I.left input.old))
        (due_left reader.new (I.left input.new))) }
    ensures kept { IfOk result (λ more. IsFalse more → tally.new ≡ tally.old) }
    ensures failed { IfErr result (λ e. (cause : PerfError) → e ≡ StreamError.Unread cause →
        EndsAt (Err cause ∷ []) (due_left reader.old (I.left input.old))
        (due_left reader.new (I.left input.new))) }
    ensures on { GoesOn (I.left input.old) (I.left input.new) (I.faults input.old)
        (I.faults input.new) }
    ensures fault { IsErrOf result StreamError.Fault →
        Rose (I.faults input.old) (I.faults input.new) }
    ensures same { cache.new ≡ cache.old }
{
    if !reader.advance(input)? {
        return Ok(false);
    }
    let (entry, size) = reader.record()?;
    note_in_tally(cache, limit, &entry, tally)?;
    reader.pass(size);
    Ok(true)
}

/// Counts what each record says.
fn count_records<I: Source>(
    alloc: Global,
    space: &Space<'_>,
    limit: u32,
    reader: &mut RecordReader,
    input: &mut I,
) -> Result<StackTable, StreamError>
    ensures counts { CountsStreamed result (λ origins. tables space.now origins limit)
        (due_left reader.old (I.left input.old)) (due_left reader.new (I.left input.new)) }
    ensures on { GoesOn (I.left input.old) (I.left input.new) (I.faults input.old)
        (I.faults input.new) }
    ensures fault { IsErrOf result StreamError.Fault →
        Rose (I.faults input.old) (I.faults input.new) }
{
    let mut cache = FrameCache::new(alloc, space)?;
    let mut tally = empty_tally(alloc, limit)?;
    while count_next(&mut cache, limit, reader, input, &mut tally)? {}
    Ok(tally.stacks)
}

/// The stacks of all records, if their section is whole.
fn count_section<I: Source>(
    alloc: Global,
    space: &Space<'_>,
    limit: u32,
    reader: &mut RecordReader,
    input: &mut I,
) -> Result<StackTable, StreamError>
    ensures counts { CountsDue result (λ origins. tables space.now origins limit)
        (due_left reader.old (I.left input.old)) }
    ensures on { GoesOn (I.left input.old) (I.left input.new) (I.faults input.old)
        (I.faults input.new) }
    ensures fault { IsErrOf result StreamError.Fault →
        Rose (I.faults input.old) (I.faults input.new) }
{
    match count_records(alloc, space, limit, reader, input) {
        Ok(stacks) => {
            end_section(reader, input)?;
            Ok(stacks)
        }
        Err(StreamError::Unread(error)) => Err(cause_of(reader, input, error)),
        Err(StreamError::Fault) => Err(StreamError::Fault),
        Err(StreamError::NoMemory) => Err(StreamError::NoMemory),
    }
}

/// The profile of the records of a source.
fn profile_of_records<I: Source>(
    alloc: Global,
    space: &Space<'_>,
    origins: &Origins,
    limit: u32,
    reader: &mut RecordReader,
    input: &mut I,
) -> Result<Profile, StreamError>
    ensures due { IfSome (due_left reader.old (I.left input.old)) (λ due.
        GivesStreamed result (profile_due (tables space.now origins.now limit) due)) }
    ensures on { GoesOn (I.left input.old) (I.left input.new) (I.faults input.old)
        (I.faults input.new) }
    ensures fault { IsErrOf result StreamError.Fault →
        Rose (I.faults input.old) (I.faults input.new) }
{
    let stacks = count_section(alloc, space, limit, reader, input)?;
    let counts = counts_by_text(alloc, origins, &stacks)?;
    Ok(Profile { counts })
}

/// The profile of a file by all of its bytes.
fn profile_of_bytes(
    alloc: Global,
    space: &Space<'_>,
    origins: &Origins,
    limit: u32,
    bytes: &[u8],
) -> Result<Profile, StreamError>
    ensures due { GivesStreamed result
        (profile_due (tables space.now origins.now limit) (records_in bytes.now)) }
    ensures kind { IfErr result (λ e. e ≢ StreamError.Fault) }
{
    let file = PerfFile::parse(bytes)?;
    Ok(profile_of(alloc, space, origins, limit, &file)?)
}

/// The profile of a perf.data file that is read from a source: what
/// [`profile_of`](crate::profile_of) gives of all of its bytes.
///
/// At most two records and three pieces of 131,072 bytes are held at a time, beside the distinct stacks
/// and the names of threads.
///
/// # Errors
///
/// `Unread` with the error by which the bytes aren't read as a file, or with that of the first record
/// that can't be read; `Fault` where a read failed; `NoMemory` where memory ran out.
pub fn profile_of_source<I: Source>(
    alloc: Global,
    space: &Space<'_>,
    origins: &Origins,
    limit: u32,
    file: OpenFile,
    input: &mut I,
) -> Result<Profile, StreamError>
    // What is due of all bytes of the source.
    ensures due { IfSome (due_of file (I.left input.old)) (λ due.
        GivesStreamed result (profile_due (tables space.now origins.now limit) due)) }
    ensures on { GoesOn (I.left input.old) (I.left input.new) (I.faults input.old)
        (I.faults input.new) }
    ensures fault { IsErrOf result StreamError.Fault →
        Rose (I.faults input.old) (I.faults input.new) }
{
    match file {
        OpenFile::Whole(bytes) => profile_of_bytes(alloc, space, origins, limit, &bytes),
        OpenFile::Streamed(reader) => {
            let mut reader = reader;
            profile_of_records(alloc, space, origins, limit, &mut reader, input)
        }
        OpenFile::Refused(error) => Err(StreamError::Unread(error)),
    }
}

/// Puts the lines of what the next record says last: whether there is one.
fn put_next<I: Source>(
    cache: &mut FrameCache<'_, '_>,
    origins: &Origins,
    limit: u32,
    reader: &mut RecordReader,
    input: &mut I,
    script: &mut Script,
) -> Result<bool, StreamError>
    requires places { script.old.room.limit ≡ limit }
    ensures taken { IfOk result (λ more. IsTrue more → (r : RecordValue) ×
        TakesRecord r (due_left reader.old (I.left input.old))
        (due_left reader.new (I.left input.new)) ×
        ((earlier : List RecordValue) →
        IsScript (tables cache.old origins.now limit) script.old earlier →
        IsScript (tables cache.old origins.now limit) script.new (r ∷ earlier))) }
    ensures fewer { IfOk result (λ more. IsTrue more → reader.new.size < reader.old.size) }
    ensures ended { IfOk result (λ more. IsFalse more →
        EndsAt [] (due_left reader.old (I.left input.old))
        (due_left reader.new (I.left input.new))) }
    ensures kept { IfOk result (λ more. IsFalse more → script.new ≡ script.old) }
    ensures failed { IfErr result (λ e. (cause : PerfError) → e ≡ StreamError.Unread cause →
        EndsAt (Err cause ∷ []) (due_left reader.old (I.left input.old))
        (due_left reader.new (I.left input.new))) }
    ensures on { GoesOn (I.left input.old) (I.left input.new) (I.faults input.old)
        (I.faults input.new) }
    ensures fault { IsErrOf result StreamError.Fault →
        Rose (I.faults input.old) (I.faults input.new) }
    ensures same { cache.new ≡ cache.old }
{
    if !reader.advance(input)? {
        return Ok(false);
    }
    let (entry, size) = reader.record()?;
    note_in_script(cache, origins, limit, &entry, script)?;
    reader.pass(size);
    Ok(true)
}

/// The lines of what each record says.
fn put_records<I: Source>(
    alloc: Global,
    space: &Space<'_>,
    origins: &Origins,
    limit: u32,
    reader: &mut RecordReader,
    input: &mut I,
) -> Result<Report, StreamError>
    ensures script { ScriptStreamed result (tables space.now origins.now limit)
        (due_left reader.old (I.left input.old)) (due_left reader.new (I.left input.new)) }
    ensures on { GoesOn (I.left input.old) (I.left input.new) (I.faults input.old)
        (I.faults input.new) }
    ensures fault { IsErrOf result StreamError.Fault →
        Rose (I.faults input.old) (I.faults input.new) }
{
    let mut cache = FrameCache::new(alloc, space)?;
    let mut script = empty_script(alloc, limit)?;
    while put_next(&mut cache, origins, limit, reader, input, &mut script)? {}
    Ok(script.text)
}

/// The samples of all records, if their section is whole.
fn script_of_records<I: Source>(
    alloc: Global,
    space: &Space<'_>,
    origins: &Origins,
    limit: u32,
    reader: &mut RecordReader,
    input: &mut I,
) -> Result<Report, StreamError>
    ensures due { IfSome (due_left reader.old (I.left input.old)) (λ due.
        GivesStreamed result (script_due (tables space.now origins.now limit) due)) }
    ensures on { GoesOn (I.left input.old) (I.left input.new) (I.faults input.old)
        (I.faults input.new) }
    ensures fault { IsErrOf result StreamError.Fault →
        Rose (I.faults input.old) (I.faults input.new) }
{
    match put_records(alloc, space, origins, limit, reader, input) {
        Ok(text) => {
            end_section(reader, input)?;
            Ok(text)
        }
        Err(StreamError::Unread(error)) => Err(cause_of(reader, input, error)),
        Err(StreamError::Fault) => Err(StreamError::Fault),
        Err(StreamError::NoMemory) => Err(StreamError::NoMemory),
    }
}

/// The samples of a file by all of its bytes.
fn script_of_bytes(
    alloc: Global,
    space: &Space<'_>,
    origins: &Origins,
    limit: u32,
    bytes: &[u8],
) -> Result<Report, StreamError>
    ensures due { GivesStreamed result
        (script_due (tables space.now origins.now limit) (records_in bytes.now)) }
    ensures kind { IfErr result (λ e. e ≢ StreamError.Fault) }
{
    let file = PerfFile::parse(bytes)?;
    Ok(script_of(alloc, space, origins, limit, &file)?)
}

/// The samples of a perf.data file that is read from a source, one after another: what
/// [`script_of`](crate::script_of) gives of all of its bytes.
///
/// # Errors
///
/// `Unread` with the error by which the bytes aren't read as a file, or with that of the first record
/// that can't be read; `Fault` where a read failed; `NoMemory` where memory ran out.
pub fn script_of_source<I: Source>(
    alloc: Global,
    space: &Space<'_>,
    origins: &Origins,
    limit: u32,
    file: OpenFile,
    input: &mut I,
) -> Result<Report, StreamError>
    // What is due of all bytes of the source.
    ensures due { IfSome (due_of file (I.left input.old)) (λ due.
        GivesStreamed result (script_due (tables space.now origins.now limit) due)) }
    ensures on { GoesOn (I.left input.old) (I.left input.new) (I.faults input.old)
        (I.faults input.new) }
    ensures fault { IsErrOf result StreamError.Fault →
        Rose (I.faults input.old) (I.faults input.new) }
{
    match file {
        OpenFile::Whole(bytes) => script_of_bytes(alloc, space, origins, limit, &bytes),
        OpenFile::Streamed(reader) => {
            let mut reader = reader;
            script_of_records(alloc, space, origins, limit, &mut reader, input)
        }
        OpenFile::Refused(error) => Err(StreamError::Unread(error)),
    }
}
