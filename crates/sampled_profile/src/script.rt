// The samples of a perf.data file one after another.
ghost use Rattle.std.specs.Prelude.{◌≡◌, ◌≤◌, ◌++◌, ◌∷◌, [], IfOk, List, OnOk};
ghost use Rattle.std.specs.Option.{option_map};
ghost use Rattle.perf_data.specs.Records.{RecordValue};
ghost use Rattle.perf_data.specs.Views.{record_value, records_left, sample_value};
ghost use Rattle.stack_steps.specs.Modules.{SpaceValue};
ghost use Rattle.stack_snapshot.specs.Origins.{OriginValue};
ghost use Rattle.sampled_profile.specs.Kept.{IsScript, Knows};
ghost use Rattle.sampled_profile.specs.Names.{name_of};
ghost use Rattle.sampled_profile.specs.Profiles.{tables};
ghost use Rattle.sampled_profile.specs.Scripts.{sample_lines, script_of};
ghost use Rattle.sampled_profile.specs.Told.{Gives};
ghost use Rattle.sampled_profile.specs.Walks.{walk_of};

use crate::lines::put_sample_lines;
use crate::names::{ThreadNames, name_of};
use crate::profile::ProfileError;
use crate::records::next_record;
use perf_data::{PerfFile, Record, Records, Sample};
use stack_deliver::{FrameCache, Room, Space};
use stack_report::Report;
use stack_snapshot::Origins;
use std::alloc::{AllocError, Global};

/// What is known after the records so far, the lines of their samples, and the room of a walk.
#[derive(Drop)]
pub(crate) struct Script {
    names: ThreadNames,
    room: Room,
    pub(crate) text: Report,
}

/// Nothing is known yet.
pub(crate) fn empty_script(alloc: Global, limit: u32) -> Result<Script, AllocError>
    ensures { IfOk result (λ script. (space : SpaceValue) (origins : List OriginValue) →
        IsScript (tables space origins limit) script []) }
{
    Ok(Script {
        names: ThreadNames::new(alloc),
        room: Room::new(alloc, limit)?,
        text: Report::new(alloc),
    })
}

/// Puts the lines of a sample last.
fn put_sample(
    cache: &mut FrameCache<'_, '_>,
    origins: &Origins,
    limit: u32,
    sample: &Sample<'_>,
    script: &mut Script,
) -> Result<(), AllocError>
    requires { limit ≤ script.old.room.limit }
    ensures text { OnOk result ((earlier : List RecordValue) → Knows script.old.names earlier →
        script.new.text ≡ script.old.text ++ sample_lines cache.old origins.now
        (name_of earlier (sample_value sample.now).thread) (sample_value sample.now)
        (walk_of cache.old limit (sample_value sample.now))) }
    ensures names { script.new.names ≡ script.old.names }
    ensures places { script.new.room.limit ≡ script.old.room.limit }
    ensures same { cache.new ≡ cache.old }
{
    let name = name_of(&script.names, sample);
    let room = &mut script.room;
    put_sample_lines(&mut script.text, cache, origins, limit, name, sample, room)
}

/// Takes what a record says.
pub(crate) fn note_record(
    cache: &mut FrameCache<'_, '_>,
    origins: &Origins,
    limit: u32,
    entry: &Record<'_>,
    script: &mut Script,
) -> Result<(), AllocError>
    requires { script.old.room.limit ≡ limit }
    ensures noted { OnOk result ((earlier : List RecordValue) →
        IsScript (tables cache.old origins.now limit) script.old earlier →
        IsScript (tables cache.old origins.now limit) script.new
        (record_value entry.now ∷ earlier)) }
    ensures same { cache.new ≡ cache.old }
{
    match entry {
        Record::Sample(sample) => put_sample(cache, origins, limit, sample, script),
        _ => script.names.note(entry),
    }
}

/// Takes what each record says.
fn script_records(
    alloc: Global,
    space: &Space<'_>,
    origins: &Origins,
    limit: u32,
    records: Records<'_>,
) -> Result<Report, ProfileError>
    ensures { Gives result
        (script_of (tables space.now origins.now limit) (records_left records.entry)) }
{
    let mut cache = FrameCache::new(alloc, space)?;
    let mut script = empty_script(alloc, limit)?;
    let mut records = records;
    while let Some(entry) = next_record(&mut records)? {
        note_record(&mut cache, origins, limit, &entry, &mut script)?;
    }
    Ok(script.text)
}

/// The samples of a perf.data file, one after another in the file's order, in the text form of
/// `perf script`.
///
/// A sample is walked as [`profile_of`](crate::profile_of) says. Its lines are the name of its thread
/// with its process and its number, and when it was taken; a mark where popped registers were kept; its
/// frames, the innermost first, each with the address of its instruction, where its function begins in
/// the file of `origins` with how far past that the instruction lies, and the file's path; why there are no more, in brackets, unless the last frame is the
/// outermost; and an empty line. Of a caller the address is the byte before its return address, but for
/// one that a signal interrupted, as an ELF module's frame table says: of that it is where it was
/// interrupted. A space or a semicolon in a name is written as `_`, and what isn't known as
/// `[unknown]`.
///
/// # Errors
///
/// `Unread` with the error of the first record that can't be read; `NoMemory` where memory ran out,
/// which may come in the place of any answer.
pub fn script_of(
    alloc: Global,
    space: &Space<'_>,
    origins: &Origins,
    limit: u32,
    file: &PerfFile<'_>,
) -> Result<Report, ProfileError>
    ensures { Gives result
        (script_of (tables space.now origins.now limit) file.now.records) }
{
    script_records(alloc, space, origins, limit, file.records())
}
