// The profile of a perf.data file.
ghost use Rattle.std.specs.Prelude.{◌≡◌, ◌+◌, ◌<◌, ◌≤◌, ◌^◌, ◌++◌, ◌∷◌, [], ℕ, List, Ok, IfOk, OnOk};
ghost use Rattle.std.specs.Prelude.{length, sum_by};
ghost use Rattle.perf_data.specs.Records.{RecordValue};
ghost use Rattle.stack_steps.specs.Modules.{SpaceValue};
ghost use Rattle.stack_snapshot.specs.Origins.{OriginValue};
ghost use Rattle.perf_data.specs.Views.{record_value, records_left, sample_value};
ghost use Rattle.unwind_definitions.specs.State.{State};
ghost use Rattle.perf_data.specs.Samples.{SampleValue};
ghost use Rattle.folded_stacks.specs.Counts.{HasStack, IsFolded};
ghost use Rattle.sampled_profile.specs.Kept.{Counts, IsTally, Knows};
ghost use Rattle.sampled_profile.specs.KnownSamples.{BeginsKnownFront, BeginsKnownStack};
ghost use Rattle.sampled_profile.specs.KnownSamples.{BeginsPoppedStack, HasSample, front_text};
ghost use Rattle.sampled_profile.specs.KnownSamples.{known_text, popped_text};
ghost use Rattle.sampled_profile.specs.declared.stack_end.StackEnd.{StackEnd};
ghost use Rattle.sampled_profile.specs.Frames.{frames_of};
ghost use Rattle.sampled_profile.specs.Names.{process_name_of};
ghost use Rattle.sampled_profile.specs.Profiles.{profile_of, profile_text, read_all, stacks_of};
ghost use Rattle.sampled_profile.specs.Profiles.{tables};
ghost use Rattle.sampled_profile.specs.Tables.{CountsOneMore, shown_frames, shown_name, total_of};
ghost use Rattle.sampled_profile.specs.Told.{Gives};
ghost use Rattle.sampled_profile.specs.Walks.{walk_of};

use crate::counts::StackCounts;
use crate::names::{ThreadNames, process_name_of};
use crate::records::next_record;
use crate::stack_table::{SampledStack, StackTable};
use crate::text_counts::counts_by_text;
use crate::walks::walk_sample;
use perf_data::{PerfError, PerfFile, Record, Records, Sample};
use stack_deliver::{FrameCache, Room, Space};
use stack_report::Report;
use stack_snapshot::Origins;
use std::alloc::{AllocError, Global};
use std::marker::Model;

/// Why there is no profile.
#[derive(Clone, Copy, Debug, PartialEq, Eq, thiserror::Error)]
pub enum ProfileError {
    /// Memory ran out.
    #[error("out of memory")]
    NoMemory,
    /// A record can't be read.
    #[error("{0}")]
    Unread(PerfError),
}

impl From<AllocError> for ProfileError {
    ghost use Rattle.std.specs.Prelude.{◌≡◌};
    ghost use Rattle.sampled_profile.specs.declared.profile.ProfileError.TheVariants.{NoMemory};

    ghost from_gives = { λ _ e. e ≡ NoMemory };

    fn from(_e: AllocError) -> ProfileError {
        ProfileError::NoMemory
    }
}

/// The distinct stacks of the samples, in the order of their texts, each with the number of the
/// samples that show it.
///
/// Contracts see the texts with their counts.
#[derive(Drop)]
pub struct Profile {
    pub(crate) counts: StackCounts,
}

impl Model for Profile {
    ghost use Rattle.std.specs.Prelude.{List};
    ghost use Rattle.folded_stacks.specs.Counts.{StackCount};

    ghost Value = { List StackCount };

    ghost view = { λ p. p.counts };
}

impl Profile {
    /// Puts a line for each stack last: its text, a space and the count.
    ///
    /// # Errors
    ///
    /// `AllocError` where memory ran out.
    pub fn put_lines(&self, report: &mut Report) -> Result<(), AllocError>
        ensures { OnOk result (report.new ≡ report.old ++ profile_text self.now) }
    {
        self.counts.put_lines(report)
    }
}

/// What is known after the records so far, and the room and the stack of a walk.
#[derive(Drop)]
pub(crate) struct Tally {
    names: ThreadNames,
    pub(crate) stacks: StackTable,
    room: Room,
    last: SampledStack,
}

/// Nothing is known yet.
pub(crate) fn empty_tally(alloc: Global, limit: u32) -> Result<Tally, AllocError>
    ensures { IfOk result (λ tally. (space : SpaceValue) (origins : List OriginValue) →
        IsTally (tables space origins limit) tally []) }
{
    Ok(Tally {
        names: ThreadNames::new(alloc),
        stacks: StackTable::new(alloc),
        room: Room::new(alloc, limit)?,
        last: SampledStack::new(alloc),
    })
}

/// Counts the stack of a sample.
fn count_sample(
    cache: &mut FrameCache<'_, '_>,
    limit: u32,
    sample: &Sample<'_>,
    tally: &mut Tally,
) -> Result<(), AllocError>
    requires places { limit ≤ tally.old.room.limit }
    requires few { total_of tally.old.stacks.counts.entries + 1 < 2 ^ 64 }
    ensures name { OnOk result ((earlier : List RecordValue) → Knows tally.old.names earlier →
        shown_name tally.new.last ≡ process_name_of earlier (sample_value sample.now).thread) }
    ensures frames { OnOk result (shown_frames tally.new.last ≡
        frames_of cache.old (walk_of cache.old limit (sample_value sample.now))) }
    ensures counted { OnOk result (CountsOneMore tally.new.last tally.old.stacks.counts.entries
        tally.new.stacks.counts.entries) }
    ensures names { tally.new.names ≡ tally.old.names }
    ensures places { tally.new.room.limit ≡ tally.old.room.limit }
    ensures same { cache.new ≡ cache.old }
{
    let name = process_name_of(&tally.names, sample);
    let marks = walk_sample(cache, limit, sample, &mut tally.room);
    tally.last.set(name, marks, cache, &tally.room)?;
    tally.stacks.count(&tally.last)
}

/// Takes what a record says.
pub(crate) fn note_record(
    cache: &mut FrameCache<'_, '_>,
    limit: u32,
    entry: &Record<'_>,
    tally: &mut Tally,
) -> Result<(), AllocError>
    requires places { tally.old.room.limit ≡ limit }
    requires few { total_of tally.old.stacks.counts.entries + 1 < 2 ^ 64 }
    ensures noted { OnOk result ((origins : List OriginValue) (earlier : List RecordValue) →
        IsTally (tables cache.old origins limit) tally.old earlier →
        IsTally (tables cache.old origins limit) tally.new (record_value entry.now ∷ earlier)) }
    ensures same { cache.new ≡ cache.old }
{
    match entry {
        Record::Sample(sample) => count_sample(cache, limit, sample, tally),
        _ => tally.names.note(entry),
    }
}

/// Takes what each record says.
fn tally_records(
    alloc: Global,
    space: &Space<'_>,
    limit: u32,
    records: Records<'_>,
) -> Result<StackTable, ProfileError>
    requires { length (records_left records) < 2 ^ 64 }
    ensures { Counts result (λ origins. tables space.now origins limit)
        (records_left records.entry) }
{
    let mut cache = FrameCache::new(alloc, space)?;
    let mut tally = empty_tally(alloc, limit)?;
    let mut records = records;
    while let Some(entry) = next_record(&mut records)? {
        note_record(&mut cache, limit, &entry, &mut tally)?;
    }
    Ok(tally.stacks)
}

/// The profile of a perf.data file: each distinct stack of its samples once, in the order of the
/// texts, with the number of the samples that show it.
///
/// A sample is walked over the modules of the space from its registers on, over the space's memory
/// and the copy of its stack, at most `limit` states. Its text has the name of its process, which the
/// records before it say, then why it goes no further, its frames, the outermost first, and a mark
/// where popped registers were kept. A frame is where its function begins, by the files of `origins`,
/// so that samples of the same functions show one stack where their processes' names, ends and marks
/// are the same, too; where no frame table of an ELF module describes the address asked, it is that
/// address. The space answers the same whether it is prepared or not, and much sooner where it is.
/// Nothing is allocated for a sample whose stack was shown before.
///
/// # Errors
///
/// `Unread` with the error of the first record that can't be read; `NoMemory` where memory ran out,
/// which may come in the place of any answer.
pub fn profile_of(
    alloc: Global,
    space: &Space<'_>,
    origins: &Origins,
    limit: u32,
    file: &PerfFile<'_>,
) -> Result<Profile, ProfileError>
    ensures exact { Gives result
        (profile_of (tables space.now origins.now limit) file.now.records) }
    // The lines are the distinct stacks of the samples, in order and each once, with the number of
    // the samples that show it.
    ensures lines { IfOk result (λ profile. (read : List RecordValue) ×
        (read_all file.now.records ≡ Ok read) ×
        IsFolded (stacks_of (tables space.now origins.now limit) read) profile) }
    // Each sample counts once.
    ensures adds_up { IfOk result (λ profile. (read : List RecordValue) →
        read_all file.now.records ≡ Ok read → sum_by (λ line. line.count) profile ≡
        length (stacks_of (tables space.now origins.now limit) read)) }
    // The line of a sample whose thread's stack is known, of each of whose frames it is known how its
    // caller's state follows, in an ELF module by facts that its tables say, at any address, has the
    // stack's frames, by their functions where these are described.
    ensures known { IfOk result (λ profile. (read earlier : List RecordValue)
        (sample : SampleValue) (s : State) (callers : List State) →
        read_all file.now.records ≡ Ok read → HasSample read sample earlier →
        (is : BeginsKnownStack space.now limit sample s callers) → HasStack profile
        (known_text (tables space.now origins.now limit) earlier sample s callers is)) }
    // So it has, with the mark, where registers were popped at the thread's start, and over the memory
    // that keeps them the stack is known.
    ensures known_popped { IfOk result (λ profile. (read earlier : List RecordValue)
        (sample : SampleValue) (s : State) (callers : List State) →
        read_all file.now.records ≡ Ok read → HasSample read sample earlier →
        (is : BeginsPoppedStack space.now limit sample s callers) → HasStack profile
        (popped_text (tables space.now origins.now limit) earlier sample s callers is)) }
    // Where this is known of the innermost frames alone, as of a stack that goes on after the end of
    // its copy, its line has these frames innermost, whatever more there is and whyever it ends.
    ensures known_front { IfOk result (λ profile. (read earlier : List RecordValue)
        (sample : SampleValue) (s : State) (callers : List State) →
        read_all file.now.records ≡ Ok read → HasSample read sample earlier →
        (is : BeginsKnownFront space.now limit sample s callers) →
        (more : List ℕ) × (end : StackEnd) × HasStack profile
        (front_text (tables space.now origins.now limit) earlier sample s callers is more end)) }
{
    // No two of its modules share an address, as a space's type says.
    let _ = space.image();
    let stacks = tally_records(alloc, space, limit, file.records())?;
    let counts = counts_by_text(alloc, origins, &stacks)?;
    Ok(Profile { counts })
}
