// The walk of a sample.
ghost use Rattle.std.specs.Prelude.{◌≡◌, ◌≤◌};
ghost use Rattle.perf_data.specs.Views.{sample_value, words_of};
ghost use Rattle.stack_steps.specs.Growing.{Grows, over_image};
ghost use Rattle.sampled_profile.specs.Walks.{end_told, marked_walk};
ghost use Rattle.sampled_profile.specs.Walks.{sample_space, start_of, walk_from, walk_of};

use crate::stack_end::StackEnd;
use memory_image::MemoryImage;
use perf_data::{Sample, UserRegisters};
use popped_registers::walk_interrupted_cached;
use stack_deliver::{DeliverError, FrameCache, Space};
use stack_walks::{EndReason, Room};
use unwind_arch::x86_64::{Context, RSP};

// the form of the registers of a program of 64 bits
const ABI_64: u64 = 2;

/// What is said of a walk beside its states.
#[derive(Clone, Copy)]
pub(crate) struct WalkMarks {
    /// Why there are no more.
    pub(crate) end: StackEnd,
    /// Whether registers were kept that were popped where the thread was interrupted.
    pub(crate) popped: bool,
}

/// The end that the reason of a walk gives.
fn end_told(why: EndReason) -> StackEnd
    ensures { result ≡ end_told why }
{
    match why {
        EndReason::Outermost => StackEnd::Outermost,
        EndReason::NoModule(_) | EndReason::NoDescription(_) | EndReason::UnreadableTable { .. } =>
            StackEnd::NoTable,
        EndReason::Refused {
            error: DeliverError::Unmapped(_),
            ..
        } => StackEnd::Cut,
        EndReason::Refused { .. } => StackEnd::Refused,
        EndReason::Limit => StackEnd::Limit,
    }
}

/// Walks over the modules of a cache's space and an image, from where a thread was interrupted.
/// Registers that were popped there are kept.
fn walk_from<'s, 'c, 't>(
    cache: &mut FrameCache<'c, 't>,
    image: &'s MemoryImage<'s>,
    start: &Context,
    limit: u32,
    room: &mut Room,
) -> WalkMarks
where
    't: 's,
    'c: 's,
    requires within { limit ≤ room.old.limit }
    requires grows { Grows cache.old.image image.now }
    ensures walk { marked_walk room.new.visited result ≡
        walk_from (over_image cache.old image.now) limit start.now }
    ensures same { cache.new ≡ cache.old }
    ensures places { room.new.limit ≡ room.old.limit }
{
    let walk = walk_interrupted_cached(cache, image, start, limit, room);
    WalkMarks {
        end: end_told(walk.why),
        popped: walk.popped,
    }
}

/// Walks over the modules of a cache's space from where a thread was interrupted, over the space's
/// memory and a copy of the thread's stack, whose first byte lies at its stack pointer. A copy that the
/// space's memory leaves no place for isn't looked at. The states stand in the room.
fn walk_thread<'s, 'c, 't>(
    cache: &mut FrameCache<'c, 't>,
    start: &Context,
    stack: &'s [u8],
    limit: u32,
    room: &mut Room,
) -> WalkMarks
where
    't: 's,
    'c: 's,
    requires { limit ≤ room.old.limit }
    ensures walk { marked_walk room.new.visited result ≡
        walk_from (sample_space cache.old start.now stack.now) limit start.now }
    ensures same { cache.new ≡ cache.old }
    ensures places { room.new.limit ≡ room.old.limit }
{
    let space: &'s Space<'t> = cache.space();
    let image: &'s MemoryImage<'s> = space.image();
    match MemoryImage::over(image, start.registers[RSP], stack) {
        Ok(grown) => walk_from(cache, &grown, start, limit, room),
        Err(_) => walk_from(cache, image, start, limit, room),
    }
}

/// Where a thread was interrupted, by the registers of its sample, or why that isn't known.
fn start_of(registers: Option<UserRegisters<'_>>) -> Result<Context, StackEnd>
    ensures { result ≡ start_of (words_of registers.entry) }
{
    match registers {
        Some(registers) if registers.abi() == ABI_64 => Ok(registers.context()),
        Some(_) => Err(StackEnd::Narrow),
        None => Err(StackEnd::NoRegisters),
    }
}

/// Walks a sample over the modules of a cache's space, over the space's memory and the sample's copy of
/// its stack, by the rows that the cache keeps. The states stand in the room, and none where the sample
/// has no start.
pub(crate) fn walk_sample(
    cache: &mut FrameCache<'_, '_>,
    limit: u32,
    sample: &Sample<'_>,
    room: &mut Room,
) -> WalkMarks
    requires { limit ≤ room.old.limit }
    ensures walk { marked_walk room.new.visited result ≡
        walk_of cache.old limit (sample_value sample.now) }
    ensures same { cache.new ≡ cache.old }
    ensures places { room.new.limit ≡ room.old.limit }
{
    match start_of(sample.registers) {
        Ok(start) => walk_thread(cache, &start, sample.stack, limit, room),
        Err(end) => {
            room.clear();
            WalkMarks { end, popped: false }
        }
    }
}
