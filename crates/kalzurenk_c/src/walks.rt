// One walk over what is handed in.
ghost use Rattle.std.specs.Prelude.{◌≡◌, length};
ghost use Rattle.kalzurenk_c.specs.Given.{space_given, start_given};
ghost use Rattle.kalzurenk_c.specs.Sizes.{walk_sized};
ghost use Rattle.kalzurenk_c.specs.Told.{TellsUnlessNoMemory, WalksOver, frame_limit};

use crate::given::{GivenModule, Region, Registers, space_of, start_of};
use crate::outward::{WalkStart, write_walk};
use crate::refusal::{Place, Refusal, answered};
use crate::sizes::walk_sized;
use crate::told::{StackFrame, WalkEnd, frame_limit};
use std::alloc::Global;

/// Walks over what is handed in, and tells the frames and their end. Nothing is told otherwise.
fn walk_given(
    alloc: Global,
    regions: &[Region<'_>],
    modules: &[GivenModule],
    start: &Registers,
    interrupted: bool,
    frames: &mut [StackFrame],
    end: &mut WalkEnd,
) -> Result<(), Refusal>
    ensures { WalksOver result (space_given regions.now modules.now)
        (frame_limit (length frames.old)) (start_given start.now interrupted)
        frames.old frames.new end.old end.new }
{
    let space = space_of(alloc, regions, modules)?;
    let start = WalkStart {
        state: start_of(start, interrupted),
        limit: frame_limit(frames),
    };
    write_walk(&space.over_own_image(), &start, frames, end);
    Ok(())
}

/// The same where each size is known.
fn walk_sized_given(
    alloc: Global,
    regions: &[Region<'_>],
    modules: &[GivenModule],
    start: &Registers,
    interrupted: bool,
    frames: &mut [StackFrame],
    end: &mut WalkEnd,
    place: &Place,
) -> Result<(), Refusal>
    ensures { WalksOver result
        (walk_sized place.now.size start.now.size end.old.size end.old.frame_size
        (space_given regions.now modules.now))
        (frame_limit (length frames.old)) (start_given start.now interrupted)
        frames.old frames.new end.old end.new }
{
    walk_sized(start, end, place)?;
    walk_given(alloc, regions, modules, start, interrupted, frames, end)
}

/// Walks the stack of a stopped thread as far as it goes, at most so many frames as there are
/// places, and tells why there are no more.
///
/// `regions` is memory: the thread's stack, and the tables of its modules; none of them is empty,
/// and no two share an address. `interrupted` says that the thread stands before the instruction at
/// `start.ip`, and not after a call. The number that is answered is a status: 0 where the frames and
/// their end are told; 1 where memory ran out; else why the regions or modules aren't taken, or the
/// size of which struct isn't known, and `place` says which. Frames and end are as before, unless it
/// is 0. So is `place`, where it is 0, or the size of `place` isn't known.
#[unsafe(no_mangle)]
pub extern "C" fn kz_walk(
    alloc: Global,
    regions: &[Region<'_>],
    modules: &[GivenModule],
    start: &Registers,
    interrupted: bool,
    frames: &mut [StackFrame],
    end: &mut WalkEnd,
    place: &mut Place,
) -> u32
    ensures { TellsUnlessNoMemory
        (walk_sized place.old.size start.now.size end.old.size end.old.frame_size
        (space_given regions.now modules.now))
        (frame_limit (length frames.old)) (start_given start.now interrupted)
        (record { status = 0; frames = frames.old; end = end.old; place = place.old })
        (record { status = result; frames = frames.new; end = end.new; place = place.new }) }
{
    let told = walk_sized_given(
        alloc,
        regions,
        modules,
        start,
        interrupted,
        frames,
        end,
        place,
    );
    answered(told, place)
}
