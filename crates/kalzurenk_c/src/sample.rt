// The memory of a sample, laid over that of a session, and what is done over both.
ghost use Rattle.std.specs.Prelude.{◌+◌, ◌<◌, ◌^◌, ℕ, List, length};
ghost use Rattle.memory_image.specs.Results.{result_map};
ghost use Rattle.stack_steps.specs.Growing.{Grows, over_image};
ghost use Rattle.stack_steps.specs.Modules.{SpaceValue};
ghost use Rattle.kalzurenk_c.specs.Given.{image_after, spans_of};
ghost use Rattle.kalzurenk_c.specs.Sessions.{space_over};
ghost use Rattle.kalzurenk_c.specs.Unwindings.{Unwinds};

use crate::given::Region;
use crate::refusal::Refusal;
use crate::sizes::REGION_SIZE;
use memory_image::MemoryImage;
use stack_steps::{GrownSpace, Space};

/// What is done over the modules of a space: a walk of a stack, or a delivery to one.
pub(crate) trait Unwinding {
    /// What it writes in a list: frames, or cleanups.
    type Entry;

    /// What it writes beside the list: how it ends.
    type Ending;

    /// A list with so many places is long enough.
    ghost fits: { Self → ℕ → Type 0 };

    /// What it leaves over a space in such a list, which was so before, and as its ending.
    ghost leaves: { Self → SpaceValue → List Self.Entry → List Self.Entry → Self.Ending →
        Type 0 };

    /// Does it over a space.
    fn unwind(
        &mut self,
        space: &GrownSpace<'_, 'static, '_>,
        entries: &mut [Self::Entry],
        ending: &mut Self::Ending,
    )
        requires { fits self.old (length entries.old) }
        ensures { leaves self.old space.now entries.old entries.new ending.new };
}

/// Walks or delivers over the modules of a space, and over its memory with these regions beside it.
/// Where one of them isn't taken, nothing is written. No memory is taken for them.
pub(crate) fn unwind_sample<'s, U: Unwinding>(
    space: &'s Space<'static>,
    regions: &[Region<'_>],
    unwinding: &mut U,
    entries: &mut [U::Entry],
    ending: &mut U::Ending,
) -> Result<(), Refusal>
    requires { U.fits unwinding.old (length entries.old) }
    ensures { Unwinds (U.leaves unwinding.old) result
        (space_over space.now (spans_of regions.now))
        entries.old entries.new ending.old ending.new }
{
    let image: &'s MemoryImage<'s> = space.image();
    unwind_over(&*space, image, 0, regions, unwinding, entries, ending)
}

/// The same over a space that is seen over an image which maps what the space's own does, with regions
/// of which the first is at a place of its list. Each is laid over the image before it.
fn unwind_over<'i, U: Unwinding>(
    space: &Space<'static>,
    image: &'i MemoryImage<'i>,
    place: u64,
    regions: &[Region<'_>],
    unwinding: &mut U,
    entries: &mut [U::Entry],
    ending: &mut U::Ending,
) -> Result<(), Refusal>
    requires grown { Grows space.now.image image.now }
    requires bounded { place + length regions.now < 2 ^ 64 }
    requires fits { U.fits unwinding.old (length entries.old) }
    ensures { Unwinds (U.leaves unwinding.old) result
        (result_map (over_image space.now) (image_after place image.now (spans_of regions.now)))
        entries.old entries.new ending.old ending.new }
{
    let Some((region, later)) = regions.split_first() else {
        let grown = GrownSpace::new(&*space, &*image);
        unwinding.unwind(&grown, entries, ending);
        return Ok(());
    };
    if region.size != REGION_SIZE {
        return Err(Refusal::RegionSize(place));
    }
    match MemoryImage::over(&*image, region.address, &*region.bytes) {
        Ok(over) => unwind_over(space, &over, place + 1, later, unwinding, entries, ending),
        Err(error) => Err(Refusal::Region(place, error)),
    }
}
