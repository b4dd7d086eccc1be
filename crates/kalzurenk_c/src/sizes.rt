// How many bytes the structs of `kalzurenk.h` have. A caller writes the size of each first, as it was
// compiled: so a struct can grow, and one of another version is refused.
ghost use Rattle.std.specs.Prelude.{◌≡◌, Ok};
ghost use Rattle.kalzurenk_c.specs.Sizes.{place_sized, walk_sized};

use crate::given::Registers;
use crate::refusal::{Place, Refusal};
use crate::told::WalkEnd;

/// The size of a region.
pub(crate) const REGION_SIZE: u64 = 32;
/// The size of a module.
pub(crate) const MODULE_SIZE: u64 = 48;
/// The size of the registers of a thread.
pub(crate) const REGISTERS_SIZE: u64 = 144;
/// The size of a frame.
pub(crate) const FRAME_SIZE: u64 = 72;
/// The size of a walk's end.
pub(crate) const END_SIZE: u64 = 48;
/// The size of the place of what is faulty.
pub(crate) const PLACE_SIZE: u64 = 24;

/// The size of what is thrown.
pub(crate) const THROW_SIZE: u64 = 24;
/// The size of a pair of a landing pad and a return address.
pub(crate) const RESUME_SIZE: u64 = 24;
/// The size of a cleanup.
pub(crate) const CLEANUP_SIZE: u64 = 16;
/// The size of what is told of a delivery.
pub(crate) const DELIVERY_SIZE: u64 = 184;

/// Whether the size is known of the place of what is faulty.
pub(crate) fn place_sized(place: &Place) -> Result<(), Refusal>
    ensures { result ≡ place_sized place.now.size (Ok tt) }
{
    if place.size != PLACE_SIZE {
        return Err(Refusal::PlaceSize);
    }
    Ok(())
}

/// Whether the sizes are known of what a walk starts from and is told in.
pub(crate) fn walk_sized(start: &Registers, end: &WalkEnd, place: &Place) -> Result<(), Refusal>
    ensures { result ≡ walk_sized place.now.size start.now.size end.now.size end.now.frame_size
        (Ok tt) }
{
    place_sized(place)?;
    if start.size != REGISTERS_SIZE {
        return Err(Refusal::RegistersSize);
    }
    if end.size != END_SIZE {
        return Err(Refusal::EndSize);
    }
    if end.frame_size != FRAME_SIZE {
        return Err(Refusal::FrameSize);
    }
    Ok(())
}
