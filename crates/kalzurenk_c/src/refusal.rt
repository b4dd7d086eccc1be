// Why what was handed in isn't taken.
ghost use Rattle.std.specs.Prelude.{◌≡◌, ◌≢◌, MatchResult};
ghost use Rattle.kalzurenk_c.specs.declared.refusal.Refusal.{Refusal};
ghost use Rattle.kalzurenk_c.specs.Refusals.{module_refusal, place_after, place_of, region_refusal};
ghost use Rattle.kalzurenk_c.specs.Refusals.{status_of};

use crate::sizes::PLACE_SIZE;
use memory_image::ImageError;
use stack_steps::SpaceError;

/// What is faulty of what was handed in.
#[repr(C)]
#[derive(Clone, Copy, Drop)]
pub struct Place {
    /// How many bytes this struct has.
    pub size: u64,
    /// The place of the region, the module or the pair in its list; 0 for what stands in no list.
    pub index: u64,
    /// Where it shares an address with earlier ones, the lowest start of these; else 0.
    pub address: u64,
}

/// Why what was handed in isn't taken.
#[derive(Clone, Copy, Debug, Drop)]
pub enum Refusal {
    /// Memory ran out.
    NoMemory,
    /// The region at this place isn't taken by the image.
    Region(u64, ImageError),
    /// The module at this place isn't taken by the space.
    Module(u64, SpaceError),
    /// The format of the module at this place isn't known, or it is a PE module one of whose numbers
    /// has more than 32 bits.
    Format(u64),
    /// The size of the region at this place isn't that of a region.
    RegionSize(u64),
    /// The size of the module at this place isn't that of a module.
    ModuleSize(u64),
    /// The size of the registers isn't known.
    RegistersSize,
    /// The size of the end isn't known.
    EndSize,
    /// The size of a frame, as the end has it, isn't known.
    FrameSize,
    /// The size of what is thrown isn't known.
    ThrowSize,
    /// The size of the pair at this place of the resume table isn't known.
    ResumeSize(u64),
    /// The size of what is told of a delivery isn't known.
    DeliverySize,
    /// The size of a cleanup, as what is told of a delivery has it, isn't known.
    CleanupSize,
    /// The size of the place that tells what is faulty isn't known.
    PlaceSize,
}

impl Refusal {
    /// Its number, as the header `kalzurenk.h` names it.
    fn status(&self) -> u32
        ensures { result ≡ status_of self.now }
    {
        match self {
            Refusal::NoMemory
            | Refusal::Region(_, ImageError::NoMemory)
            | Refusal::Module(_, SpaceError::NoMemory) => 1,
            Refusal::Region(_, ImageError::Empty) => 2,
            Refusal::Region(_, ImageError::Wraps) => 3,
            Refusal::Region(_, ImageError::Overlap(_)) => 4,
            Refusal::Format(_) => 5,
            Refusal::Module(_, SpaceError::Wraps) => 6,
            Refusal::Module(_, SpaceError::Overlap(_)) => 7,
            Refusal::RegionSize(_) => 8,
            Refusal::ModuleSize(_) => 9,
            Refusal::RegistersSize => 10,
            Refusal::EndSize => 11,
            Refusal::FrameSize => 12,
            Refusal::PlaceSize => 13,
            Refusal::ThrowSize => 14,
            Refusal::ResumeSize(_) => 15,
            Refusal::DeliverySize => 16,
            Refusal::CleanupSize => 17,
        }
    }

    /// What is faulty.
    fn place(&self) -> Place
        ensures { result ≡ place_of self.now }
    {
        let (index, address) = match self {
            Refusal::Region(index, ImageError::Overlap(start)) => (*index, *start),
            Refusal::Module(index, SpaceError::Overlap(start)) => (*index, *start),
            Refusal::Region(index, _) | Refusal::Module(index, _) => (*index, 0),
            Refusal::Format(index)
            | Refusal::RegionSize(index)
            | Refusal::ModuleSize(index)
            | Refusal::ResumeSize(index) => (*index, 0),
            _ => (0, 0),
        };
        Place {
            size: PLACE_SIZE,
            index,
            address,
        }
    }

    /// Tells what is faulty in its place, unless the size of the place isn't known, and answers the
    /// number.
    pub(crate) fn told(&self, place: &mut Place) -> u32
        ensures status { result ≡ status_of self.now }
        ensures place { place.new ≡ place_after self.now place.old }
    {
        if !matches!(self, Refusal::PlaceSize) {
            *place = self.place();
        }
        self.status()
    }
}

/// Why the region at a place isn't taken.
pub(crate) fn region_refusal(place: u64, error: ImageError) -> Refusal
    ensures { result ≡ region_refusal place error }
{
    match error {
        ImageError::NoMemory => Refusal::NoMemory,
        error => Refusal::Region(place, error),
    }
}

/// Why the module at a place isn't taken.
pub(crate) fn module_refusal(place: u64, error: SpaceError) -> Refusal
    ensures { result ≡ module_refusal place error }
{
    match error {
        SpaceError::NoMemory => Refusal::NoMemory,
        error => Refusal::Module(place, error),
    }
}

/// The status of a call, and the place of what is faulty, where something is.
pub(crate) fn answered(told: Result<(), Refusal>, place: &mut Place) -> u32
    ensures { MatchResult told (λ _. (result ≡ 0) × (place.new ≡ place.old))
        (λ refusal. (result ≡ status_of refusal) × (place.new ≡ place_after refusal place.old)) }
{
    match told {
        Ok(()) => 0,
        Err(refusal) => refusal.told(place),
    }
}

/// A caller can tell refusals apart: no two of them have the same status and place, but for those where
/// memory ran out. The function does nothing.
pub fn refusals_are_told_apart()
    ensures apart { (a b : Refusal) → status_of a ≢ status_of Refusal.NoMemory →
        status_of a ≡ status_of b → place_of a ≡ place_of b → a ≡ b }
    ensures refused { (a : Refusal) → status_of a ≢ 0 }
{}
