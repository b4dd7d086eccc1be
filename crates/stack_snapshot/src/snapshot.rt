// A snapshot: memory by regions, the modules in it, and a delivery to make.
ghost use Rattle.std.specs.Prelude.{◌≡◌, IfOk, MatchOption, map, option_map, true, false, []};
ghost use Rattle.stack_steps.specs.Modules.{without_index};
ghost use Rattle.stack_snapshot.specs.Answers.{Gives};
ghost use Rattle.stack_snapshot.specs.Content.{image_of, modules_after, space_of, space_with};
ghost use Rattle.stack_snapshot.specs.Content.{takes_modules, takes_regions};
ghost use Rattle.stack_snapshot.specs.Owned.{span_of, spans_of};
ghost use Rattle.stack_snapshot.specs.Ranges.{each_in, module_range, region_range};
ghost use Rattle.stack_snapshot.specs.Snapshot.{needs, if_taken, if_space_takes};

use crate::errors::{Field, SnapshotError};
use crate::ranges::{AddressRange, are_disjoint};
use memory_image::{ImageError, MemoryImage};
use stack_deliver::{Context, Module, Resumes, Space, SpaceError};
use std::alloc::{AllocError, Global};
use std::marker::Model;

/// Bytes that lie at an address and after it.
#[derive(Drop)]
pub struct Region {
    pub address: u64,
    pub bytes: Vec<u8>,
}

/// A stack with what belongs to it: memory, the modules in it, and a delivery to make.
///
/// Its regions are accepted by an image and its modules by a space, in order.
#[derive(Drop)]
pub struct Snapshot {
    pub(crate) regions: Vec<Region>,
    pub(crate) modules: Vec<Module>,
    pub(crate) start: Context,
    pub(crate) exception: u64,
    pub(crate) class: u64,
    pub(crate) resumes: Resumes,
    pub(crate) limit: u32,
    pub(crate) interrupted: bool,
}

impl Model for Snapshot {
    ghost use Rattle.std.specs.Prelude.{◌≡◌, [], true};
    ghost use Rattle.stack_snapshot.specs.Content.{Content, takes_regions, takes_modules};
    ghost use Rattle.stack_snapshot.specs.Owned.{spans_of};

    ghost Value = { Content };

    ghost view = { λ s. record {
      regions = spans_of s.regions.items;
      modules = s.modules.items;
      start = s.start;
      exception
          = s.exception;
      class = s.class;
      resumes = s.resumes;
      limit = s.limit;
      interrupted =
          s.interrupted;
    } };

    ghost invariant = { λ s. (takes_regions [] (spans_of s.regions.items) ≡ true) ×
        (takes_modules [] s.modules.items ≡ true) };
}

impl Snapshot {
    /// The modules, in the order in which they were listed.
    pub fn modules(&self) -> &[Module]
        ensures { result.now ≡ self.now.modules }
    {
        &self.modules
    }

    /// The registers from which the stack is unwound.
    pub fn start(&self) -> Context
        ensures { result ≡ self.now.start }
    {
        self.start
    }

    /// The exception's word, which the handler gets.
    pub fn exception(&self) -> u64
        ensures { result ≡ self.now.exception }
    {
        self.exception
    }

    /// The exception's class.
    pub fn class(&self) -> u64
        ensures { result ≡ self.now.class }
    {
        self.class
    }

    /// The return addresses of landing pads.
    pub fn resumes(&self) -> &Resumes
        ensures { result.now ≡ self.now.resumes }
    {
        &self.resumes
    }

    /// The most states of a pass, from 1 to 1,048,576.
    pub fn limit(&self) -> u32
        ensures { result ≡ self.now.limit }
    {
        self.limit
    }

    /// Whether the start stands before its instruction and not after a call.
    pub fn interrupted(&self) -> bool
        ensures { result ≡ self.now.interrupted }
    {
        self.interrupted
    }

    /// What is unwound: the image of the regions, with the modules in it.
    ///
    /// # Errors
    ///
    /// `AllocError` where memory ran out.
    pub fn space(&self, alloc: Global) -> Result<Space<'_>, AllocError>
        ensures { IfOk result (λ space. space ≡ space_of self.now) }
    {
        space_with(alloc, &self.regions, &self.modules)
    }
}

/// The image of regions, with modules in it, each of which is taken.
pub(crate) fn space_with<'a>(
    alloc: Global,
    regions: &'a [Region],
    modules: &[Module],
) -> Result<Space<'a>, AllocError>
    requires regions { takes_regions [] (spans_of regions.now) ≡ true }
    requires modules { takes_modules [] modules.now ≡ true }
    ensures { IfOk result (λ space. space ≡ space_with (spans_of regions.now) modules.now) }
{
    let image = match image_of_regions(alloc, regions) {
        Ok(Some(image)) => image,
        Ok(None) => unreachable!(),
        Err(error) => return Err(error),
    };
    match space_of_modules(alloc, image, modules) {
        Ok(Some(space)) => Ok(space),
        Ok(None) => unreachable!(),
        Err(error) => Err(error),
    }
}

/// The image of the regions, if each is taken.
pub(crate) fn image_of_regions(
    alloc: Global,
    regions: &[Region],
) -> Result<Option<MemoryImage<'_>>, AllocError>
    ensures { IfOk result (λ image. MatchOption image
        (takes_regions [] (spans_of regions.now) ≡ false)
        (λ image. (takes_regions [] (spans_of regions.now) ≡ true) ×
        (image ≡ image_of [] (spans_of regions.now)))) }
{
    with_regions(MemoryImage::new(alloc), regions)
}

/// The image with these regions too, if each is taken.
pub(crate) fn with_regions<'a>(
    image: MemoryImage<'a>,
    regions: &'a [Region],
) -> Result<Option<MemoryImage<'a>>, AllocError>
    ensures { IfOk result (λ new. MatchOption new
        (takes_regions image.entry (spans_of regions.now) ≡ false)
        (λ new. (takes_regions image.entry (spans_of regions.now) ≡ true) ×
        (new ≡ image_of image.entry (spans_of regions.now)))) }
{
    let mut image = image;
    for region in regions {
        match image.add(region.address, &region.bytes) {
            Ok(()) => {}
            Err(ImageError::NoMemory) => return Err(AllocError),
            Err(_) => return Ok(None),
        }
    }
    Ok(Some(image))
}

/// The space of the modules, if each is taken.
pub(crate) fn space_of_modules<'a>(
    alloc: Global,
    image: MemoryImage<'a>,
    modules: &[Module],
) -> Result<Option<Space<'a>>, AllocError>
    ensures { IfOk result (λ space. MatchOption space (takes_modules [] modules.now ≡ false)
        (λ space. (takes_modules [] modules.now ≡ true) ×
        (space ≡ record {
          image = image.entry;
          modules = modules_after [] modules.now;
          added = map without_index modules.now;
        }))) }
{
    let mut space = Space::new(alloc, image);
    for module in modules {
        match space.add_module(*module) {
            Ok(()) => {}
            Err(SpaceError::NoMemory) => return Err(AllocError),
            Err(_) => return Ok(None),
        }
    }
    Ok(Some(space))
}

/// The addresses of a region, where an image may take it.
fn region_range(region: &Region) -> Option<AddressRange>
    ensures { result ≡ region_range (span_of region.now) }
{
    let first = region.address;
    let rest = region.bytes.len().checked_sub(1)?;
    let last = first.checked_add(rest as u64)?;
    Some(AddressRange { first, last })
}

/// The addresses of each region.
fn region_ranges(alloc: Global, regions: &[Region]) -> Result<Option<Vec<AddressRange>>, AllocError>
    ensures { IfOk result (λ ranges. option_map (λ ranges. ranges.items) ranges ≡
        each_in region_range (spans_of regions.now)) }
{
    let mut ranges = Vec::with_capacity(alloc, regions.len())?;
    for region in regions {
        match region_range(region) {
            Some(range) => ranges.push(range)?,
            None => return Ok(None),
        }
    }
    Ok(Some(ranges))
}

/// Whether an image takes the regions in their order. None is made for that.
fn takes_regions(alloc: Global, regions: &[Region]) -> Result<bool, AllocError>
    ensures { IfOk result (λ takes. takes ≡ takes_regions [] (spans_of regions.now)) }
{
    match region_ranges(alloc, regions)? {
        Some(ranges) => are_disjoint(ranges),
        None => Ok(false),
    }
}

/// The addresses of a module, where a space may take it.
fn module_range(module: Module) -> Option<AddressRange>
    ensures { result ≡ module_range «module» }
{
    let Module { start, end, tables } = module;
    if start < end && tables.fits(end - start) {
        Some(AddressRange {
            first: start,
            last: end - 1,
        })
    } else {
        None
    }
}

/// The addresses of each module.
fn module_ranges(alloc: Global, modules: &[Module]) -> Result<Option<Vec<AddressRange>>, AllocError>
    ensures { IfOk result (λ ranges. option_map (λ ranges. ranges.items) ranges ≡
        each_in module_range modules.now) }
{
    let mut ranges = Vec::with_capacity(alloc, modules.len())?;
    for module in modules {
        match module_range(*module) {
            Some(range) => ranges.push(range)?,
            None => return Ok(None),
        }
    }
    Ok(Some(ranges))
}

/// Whether a space takes the modules in their order. None is made for that.
fn takes_modules(alloc: Global, modules: &[Module]) -> Result<bool, AllocError>
    ensures { IfOk result (λ takes. takes ≡ takes_modules [] modules.now) }
{
    match module_ranges(alloc, modules)? {
        Some(ranges) => are_disjoint(ranges),
        None => Ok(false),
    }
}

/// The regions, where an image takes them in their order.
pub(crate) fn taken_regions(
    alloc: Global,
    regions: Vec<Region>,
) -> Result<Vec<Region>, SnapshotError>
    ensures reads { Gives (λ taken. spans_of taken.items) result
        (needs Field.Regions (if_taken (spans_of regions.items))) }
    ensures taken { IfOk result (λ taken. takes_regions [] (spans_of taken.items) ≡ true) }
{
    if takes_regions(alloc, &regions)? {
        Ok(regions)
    } else {
        Err(SnapshotError::Bad(Field::Regions))
    }
}

/// The modules, where a space takes them in their order.
pub(crate) fn taken_modules(
    alloc: Global,
    modules: Vec<Module>,
) -> Result<Vec<Module>, SnapshotError>
    ensures reads { Gives (λ taken. taken.items) result
        (needs Field.Modules (if_space_takes modules.items)) }
    ensures taken { IfOk result (λ taken. takes_modules [] taken.items ≡ true) }
{
    if takes_modules(alloc, &modules)? {
        Ok(modules)
    } else {
        Err(SnapshotError::Bad(Field::Modules))
    }
}
