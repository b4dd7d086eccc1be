// What the threads of a core are walked over.
ghost use Rattle.std.specs.Prelude.{◌≡◌, [], IfOk, OnOk, map};
ghost use Rattle.core_file.specs.Left.{segments_left};
ghost use Rattle.mapped_modules.specs.Loading.{loaded_value};
ghost use Rattle.mapped_modules.specs.Spaces.{space_of_core, tables_of, codes_of, with_module};
ghost use Rattle.mapped_modules.specs.Spaces.{with_modules, with_region, with_regions};

use crate::loading::LoadedModule;
use core_file::{CoreFile, Segments};
use memory_image::{ImageError, MemoryImage};
use stack_steps::{Module, Space, SpaceError};
use std::alloc::{AllocError, Global};

/// Adds a region to an image, where it takes it.
///
/// # Errors
///
/// `AllocError` where memory ran out.
pub fn add_region<'a>(
    image: &mut MemoryImage<'a>,
    address: u64,
    bytes: &'a [u8],
) -> Result<(), AllocError>
    ensures { OnOk result
        (image.new ≡ with_region image.old (record { start = address; bytes = bytes.now })) }
{
    match image.add(address, bytes) {
        Ok(()) => Ok(()),
        Err(ImageError::NoMemory) => Err(AllocError),
        Err(_) => Ok(()),
    }
}

/// The image of the modules' tables, but for those that share an address with an earlier one.
///
/// # Errors
///
/// `AllocError` where memory ran out.
pub fn image_of_tables(
    alloc: Global,
    loaded: &[LoadedModule],
) -> Result<MemoryImage<'_>, AllocError>
    ensures { IfOk result
        (λ image. image ≡ with_regions [] (tables_of (map loaded_value loaded.now))) }
{
    let mut image = MemoryImage::new(alloc);
    for one in loaded {
        add_region(&mut image, one.address, &one.bytes)?;
    }
    Ok(image)
}

/// Adds the segments that the image takes.
fn add_segments<'a>(image: &mut MemoryImage<'a>, segments: Segments<'a>) -> Result<(), AllocError>
    ensures { OnOk result (image.new ≡ with_regions image.old (segments_left segments.entry)) }
{
    let mut segments = segments;
    while let Some((address, bytes)) = segments.next() {
        add_region(image, address, bytes)?;
    }
    Ok(())
}

/// Adds a module to a space, where it takes it.
fn add_module(space: &mut Space<'_>, code: Module) -> Result<(), AllocError>
    ensures { OnOk result (space.new ≡ with_module space.old code) }
{
    match space.add_module(code) {
        Ok(()) => Ok(()),
        Err(SpaceError::NoMemory) => Err(AllocError),
        Err(_) => Ok(()),
    }
}

/// A space over an image, with the modules that it takes.
///
/// # Errors
///
/// `AllocError` where memory ran out.
pub fn space_over<'a>(
    alloc: Global,
    image: MemoryImage<'a>,
    loaded: &[LoadedModule],
) -> Result<Space<'a>, AllocError>
    ensures { IfOk result (λ space. space ≡ with_modules
        (record { image = image.entry; modules = []; added = [] })
        (codes_of (map loaded_value loaded.now))) }
{
    let mut space = Space::new(alloc, image);
    for one in loaded {
        add_module(&mut space, one.code)?;
    }
    Ok(space)
}

/// What the threads of a core are walked over: the tables of its modules, the segments of its memory
/// that share no address with them, and the modules in it, but for those that share an address with an
/// earlier one.
///
/// # Errors
///
/// `AllocError` where memory ran out.
#[tactic(auto, unfolding(crate::specs::Spaces::space_of_core))]
pub fn space_of_core<'a>(
    alloc: Global,
    loaded: &'a [LoadedModule],
    core: &CoreFile<'a>,
) -> Result<Space<'a>, AllocError>
    ensures { IfOk result
        (λ space. space ≡ space_of_core (map loaded_value loaded.now) core.now.segments) }
{
    let mut image = image_of_tables(alloc, loaded)?;
    add_segments(&mut image, core.segments())?;
    space_over(alloc, image, loaded)
}
