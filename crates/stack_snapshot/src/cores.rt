// Core files with what their threads need to be walked.
ghost use Rattle.std.specs.Prelude.{◌≡◌, ◌⊎◌, IfOk, MatchOption, OnOk, [], true, false};
ghost use Rattle.core_file.specs.Left.{threads_left};
ghost use Rattle.serde_json.specs.View.{view};
ghost use Rattle.stack_snapshot.specs.Answers.{value_of};
ghost use Rattle.stack_snapshot.specs.Content.{image_of, takes_regions};
ghost use Rattle.stack_snapshot.specs.Cores.{core_space_of, threads_of, IsTaken, segments_image};
ghost use Rattle.stack_snapshot.specs.Cores.{taken_core, core_content_in, core_content_of};
ghost use Rattle.stack_snapshot.specs.Cores.{if_taken_after, by_field, GivesCore};
ghost use Rattle.stack_snapshot.specs.Snapshot.{needs};
ghost use Rattle.stack_snapshot.specs.Owned.{spans_of};

use crate::errors::{Field, SnapshotError};
use crate::reading::{
    bytes_at, is_whole, limit_of, listed_modules, listed_regions, lists_of, value_in,
};
use crate::snapshot::{Region, space_of_modules, taken_modules, with_regions};
use core_file::{AddError, CoreError, CoreFile, Threads};
use memory_image::MemoryImage;
use serde_json::Value;
use stack_deliver::{Module, Space};
use std::alloc::{AllocError, AllocFailed, Global};
use std::marker::Model;

/// Why bytes are no core file to be walked.
#[derive(Clone, Copy, Debug, PartialEq, Eq, thiserror::Error)]
pub enum CoreSnapshotError {
    /// A field is faulty, the bytes are no JSON text, or memory ran out.
    #[error("{0}")]
    Snapshot(SnapshotError),
    /// The core's bytes are no core file of x86-64.
    #[error("{0}")]
    Core(CoreError),
    /// An image refuses the segment of this index.
    #[error("an image refuses segment {0}")]
    Region(usize),
}

impl From<SnapshotError> for CoreSnapshotError {
    ghost use Rattle.std.specs.Prelude.{◌≡◌};
    ghost use Rattle.stack_snapshot.specs.declared.cores.CoreSnapshotError.TheVariants.{Snapshot};

    ghost from_gives = { λ error e. e ≡ Snapshot error };

    fn from(error: SnapshotError) -> CoreSnapshotError {
        CoreSnapshotError::Snapshot(error)
    }
}

impl From<CoreError> for CoreSnapshotError {
    ghost use Rattle.std.specs.Prelude.{◌≡◌};
    ghost use Rattle.stack_snapshot.specs.declared.cores.CoreSnapshotError.TheVariants.{Core};

    ghost from_gives = { λ error e. e ≡ Core error };

    fn from(error: CoreError) -> CoreSnapshotError {
        CoreSnapshotError::Core(error)
    }
}

/// A core file, with memory that it lacks, the modules in its memory, and the most states of a walk.
///
/// An image takes its segments and then its regions, and a space its modules, in order.
#[derive(Drop)]
pub struct CoreSnapshot {
    file: Vec<u8>,
    regions: Vec<Region>,
    modules: Vec<Module>,
    limit: u32,
}

impl Model for CoreSnapshot {
    ghost use Rattle.std.specs.Prelude.{◌≡◌, [], true};
    ghost use Rattle.stack_snapshot.specs.Content.{takes_regions, takes_modules};
    ghost use Rattle.stack_snapshot.specs.Cores.{CoreContent, IsTaken, segments_image};
    ghost use Rattle.stack_snapshot.specs.Owned.{spans_of};

    ghost Value = { CoreContent };

    ghost view = { λ s. record {
      file = s.file.items;
      regions = spans_of s.regions.items;
      modules = s.modules.items;
      limit = s.limit;
    } };

    ghost invariant = { λ s. IsTaken s.file.items ×
        (takes_regions (segments_image s.file.items) (spans_of s.regions.items) ≡ true) ×
        (takes_modules [] s.modules.items ≡ true) };
}

impl CoreSnapshot {
    /// The registers of the threads, in the order of the file's notes.
    pub fn threads(&self) -> Threads<'_>
        ensures { threads_left result ≡ threads_of self.now.file }
    {
        let _modules = &self.modules;
        match CoreFile::parse(&self.file) {
            Ok(core) => core.threads(),
            Err(_) => unreachable!(),
        }
    }

    /// The most states of a walk, from 1 to 1,048,576.
    pub fn limit(&self) -> u32
        ensures { result ≡ self.now.limit }
    {
        self.limit
    }

    /// What is unwound: the image of the segments and the regions, with the modules in it.
    ///
    /// # Errors
    ///
    /// `AllocError` where memory ran out.
    pub fn space(&self, alloc: Global) -> Result<Space<'_>, AllocError>
        ensures { IfOk result (λ space. space ≡ core_space_of self.now) }
    {
        let _modules = &self.modules;
        let image = match image_with(alloc, &self.file, &self.regions) {
            Ok(Some(image)) => image,
            Ok(None) => unreachable!(),
            Err(error) => return Err(error),
        };
        match space_of_modules(alloc, image, &self.modules) {
            Ok(Some(space)) => Ok(space),
            Ok(None) => unreachable!(),
            Err(error) => Err(error),
        }
    }
}

/// Whether bytes are a core file whose segments an image takes, or why not.
#[tactic(auto, unfolding(crate::specs::Cores::taken_core))]
fn taken_core(alloc: Global, file: &[u8]) -> Result<(), CoreSnapshotError>
    ensures { GivesCore (λ done. done) result (taken_core file.now) }
{
    let core = CoreFile::parse(file)?;
    let mut image = MemoryImage::new(alloc);
    match core.add_to(&mut image) {
        Ok(()) => Ok(()),
        Err(AddError::NoMemory) => Err(CoreSnapshotError::Snapshot(SnapshotError::NoMemory)),
        Err(AddError::Region(i)) => Err(CoreSnapshotError::Region(i)),
    }
}

/// The image of a core file's segments.
fn image_of_core(alloc: Global, file: &[u8]) -> Result<MemoryImage<'_>, AllocError>
    requires { IsTaken file.now }
    ensures { IfOk result (λ image. image ≡ segments_image file.now) }
{
    let core = match CoreFile::parse(file) {
        Ok(core) => core,
        Err(_) => unreachable!(),
    };
    let mut image = MemoryImage::new(alloc);
    match core.add_to(&mut image) {
        Ok(()) => Ok(image),
        Err(AddError::NoMemory) => Err(AllocError),
        Err(AddError::Region(_)) => unreachable!(),
    }
}

/// The image of the segments and then the regions, if each is taken.
fn image_with<'a>(
    alloc: Global,
    file: &'a [u8],
    regions: &'a [Region],
) -> Result<Option<MemoryImage<'a>>, AllocError>
    requires { IsTaken file.now }
    ensures { IfOk result (λ image. MatchOption image
        (takes_regions (segments_image file.now) (spans_of regions.now) ≡ false)
        (λ image. (takes_regions (segments_image file.now) (spans_of regions.now) ≡ true) ×
        (image ≡ image_of (segments_image file.now) (spans_of regions.now)))) }
{
    with_regions(image_of_core(alloc, file)?, regions)
}

/// The regions, where an image takes them after the segments.
fn regions_after(
    alloc: Global,
    file: &[u8],
    regions: Vec<Region>,
) -> Result<Vec<Region>, CoreSnapshotError>
    requires { IsTaken file.now }
    ensures reads { GivesCore (λ taken. spans_of taken.items) result
        (by_field (needs Field.Regions (if_taken_after file.now (spans_of regions.items)))) }
    ensures taken { IfOk result (λ taken.
        takes_regions (segments_image file.now) (spans_of taken.items) ≡ true) }
{
    let taken = match image_with(alloc, file, &regions) {
        Ok(image) => image.is_some(),
        Err(AllocError) => return Err(CoreSnapshotError::Snapshot(SnapshotError::NoMemory)),
    };
    if taken {
        Ok(regions)
    } else {
        Err(CoreSnapshotError::Snapshot(SnapshotError::Bad(Field::Regions)))
    }
}

/// The core file that a value says, or what refuses it first.
///
/// The long texts and lists are let go as in a snapshot: each field is read before it is tested whether
/// the image takes the memory.
#[tactic(auto, unfolding(crate::specs::Cores::core_content_in, crate::specs::Cores::regions_after, crate::specs::Snapshot::modules_of))]
fn core_snapshot_of(alloc: Global, value: Value) -> Result<CoreSnapshot, CoreSnapshotError>
    ensures { GivesCore (λ snapshot. snapshot) result (core_content_in (view value)) }
{
    if !is_whole(&value) {
        return Err(CoreSnapshotError::Snapshot(SnapshotError::Bad(Field::Object)));
    }
    let file = bytes_at(alloc, &value, "core", Field::Core)?;
    taken_core(alloc, &file)?;
    let limit = limit_of(&value);
    let lists = lists_of(value);
    let regions = listed_regions(alloc, lists.regions)?;
    let modules = listed_modules(alloc, lists.modules);
    let regions = regions_after(alloc, &file, regions)?;
    let modules = taken_modules(alloc, modules?)?;
    let limit = limit.ok_or(SnapshotError::Bad(Field::Limit))?;
    Ok(CoreSnapshot {
        file,
        regions,
        modules,
        limit,
    })
}

/// Reads a core file with what its threads need to be walked.
///
/// # Errors
///
/// In this order: `NotJson` where the bytes are no JSON text; `Bad` with `Object` or `Core` where the value is no
/// object of whole numbers or has no core; `Core` where the core's bytes are no core file; `Region` where an image
/// refuses a segment; and `Bad` with the first faulty field of `Regions`, `Modules` and `Limit`. `NoMemory` may come in
/// the place of each answer.
pub fn read_core_snapshot(alloc: Global, bytes: &[u8]) -> Result<CoreSnapshot, CoreSnapshotError>
    ensures { GivesCore (λ snapshot. snapshot) result (core_content_of bytes.now) }
{
    let value = value_in(alloc, bytes)?;
    core_snapshot_of(alloc, value)
}
