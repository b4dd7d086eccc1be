// Memory with modules in it, beside which a value says more.
ghost use Rattle.std.specs.Prelude.{◌≡◌, [], IfOk};
ghost use Rattle.serde_json.specs.View.{view};
ghost use Rattle.stack_snapshot.specs.Answers.{Gives};
ghost use Rattle.stack_snapshot.specs.Content.{image_of};
ghost use Rattle.stack_snapshot.specs.Memory.{memory_of};

use crate::errors::{Field, SnapshotError};
use crate::reading::{is_whole, listed_modules, listed_regions, lists_of};
use crate::snapshot::{Region, image_of_regions, taken_modules, taken_regions};
use memory_image::MemoryImage;
use serde_json::Value;
use stack_deliver::Module;
use std::alloc::{AllocError, Global};
use std::marker::Model;

/// Memory, and the modules in it.
///
/// Its regions are accepted by an image and its modules by a space, in order.
#[derive(Drop)]
pub struct MemorySnapshot {
    regions: Vec<Region>,
    modules: Vec<Module>,
}

impl Model for MemorySnapshot {
    ghost use Rattle.std.specs.Prelude.{◌≡◌, [], true};
    ghost use Rattle.stack_snapshot.specs.Content.{takes_regions, takes_modules};
    ghost use Rattle.stack_snapshot.specs.Memory.{MemoryContent};
    ghost use Rattle.stack_snapshot.specs.Owned.{spans_of};

    ghost Value = { MemoryContent };

    ghost view = { λ s. record { regions = spans_of s.regions.items; modules = s.modules.items } };

    ghost invariant = { λ s. (takes_regions [] (spans_of s.regions.items) ≡ true) ×
        (takes_modules [] s.modules.items ≡ true) };
}

impl MemorySnapshot {
    /// The modules, in the order in which they were listed.
    pub fn modules(&self) -> &[Module]
        ensures { result.now ≡ self.now.modules }
    {
        &self.modules
    }

    /// The image of the regions.
    ///
    /// # Errors
    ///
    /// `AllocError` where memory ran out.
    pub fn image(&self, alloc: Global) -> Result<MemoryImage<'_>, AllocError>
        ensures { IfOk result (λ image. image ≡ image_of [] self.now.regions) }
    {
        match image_of_regions(alloc, &self.regions) {
            Ok(Some(image)) => Ok(image),
            Ok(None) => unreachable!(),
            Err(error) => Err(error),
        }
    }
}

/// The memory and the modules that a value says, which is let go before it is tested whether they
/// are taken.
///
/// # Errors
///
/// `Bad` with the first faulty field: `Object`, `Regions` or `Modules`. `NoMemory` may come in the
/// place of each answer.
#[tactic(auto, unfolding(crate::specs::Memory::memory_of, crate::specs::Snapshot::regions_of, crate::specs::Snapshot::modules_of))]
pub fn memory_of(alloc: Global, value: Value) -> Result<MemorySnapshot, SnapshotError>
    ensures { Gives (λ memory. memory) result (memory_of (view value)) }
{
    if !is_whole(&value) {
        return Err(SnapshotError::Bad(Field::Object));
    }
    let lists = lists_of(value);
    let regions = listed_regions(alloc, lists.regions)?;
    let modules = listed_modules(alloc, lists.modules);
    Ok(MemorySnapshot {
        regions: taken_regions(alloc, regions)?,
        modules: taken_modules(alloc, modules?)?,
    })
}
