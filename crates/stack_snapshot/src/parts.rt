// Snapshots that are made of their parts and not read.
ghost use Rattle.std.specs.Prelude.{◌≡◌};
ghost use Rattle.stack_snapshot.specs.Answers.{Gives};
ghost use Rattle.stack_snapshot.specs.Parts.{content_in, content_if_taken};
ghost use Rattle.stack_snapshot.specs.Snapshot.{if_in_range};

use crate::errors::{Field, SnapshotError};
use crate::snapshot::{Region, Snapshot, taken_modules, taken_regions};
use stack_deliver::{Context, Module, Resumes};
use std::alloc::Global;

/// The parts of a snapshot.
#[derive(Drop)]
pub struct SnapshotParts {
    /// The memory, in the order in which an image takes it.
    pub regions: Vec<Region>,
    /// The modules in it, in the order in which a space takes them.
    pub modules: Vec<Module>,
    /// The registers from which the stack is unwound.
    pub start: Context,
    /// The exception's word, which the handler gets.
    pub exception: u64,
    /// The exception's class.
    pub class: u64,
    /// The return addresses of landing pads.
    pub resumes: Resumes,
    /// The most states of a pass, from 1 to 1,048,576.
    pub limit: u32,
    /// Whether the start stands before its instruction and not after a call.
    pub interrupted: bool,
}

impl SnapshotParts {
    /// The snapshot of these parts.
    ///
    /// # Errors
    ///
    /// In this order: `Bad` with `Regions` where an image refuses a region, with `Modules` where a
    /// space refuses a module, and with `Limit` where the limit is none. `NoMemory` may come in the
    /// place of each answer.
    pub fn into_snapshot(self, alloc: Global) -> Result<Snapshot, SnapshotError>
        ensures { Gives (λ snapshot. snapshot) result (content_if_taken (content_in self)) }
    {
        let SnapshotParts {
            regions,
            modules,
            start,
            exception,
            class,
            resumes,
            limit,
            interrupted,
        } = self;
        let regions = taken_regions(alloc, regions)?;
        let modules = taken_modules(alloc, modules)?;
        let limit = limit_within(limit).ok_or(SnapshotError::Bad(Field::Limit))?;
        Ok(Snapshot {
            regions,
            modules,
            start,
            exception,
            class,
            resumes,
            limit,
            interrupted,
        })
    }
}

/// The limit, where it is one.
fn limit_within(limit: u32) -> Option<u32>
    ensures { result ≡ if_in_range limit }
{
    if 1 <= limit && limit <= 1_048_576 {
        Some(limit)
    } else {
        None
    }
}
