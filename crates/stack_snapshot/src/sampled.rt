// Samples of stacks over one memory.
ghost use Rattle.std.specs.Prelude.{◌≡◌, ◌⊎◌, ◌≤◌, IfOk, IfSome, Err, option_and_then};
ghost use Rattle.serde_json.specs.View.{view, items_view};
ghost use Rattle.stack_snapshot.specs.Answers.{Gives};
ghost use Rattle.stack_snapshot.specs.Sampled.{depth_of, if_few, sample_list, sample_of, sampled_in};
ghost use Rattle.stack_snapshot.specs.Sampled.{sampled_of, sampled_space, samples_of};
ghost use Rattle.stack_snapshot.specs.Snapshot.{needs};

use crate::errors::{Field, SnapshotError};
use crate::fields::number_at;
use crate::reading::{
    interrupted_of, is_whole, listed_modules, listed_regions, lists_of, start_of, value_in,
};
use crate::snapshot::{Region, space_with, taken_modules, taken_regions};
use folded_stacks::{Sample, Samples};
use serde_json::Value;
use stack_deliver::{Module, Space};
use std::alloc::{AllocError, Global};
use std::marker::Model;

/// Samples of stacks: memory, the modules in it, and threads that were stopped.
///
/// Its regions are accepted by an image and its modules by a space, in order.
#[derive(Drop)]
pub struct SampledSnapshot {
    regions: Vec<Region>,
    modules: Vec<Module>,
    samples: Samples,
    limit: u32,
}

impl Model for SampledSnapshot {
    ghost use Rattle.std.specs.Prelude.{◌≡◌, ◌≤◌, [], true};
    ghost use Rattle.stack_snapshot.specs.Content.{takes_regions, takes_modules};
    ghost use Rattle.stack_snapshot.specs.Owned.{spans_of};
    ghost use Rattle.stack_snapshot.specs.Sampled.{SampledContent};

    ghost Value = { SampledContent };

    ghost view = { λ s. record {
      regions = spans_of s.regions.items;
      modules = s.modules.items;
      samples = s.samples;
      limit = s.limit;
    } };

    ghost invariant = { λ s. (takes_regions [] (spans_of s.regions.items) ≡ true) ×
        (takes_modules [] s.modules.items ≡ true) × (1 ≤ s.limit) × (s.limit ≤ 1024) };
}

impl SampledSnapshot {
    /// The threads that were stopped.
    pub fn samples(&self) -> &Samples
        ensures { result.now ≡ self.now.samples }
    {
        &self.samples
    }

    /// The most states of a walk, from 1 to 1,024.
    pub fn limit(&self) -> u32
        ensures value { result ≡ self.now.limit }
        ensures some { 1 ≤ result }
        ensures most { result ≤ 1024 }
    {
        self.limit
    }

    /// What is walked: the image of the regions, with the modules in it.
    ///
    /// # Errors
    ///
    /// `AllocError` where memory ran out.
    pub fn space(&self, alloc: Global) -> Result<Space<'_>, AllocError>
        ensures { IfOk result (λ space. space ≡ sampled_space self.now) }
    {
        space_with(alloc, &self.regions, &self.modules)
    }
}

/// The sample that an object says.
fn sample_of(value: &Value) -> Option<Sample>
    ensures { result ≡ sample_of (view value.now) }
{
    let start = start_of(value)?;
    let interrupted = interrupted_of(value)?;
    Some(Sample { start, interrupted })
}

/// Each item a sample.
fn sample_list(alloc: Global, items: &[Value]) -> Result<Samples, SnapshotError>
    ensures { Gives (λ samples. samples) result
        (needs Field.Samples (option_and_then if_few (sample_list (items_view items.now)))) }
{
    let mut samples = Samples::new(alloc);
    for item in items {
        let sample = sample_of(item).ok_or(SnapshotError::Bad(Field::Samples))?;
        if !samples.add(sample.start, sample.interrupted)? {
            return Err(SnapshotError::Bad(Field::Samples));
        }
    }
    Ok(samples)
}

/// The samples that are listed.
#[tactic(auto, unfolding(crate::specs::Sampled::samples_of))]
fn samples_of(alloc: Global, value: &Value) -> Result<Samples, SnapshotError>
    ensures { Gives (λ samples. samples) result
        (needs Field.Samples (samples_of (view value.now))) }
{
    match value.get("samples").and_then(Value::as_array) {
        Some(items) => sample_list(alloc, items),
        None => Err(SnapshotError::Bad(Field::Samples)),
    }
}

/// The most states of a walk.
#[tactic(auto, unfolding(crate::specs::Sampled::depth_of))]
fn depth_of(value: &Value) -> Option<u32>
    ensures value { result ≡ depth_of (view value.now) }
    ensures bounds { IfSome result (λ limit. (1 ≤ limit) × (limit ≤ 1024)) }
{
    let limit = number_at(value, "limit")?;
    if 1 <= limit && limit <= 1_024 {
        Some(limit as u32)
    } else {
        None
    }
}

/// The samples that a value says, or its first faulty field. As of a snapshot, each field is read
/// before it is tested whether the long lists are taken.
///
/// # Errors
///
/// `Bad` with the first faulty field. `NoMemory` may come in the place of each answer.
#[tactic(auto, unfolding(crate::specs::Sampled::sampled_of, crate::specs::Snapshot::regions_of, crate::specs::Snapshot::modules_of))]
pub fn sampled_of(alloc: Global, value: Value) -> Result<SampledSnapshot, SnapshotError>
    ensures { Gives (λ snapshot. snapshot) result (sampled_of (view value)) }
{
    if !is_whole(&value) {
        return Err(SnapshotError::Bad(Field::Object));
    }
    let samples = samples_of(alloc, &value);
    let limit = depth_of(&value);
    let lists = lists_of(value);
    let regions = listed_regions(alloc, lists.regions)?;
    let modules = listed_modules(alloc, lists.modules);
    Ok(SampledSnapshot {
        regions: taken_regions(alloc, regions)?,
        modules: taken_modules(alloc, modules?)?,
        samples: samples?,
        limit: limit.ok_or(SnapshotError::Bad(Field::Limit))?,
    })
}

/// Reads samples of stacks over one memory.
///
/// # Errors
///
/// In this order: `NotJson` where the bytes are no JSON text, `Bad` with the first faulty field
/// where the value is none of samples. `NoMemory` may come in the place of each answer.
pub fn read_sampled_snapshot(alloc: Global, bytes: &[u8]) -> Result<SampledSnapshot, SnapshotError>
    ensures reads { (result ≡ Err SnapshotError.NoMemory) ⊎ (result ≡ sampled_in bytes.now) }
{
    let value = value_in(alloc, bytes)?;
    sampled_of(alloc, value)
}
