// Snapshots with what the languages on their stacks ask about an exception.
ghost use Rattle.std.specs.Prelude.{◌≡◌, ◌⊎◌, Err};
ghost use Rattle.serde_json.specs.View.{view, items_view};
ghost use Rattle.stack_steps.specs.Languages.{languages_of};
ghost use Rattle.stack_snapshot.specs.Answers.{Gives};
ghost use Rattle.stack_snapshot.specs.Snapshot.{needs};
ghost use Rattle.stack_snapshot.specs.Thrown.{foreign_of, kind_of, languages_in, runtime_named};
ghost use Rattle.stack_snapshot.specs.Thrown.{runtime_of, thrown_in, thrown_of, word_list, words_at};

use crate::errors::{Field, SnapshotError};
use crate::fields::as_word;
use crate::reading::{snapshot_of, value_in};
use crate::snapshot::Snapshot;
use serde_json::Value;
use stack_deliver::{CxxRuntime, Exception, ExceptionKind, Languages};
use std::alloc::Global;
use std::marker::Model;

/// A snapshot with what the languages of the functions on its stack ask about its exception.
#[derive(Drop)]
pub struct ThrownSnapshot {
    snapshot: Snapshot,
    types: Vec<u64>,
    personalities: Vec<u64>,
    foreign: bool,
    runtime: CxxRuntime,
}

impl Model for ThrownSnapshot {
    ghost use Rattle.stack_snapshot.specs.Thrown.{ThrownContent};

    ghost Value = { ThrownContent };

    ghost view = { λ s. record {
      snapshot = s.snapshot;
      types = s.types.items;
      personalities = s.personalities.items;
      foreign = s.foreign;
      runtime = s.runtime;
    } };
}

impl ThrownSnapshot {
    /// The stack, and the delivery to make.
    pub fn snapshot(&self) -> &Snapshot
        ensures { result.now ≡ self.now.snapshot }
    {
        &self.snapshot
    }

    /// The languages of the functions on the stack, as the exception meets them.
    pub fn languages(&self) -> Languages<'_>
        ensures { languages_of result ≡ languages_in self.now }
    {
        Languages {
            cxx_routines: &self.personalities,
            exception: Exception {
                types: &self.types,
                kind: kind_of(self.foreign),
                runtime: self.runtime,
            },
        }
    }
}

/// What an exception is to the runtime that reads the language tables.
fn kind_of(foreign: bool) -> ExceptionKind
    ensures { result ≡ kind_of foreign }
{
    if foreign {
        ExceptionKind::Foreign
    } else {
        ExceptionKind::Native
    }
}

/// Each item a word.
fn word_list(alloc: Global, items: &[Value], field: Field) -> Result<Vec<u64>, SnapshotError>
    ensures { Gives (λ words. words.items) result
        (needs field (word_list (items_view items.now))) }
{
    let mut words = Vec::with_capacity(alloc, items.len())?;
    for item in items {
        words.push(as_word(item).ok_or(SnapshotError::Bad(field))?)?;
    }
    Ok(words)
}

/// The words that are listed at a key.
fn words_at(
    alloc: Global,
    value: &Value,
    key: &str,
    field: Field,
) -> Result<Vec<u64>, SnapshotError>
    ensures { Gives (λ words. words.items) result
        (needs field (words_at key.now (view value.now))) }
{
    match value.get(key).and_then(Value::as_array) {
        Some(items) => word_list(alloc, items, field),
        None => Err(SnapshotError::Bad(field)),
    }
}

/// Whether the exception isn't one of C++ itself, false where the field is missing.
#[tactic(auto, unfolding(crate::specs::Thrown::foreign_of))]
fn foreign_of(value: &Value) -> Option<bool>
    ensures { result ≡ foreign_of (view value.now) }
{
    match value.get("foreign") {
        Some(found) => found.as_bool(),
        None => Some(false),
    }
}

/// The runtime of C++ that has a name.
fn runtime_named(name: &str) -> Option<CxxRuntime>
    ensures { result ≡ runtime_named name.now }
{
    match name {
        "libstdc++" => Some(CxxRuntime::Libstdcxx),
        "libc++abi" => Some(CxxRuntime::Libcxxabi),
        _ => None,
    }
}

/// The runtime that the personality routines are of, libstdc++ where the field is missing.
#[tactic(auto, unfolding(crate::specs::Thrown::runtime_of))]
fn runtime_of(value: &Value) -> Option<CxxRuntime>
    ensures { result ≡ runtime_of (view value.now) }
{
    match value.get("runtime") {
        Some(found) => runtime_named(found.as_str()?),
        None => Some(CxxRuntime::Libstdcxx),
    }
}

/// The snapshot that a value says, with these fields, or its first faulty field. They are read before
/// the value is let go.
#[tactic(auto, unfolding(crate::specs::Thrown::thrown_of))]
fn thrown_of(alloc: Global, value: Value) -> Result<ThrownSnapshot, SnapshotError>
    ensures { Gives (λ snapshot. snapshot) result (thrown_of (view value)) }
{
    let types = words_at(alloc, &value, "types", Field::Types);
    let personalities = words_at(alloc, &value, "personalities", Field::Personalities);
    let foreign = foreign_of(&value);
    let runtime = runtime_of(&value);
    Ok(ThrownSnapshot {
        snapshot: snapshot_of(alloc, value)?,
        types: types?,
        personalities: personalities?,
        foreign: foreign.ok_or(SnapshotError::Bad(Field::Foreign))?,
        runtime: runtime.ok_or(SnapshotError::Bad(Field::Runtime))?,
    })
}

/// Reads a snapshot with what the languages on its stack ask about its exception.
///
/// # Errors
///
/// In this order: `NotJson` where the bytes are no JSON text, `Bad` with the first faulty field
/// where the value is no such snapshot. `NoMemory` may come in the place of each answer.
pub fn read_thrown_snapshot(alloc: Global, bytes: &[u8]) -> Result<ThrownSnapshot, SnapshotError>
    ensures reads { (result ≡ Err SnapshotError.NoMemory) ⊎ (result ≡ thrown_in bytes.now) }
{
    let value = value_in(alloc, bytes)?;
    thrown_of(alloc, value)
}
