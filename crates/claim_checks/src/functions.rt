// Functions that are claimed, from JSON.
ghost use Rattle.std.specs.Prelude.{◌≡◌, option_map};
ghost use Rattle.serde_json.specs.View.{view, items_view};
ghost use Rattle.stack_snapshot.specs.Answers.{Gives};
ghost use Rattle.stack_snapshot.specs.Snapshot.{needs};
ghost use Rattle.claim_checks.specs.Functions.{action_at, action_with, bodies_of, ended_step_of};
ghost use Rattle.claim_checks.specs.Functions.{function_in, no_action, outermost_of, range_in};
ghost use Rattle.claim_checks.specs.Functions.{range_list, range_of, range_with, register_in};
ghost use Rattle.claim_checks.specs.Functions.{register_named, site_in, site_list, site_of};
ghost use Rattle.claim_checks.specs.Functions.{site_with, sites_of, step_in, step_list};
ghost use Rattle.claim_checks.specs.Functions.{steps_of, store_of};
ghost use Rattle.claim_checks.specs.Views.{function_of};

use serde_json::Value;
use stack_snapshot::{Field, SnapshotError, as_word, word_at};
use std::alloc::Global;
use table_check::{AddressRange, ClaimStep, ClaimedSite, ClaimedStep, EhAction, Register};

/// What is answered where the functions are faulty.
const FAULTY: SnapshotError = SnapshotError::Bad(Field::Functions);

/// A function that was read.
#[derive(Drop)]
pub(crate) struct ReadFunction {
    pub(crate) start: u64,
    pub(crate) end: u64,
    pub(crate) is_outermost: bool,
    pub(crate) steps: Vec<ClaimedStep>,
    pub(crate) bodies: Vec<AddressRange>,
    // none without a language table
    pub(crate) sites: Option<Vec<ClaimedSite>>,
}

/// A register that calls keep, by its name.
fn register_named(name: &str) -> Option<Register>
    ensures { result ≡ register_named name.now }
{
    match name {
        "rbx" => Some(Register(3)),
        "rbp" => Some(Register(6)),
        "r12" => Some(Register(12)),
        "r13" => Some(Register(13)),
        "r14" => Some(Register(14)),
        "r15" => Some(Register(15)),
        _ => None,
    }
}

/// The register that a value names.
fn register_in(value: &Value) -> Option<Register>
    ensures { result ≡ register_in (view value.now) }
{
    register_named(value.as_str()?)
}

/// The step that stores the register of a name.
fn store_of(name: &Value, value: &Value) -> Option<ClaimStep>
    ensures { result ≡ store_of (view name.now) (view value.now) }
{
    let register = register_in(name)?;
    let above = word_at(value, "at")?;
    Some(ClaimStep::Store(register, above))
}

/// What a step does, of which exactly one is named.
fn step_in(value: &Value) -> Option<ClaimStep>
    ensures { result ≡ step_in (view value.now) }
{
    let push = value.get("push");
    let allocate = value.get("allocate");
    let set = value.get("set");
    let store = value.get("store");
    match (push, allocate, set, store) {
        (Some(name), None, None, None) => Some(ClaimStep::Push(register_in(name)?)),
        (None, Some(size), None, None) => Some(ClaimStep::Allocate(as_word(size)?)),
        (None, None, Some(above), None) => Some(ClaimStep::Set(as_word(above)?)),
        (None, None, None, Some(name)) => store_of(name, value),
        _ => None,
    }
}

/// The step that an object says.
fn ended_step_of(value: &Value) -> Option<ClaimedStep>
    ensures { result ≡ ended_step_of (view value.now) }
{
    let end = word_at(value, "end")?;
    let step = step_in(value)?;
    Some(ClaimedStep { end, step })
}

/// Each item a step.
fn step_list(alloc: Global, items: &[Value]) -> Result<Vec<ClaimedStep>, SnapshotError>
    ensures { Gives (λ steps. steps.items) result
        (needs Field.Functions (step_list (items_view items.now))) }
{
    let mut steps = Vec::with_capacity(alloc, items.len())?;
    for item in items {
        steps.push(ended_step_of(item).ok_or(FAULTY)?)?;
    }
    Ok(steps)
}

/// The steps of a prologue.
#[tactic(auto, unfolding(crate::specs::Functions::steps_of))]
fn steps_of(alloc: Global, value: &Value) -> Result<Vec<ClaimedStep>, SnapshotError>
    ensures { Gives (λ steps. steps.items) result
        (needs Field.Functions (steps_of (view value.now))) }
{
    match value.get("steps").and_then(Value::as_array) {
        Some(items) => step_list(alloc, items),
        None => Err(FAULTY),
    }
}

/// The addresses from one word to before another.
fn range_with(from: &Value, to: &Value) -> Option<AddressRange>
    ensures { result ≡ range_with (view from.now) (view to.now) }
{
    let from = as_word(from)?;
    let to = as_word(to)?;
    Some(AddressRange { from, to })
}

/// Exactly two words.
fn range_in(items: &[Value]) -> Option<AddressRange>
    ensures { result ≡ range_in (items_view items.now) }
{
    match items {
        [from, to] => range_with(from, to),
        _ => None,
    }
}

/// An array of exactly two words.
fn range_of(value: &Value) -> Option<AddressRange>
    ensures { result ≡ range_of (view value.now) }
{
    range_in(value.as_array()?)
}

/// Each item two words.
fn range_list(alloc: Global, items: &[Value]) -> Result<Vec<AddressRange>, SnapshotError>
    ensures { Gives (λ ranges. ranges.items) result
        (needs Field.Functions (range_list (items_view items.now))) }
{
    let mut ranges = Vec::with_capacity(alloc, items.len())?;
    for item in items {
        ranges.push(range_of(item).ok_or(FAULTY)?)?;
    }
    Ok(ranges)
}

/// The ranges of a body.
#[tactic(auto, unfolding(crate::specs::Functions::bodies_of))]
fn bodies_of(alloc: Global, value: &Value) -> Result<Vec<AddressRange>, SnapshotError>
    ensures { Gives (λ bodies. bodies.items) result
        (needs Field.Functions (bodies_of (view value.now))) }
{
    match value.get("body").and_then(Value::as_array) {
        Some(items) => range_list(alloc, items),
        None => Err(FAULTY),
    }
}

/// What calls ask, by its name and a landing pad.
fn action_at(name: &str, pad: u64) -> Option<EhAction>
    ensures { result ≡ action_at name.now pad }
{
    match name {
        "cleanup" => Some(EhAction::Cleanup(pad)),
        "catch" => Some(EhAction::Catch(pad)),
        "filter" => Some(EhAction::Filter(pad)),
        _ => None,
    }
}

/// The same, as values say it.
fn action_with(name: &Value, pad: &Value) -> Option<EhAction>
    ensures { result ≡ action_with (view name.now) (view pad.now) }
{
    action_at(name.as_str()?, as_word(pad)?)
}

/// That calls ask nothing, which names no landing pad.
fn no_action(name: &Value) -> Option<EhAction>
    ensures { result ≡ no_action (view name.now) }
{
    match name.as_str()? {
        "none" => Some(EhAction::None),
        _ => None,
    }
}

/// The call site from one word to before another.
fn site_with(from: &Value, to: &Value, asks: Option<EhAction>) -> Option<ClaimedSite>
    ensures { result ≡ site_with (view from.now) (view to.now) asks }
{
    let range = range_with(from, to)?;
    let action = asks?;
    Some(ClaimedSite { range, action })
}

/// Two words, what the calls between ask, and perhaps a landing pad.
fn site_in(items: &[Value]) -> Option<ClaimedSite>
    ensures { result ≡ site_in (items_view items.now) }
{
    match items {
        [from, to, name] => site_with(from, to, no_action(name)),
        [from, to, name, pad] => site_with(from, to, action_with(name, pad)),
        _ => None,
    }
}

/// The call site that an array says.
fn site_of(value: &Value) -> Option<ClaimedSite>
    ensures { result ≡ site_of (view value.now) }
{
    site_in(value.as_array()?)
}

/// Each item a call site.
fn site_list(alloc: Global, items: &[Value]) -> Result<Vec<ClaimedSite>, SnapshotError>
    ensures { Gives (λ sites. sites.items) result
        (needs Field.Functions (site_list (items_view items.now))) }
{
    let mut sites = Vec::with_capacity(alloc, items.len())?;
    for item in items {
        sites.push(site_of(item).ok_or(FAULTY)?)?;
    }
    Ok(sites)
}

/// The call sites of a language table, where one is given.
#[tactic(auto, unfolding(crate::specs::Functions::sites_of))]
fn sites_of(alloc: Global, value: &Value) -> Result<Option<Vec<ClaimedSite>>, SnapshotError>
    ensures { Gives (λ sites. option_map (λ list. list.items) sites) result
        (needs Field.Functions (sites_of (view value.now))) }
{
    match value.get("sites") {
        None => Ok(None),
        Some(found) => match found.as_array() {
            Some(items) => Ok(Some(site_list(alloc, items)?)),
            None => Err(FAULTY),
        },
    }
}

/// Whether a function is the first of a stack, false where that is missing.
#[tactic(auto, unfolding(crate::specs::Functions::outermost_of))]
fn outermost_of(value: &Value) -> Option<bool>
    ensures { result ≡ outermost_of (view value.now) }
{
    match value.get("outermost") {
        Some(found) => found.as_bool(),
        None => Some(false),
    }
}

/// The function that an object says.
#[tactic(auto, unfolding(crate::specs::Functions::function_in))]
pub(crate) fn function_in(alloc: Global, value: &Value) -> Result<ReadFunction, SnapshotError>
    ensures { Gives function_of result (needs Field.Functions (function_in (view value.now))) }
{
    let start = word_at(value, "start").ok_or(FAULTY)?;
    let end = word_at(value, "end").ok_or(FAULTY)?;
    let is_outermost = outermost_of(value).ok_or(FAULTY)?;
    let steps = steps_of(alloc, value)?;
    let bodies = bodies_of(alloc, value)?;
    let sites = sites_of(alloc, value)?;
    Ok(ReadFunction {
        start,
        end,
        is_outermost,
        steps,
        bodies,
        sites,
    })
}
