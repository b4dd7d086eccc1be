// What is delivered, walked and folded of a snapshot, over indexes of frame tables where they pay.
ghost use Rattle.std.specs.Prelude.{◌≡◌, ◌≢◌, ◌≤◌, ℕ, Bool, false, Err, IfOk, IfSome};
ghost use Rattle.unwind_arch.specs.declared.x86_64.Context.{Context as State};
ghost use Rattle.stack_walks.specs.Lines.{GivesUnlessNoMemory, line_of};
ghost use Rattle.stack_deliver.specs.StackDelivery.{delivery_through};
ghost use Rattle.stack_steps.specs.Languages.{languages_of};
ghost use Rattle.stack_steps.specs.Preparing.{ChangesIndexes};
ghost use Rattle.stack_snapshot.specs.Content.{space_of};
ghost use Rattle.stack_snapshot.specs.Sampled.{sampled_space};
ghost use Rattle.unwind_cli.specs.Due.{delivery_from, fold_from, thrown_from, walk_from};

use crate::searches::{Search, few_frames, more_delivered, more_walked};
use folded_stacks::{FoldError, Folded, fold};
use stack_deliver::{DeliverError, Delivery, Languages, Space, Visited, throw, walk};
use stack_snapshot::{SampledSnapshot, Snapshot, ThrownSnapshot};
use std::alloc::{AllocError, Global};
use unwind_arch::x86_64::Context;

/// Whether more states are met than there may be, or more cleanups.
fn meets_limit<T>(answer: &Result<T, DeliverError>) -> bool
    ensures states { result ≡ false → answer.now ≢ Err DeliverError.FrameLimit }
    ensures cleanups { result ≡ false → answer.now ≢ Err DeliverError.PassLimit }
{
    matches!(
        answer,
        Err(DeliverError::FrameLimit | DeliverError::PassLimit)
    )
}

/// What is delivered of a snapshot by the rules of languages over a space, of at most `limit` states a
/// pass and as many cleanups.
fn delivery_within(
    alloc: Global,
    space: &Space<'_>,
    snapshot: &Snapshot,
    languages: &Languages<'_>,
    limit: u32,
) -> Result<Delivery, DeliverError>
    ensures { GivesUnlessNoMemory result
        (delivery_through (languages_of languages.now) space.now snapshot.now.start
        snapshot.now.exception snapshot.now.resumes limit) }
{
    let start = snapshot.start();
    throw(
        alloc,
        space,
        languages,
        &start,
        snapshot.exception(),
        snapshot.resumes(),
        limit,
    )
}

/// The same, where no more states are met and no more cleanups run. `None` where more are.
fn few_delivered(
    alloc: Global,
    space: &Space<'_>,
    snapshot: &Snapshot,
    languages: &Languages<'_>,
    few: u32,
) -> Option<Result<Delivery, DeliverError>>
    requires { few ≤ snapshot.now.limit }
    ensures { IfSome result (λ delivered. GivesUnlessNoMemory delivered
        (delivery_through (languages_of languages.now) space.now snapshot.now.start
        snapshot.now.exception snapshot.now.resumes snapshot.now.limit)) }
{
    let delivered = delivery_within(alloc, space, snapshot, languages, few);
    if meets_limit(&delivered) {
        return None;
    }
    Some(delivered)
}

/// What is delivered of a snapshot where it takes no more frames than are searched for, over its space, of
/// which modules that hold most frames may become prepared. `None` where it takes more.
fn searched_delivery(
    alloc: Global,
    space: &mut Space<'_>,
    snapshot: &Snapshot,
    languages: &Languages<'_>,
) -> Option<Result<Delivery, DeliverError>>
    ensures delivered { IfSome result (λ delivered. GivesUnlessNoMemory delivered
        (delivery_through (languages_of languages.now) space.old snapshot.now.start
        snapshot.now.exception snapshot.now.resumes snapshot.now.limit)) }
    ensures same { ChangesIndexes space.old space.new }
{
    let few = few_frames(space, snapshot, Search::Delivery)?;
    if let Some(delivered) = few_delivered(alloc, space, snapshot, languages, few) {
        return Some(delivered);
    }
    let more = more_delivered(alloc, space, snapshot)?;
    few_delivered(alloc, space, snapshot, languages, more)
}

/// What is delivered of a snapshot over a space whose modules are prepared first, where they can be.
fn prepared_delivery(
    alloc: Global,
    space: &mut Space<'_>,
    snapshot: &Snapshot,
    languages: &Languages<'_>,
) -> Result<Delivery, DeliverError>
    ensures { GivesUnlessNoMemory result
        (delivery_through (languages_of languages.now) space.old snapshot.now.start
        snapshot.now.exception snapshot.now.resumes snapshot.now.limit) }
{
    space.prepare()?;
    delivery_within(alloc, space, snapshot, languages, snapshot.limit())
}

/// What is delivered of a snapshot by the rules of languages. Modules are prepared where no frames are
/// searched for, or where more states are met or more cleanups run.
fn snapshot_delivery(
    alloc: Global,
    snapshot: &Snapshot,
    languages: &Languages<'_>,
) -> Result<Delivery, DeliverError>
    ensures { GivesUnlessNoMemory result
        (delivery_through (languages_of languages.now) (space_of snapshot.now) snapshot.now.start
        snapshot.now.exception snapshot.now.resumes snapshot.now.limit) }
{
    let mut space = snapshot.space(alloc)?;
    if let Some(delivered) = searched_delivery(alloc, &mut space, snapshot, languages) {
        return delivered;
    }
    prepared_delivery(alloc, &mut space, snapshot, languages)
}

/// What is delivered of a snapshot by the rule of Rust alone.
///
/// # Errors
///
/// `NoMemory` where memory ran out; else those of `throw`.
pub fn deliver_snapshot(alloc: Global, snapshot: &Snapshot) -> Result<Delivery, DeliverError>
    ensures { GivesUnlessNoMemory result (delivery_from snapshot.now) }
{
    snapshot_delivery(alloc, snapshot, &Languages::rust_alone())
}

/// What is delivered of a snapshot by the rules of the languages on its stack.
///
/// # Errors
///
/// `NoMemory` where memory ran out; else those of `throw`.
pub fn throw_snapshot(alloc: Global, thrown: &ThrownSnapshot) -> Result<Delivery, DeliverError>
    ensures { GivesUnlessNoMemory result (thrown_from thrown.now) }
{
    snapshot_delivery(alloc, thrown.snapshot(), &thrown.languages())
}

/// The states of a snapshot's stack, where there are no more, over its space as it is. `None` where there
/// are.
fn few_states(
    alloc: Global,
    space: &Space<'_>,
    snapshot: &Snapshot,
    interrupted: bool,
    few: u32,
) -> Option<Result<Visited, DeliverError>>
    requires { few ≤ snapshot.now.limit }
    ensures { IfSome result (λ walked. GivesUnlessNoMemory walked
        (line_of space.now snapshot.now.limit snapshot.now.start interrupted)) }
{
    let start = snapshot.start();
    let walked = walk(alloc, space, &start, interrupted, few);
    if meets_limit(&walked) {
        return None;
    }
    Some(walked)
}

/// The states of a snapshot's stack, where there are no more than are searched for, over its space as it
/// is. `None` where there are.
fn searched_states(
    alloc: Global,
    space: &Space<'_>,
    snapshot: &Snapshot,
    interrupted: bool,
) -> Option<Result<Visited, DeliverError>>
    ensures { IfSome result (λ walked. GivesUnlessNoMemory walked
        (line_of space.now snapshot.now.limit snapshot.now.start interrupted)) }
{
    let few = few_frames(space, snapshot, Search::Walk)?;
    if let Some(walked) = few_states(alloc, space, snapshot, interrupted, few) {
        return Some(walked);
    }
    let more = more_walked(alloc, space, snapshot, interrupted)?;
    few_states(alloc, space, snapshot, interrupted, more)
}

/// The states of a stack over a space whose modules are prepared first, where they can be.
fn prepared_states(
    alloc: Global,
    space: &mut Space<'_>,
    start: &Context,
    interrupted: bool,
    limit: u32,
) -> Result<Visited, DeliverError>
    ensures { GivesUnlessNoMemory result (line_of space.old limit start.now interrupted) }
{
    space.prepare()?;
    walk(alloc, space, start, interrupted, limit)
}

/// The states of a snapshot's stack. Modules are prepared where no frames are searched for, or where it
/// has more states.
///
/// # Errors
///
/// `NoMemory` where memory ran out; else those of `walk`.
pub fn walk_snapshot(alloc: Global, snapshot: &Snapshot) -> Result<Visited, DeliverError>
    ensures { GivesUnlessNoMemory result (walk_from snapshot.now) }
{
    let mut space = snapshot.space(alloc)?;
    let interrupted = snapshot.interrupted();
    if let Some(walked) = searched_states(alloc, &space, snapshot, interrupted) {
        return walked;
    }
    let start = snapshot.start();
    let limit = snapshot.limit();
    prepared_states(alloc, &mut space, &start, interrupted, limit)
}

/// The space of samples, in which its modules are prepared where they can be. Nothing is answered
/// otherwise over it.
fn prepared_sampled_space(
    alloc: Global,
    snapshot: &SampledSnapshot,
) -> Result<Space<'_>, AllocError>
    ensures { IfOk result (λ space. (limit : ℕ) (c : State) (interrupted : Bool) →
        line_of space limit c interrupted ≡
        line_of (sampled_space snapshot.now) limit c interrupted) }
{
    let mut space = snapshot.space(alloc)?;
    space.prepare()?;
    Ok(space)
}

/// The folded stacks of samples.
///
/// # Errors
///
/// `AllocError` where memory ran out.
pub fn fold_snapshot(alloc: Global, snapshot: &SampledSnapshot) -> Result<Folded, AllocError>
    ensures { IfOk result (λ folded. folded ≡ fold_from snapshot.now) }
{
    let space = prepared_sampled_space(alloc, snapshot)?;
    match fold(alloc, &space, snapshot.samples(), snapshot.limit()) {
        Ok(folded) => Ok(folded),
        Err(FoldError::NoMemory) => Err(AllocError),
        Err(FoldError::Limit) => unreachable!(),
    }
}
