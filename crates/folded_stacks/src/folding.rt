// The stacks of samples, and how many samples show each.
ghost use Rattle.std.specs.Prelude.{◌≡◌, ◌⊎◌, ◌↔◌, ◌+◌, ◌<◌, ◌≤◌, ◌++◌, ◌∷◌, List, Err, Some, is_some};
ghost use Rattle.std.specs.Prelude.{length, sum_by, IfOk, IsTrue, IsFalse};
ghost use Rattle.std.specs.Option.{option_to_list};
ghost use Rattle.std.specs.List.{Contains};
ghost use Rattle.unwind_definitions.specs.State.{State};
ghost use Rattle.unwind_definitions.specs.Function.{Function};
ghost use Rattle.unwind_definitions.specs.Chain.{Call};
ghost use Rattle.stack_steps.specs.Stopped.{StartsStopped};
ghost use Rattle.stack_walks.specs.KnownWalks.{StartsKnownStack};
ghost use Rattle.stack_walks.specs.Walking.{StartsChain};
ghost use Rattle.folded_stacks.specs.declared.folding.FoldError.TheVariants.{NoMemory};
ghost use Rattle.folded_stacks.specs.declared.samples.Sample.{Sample};
ghost use Rattle.folded_stacks.specs.Counts.{HasStack, IsFolded};
ghost use Rattle.folded_stacks.specs.Folding.{accepted, fold_of, refused_of, walked_stack};
ghost use Rattle.folded_stacks.specs.Folding.{chain_stack};
ghost use Rattle.folded_stacks.specs.Stacks.{stack_shown};

use crate::folded::{Folded, fold_runs};
use crate::samples::{Sample, Samples};
use crate::stacks::StackList;
use memory_image::{NoLedger, Steps};
use stack_deliver::{Room, RowRoom, Space, walk_with_rows};
use std::alloc::{AllocError, AllocFailed, Global};

/// The most frames of a stack.
const MOST: u32 = 1_024;

/// Why samples aren't folded.
#[derive(Clone, Copy, Debug, PartialEq, Eq, thiserror::Error)]
pub enum FoldError {
    /// The limit is 0 or above 1,024.
    #[error("the limit is 0 or above 1,024")]
    Limit,
    /// Memory ran out.
    #[error("out of memory")]
    NoMemory,
}

impl From<AllocError> for FoldError {
    ghost from_gives = { λ _ e. e ≡ NoMemory };

    fn from(_e: AllocError) -> FoldError {
        FoldError::NoMemory
    }
}

impl<T: Drop> From<AllocFailed<T>> for FoldError {
    ghost from_gives = { λ _ e. e ≡ NoMemory };

    fn from(_e: AllocFailed<T>) -> FoldError {
        FoldError::NoMemory
    }
}

/// The stacks of samples whose walks are accepted, and how many are refused.
#[derive(Drop)]
struct Walked {
    stacks: StackList,
    refused: u64,
}

/// Puts the stack of a sample last, where its walk is accepted, and says whether it is.
fn put_sample<'a>(
    space: &Space<'a>,
    sample: &Sample,
    limit: u32,
    room: &mut Room,
    rows: &mut RowRoom<'a>,
    stacks: &mut StackList,
) -> Result<bool, AllocError>
    requires { limit ≤ room.old.limit }
    ensures put { IfOk result (λ taken. let stack = walked_stack space.now limit sample.now in
        (stacks.new ≡ stacks.old ++ option_to_list stack) × (taken ≡ is_some stack)) }
    ensures places { room.new.limit ≡ room.old.limit }
{
    let mut steps = Steps::new(NoLedger);
    let start = &sample.start;
    match walk_with_rows(
        space,
        start,
        sample.interrupted,
        limit,
        room,
        rows,
        &mut steps,
    ) {
        Ok(()) => {
            stacks.put_walk(room)?;
            Ok(true)
        }
        Err(_) => Ok(false),
    }
}

/// Walks each sample, all of them into one room and with one room for rows.
fn walk_samples(
    alloc: Global,
    space: &Space<'_>,
    samples: &[Sample],
    limit: u32,
) -> Result<Walked, AllocError>
    requires { length samples.now ≤ 65536 }
    ensures { IfOk result (λ walked. (walked.stacks ≡ accepted space.now limit samples.now) ×
        (walked.refused ≡ refused_of space.now limit samples.now)) }
{
    let mut room = Room::new(alloc, limit)?;
    let mut rows = RowRoom::new();
    let mut stacks = StackList::with_places(alloc, samples.len())?;
    let mut refused = 0;
    for sample in samples {
        if !put_sample(space, sample, limit, &mut room, &mut rows, &mut stacks)? {
            refused += 1;
        }
    }
    stacks.shrink();
    Ok(Walked { stacks, refused })
}

/// The stacks of the samples, in order, each once with the number of the samples that show it.
fn fold_walks(
    alloc: Global,
    space: &Space<'_>,
    samples: &[Sample],
    limit: u32,
) -> Result<Folded, AllocError>
    requires { length samples.now ≤ 65536 }
    ensures { IfOk result (λ folded. folded ≡ fold_of space.now limit samples.now) }
{
    let Walked {
        mut stacks,
        refused,
    } = walk_samples(alloc, space, samples, limit)?;
    stacks.sort()?;
    fold_runs(alloc, stacks, refused)
}

/// The same, where the limit is one.
fn fold_within(
    alloc: Global,
    space: &Space<'_>,
    samples: &[Sample],
    limit: u32,
) -> Result<Folded, FoldError>
    requires { length samples.now ≤ 65536 }
    ensures limit { (result ≡ Err FoldError.Limit) ↔ ((limit ≡ 0) ⊎ (1024 < limit)) }
    ensures exact { IfOk result (λ folded. folded ≡ fold_of space.now limit samples.now) }
{
    if limit == 0 || limit > MOST {
        return Err(FoldError::Limit);
    }
    match fold_walks(alloc, space, samples, limit) {
        Ok(folded) => Ok(folded),
        Err(AllocError) => Err(FoldError::NoMemory),
    }
}

/// Folds the samples of threads whose stacks lie in a space: each stack once, with the number of the
/// samples that show it.
///
/// Each sample is walked by `walk_into` with places for `limit` states. Its stack is the return
/// addresses of these states, the outermost first, without those that are 0. Stacks come in the order
/// of their addresses, word by word, and one that another begins with comes before it. A sample whose
/// walk is refused has none and is counted apart.
///
/// The addresses of all samples stand in one list, 8 bytes for each, at most 512 MiB, beside 40 bytes
/// for a sample. Nothing is allocated for a frame but the growth of this list, by half. A space
/// answers the same whether it is prepared or not, and much sooner where it is.
///
/// # Errors
///
/// `Limit` where the limit is 0 or above 1,024, else `NoMemory` where memory ran out.
pub fn fold(
    alloc: Global,
    space: &Space<'_>,
    samples: &Samples,
    limit: u32,
) -> Result<Folded, FoldError>
    ensures limit { (result ≡ Err FoldError.Limit) ↔ ((limit ≡ 0) ⊎ (1024 < limit)) }
    ensures exact { IfOk result (λ folded. folded ≡ fold_of space.now limit samples.now) }
    // The lines are the distinct stacks of the samples whose walks are accepted, in order and each
    // once, with the number of the samples that show it.
    ensures lines { IfOk result (λ folded.
        IsFolded (accepted space.now limit samples.now) folded.lines) }
    ensures refused { IfOk result (λ folded.
        folded.refused ≡ refused_of space.now limit samples.now) }
    // Each sample counts once.
    ensures adds_up { IfOk result (λ folded.
        sum_by (λ line. line.count) folded.lines + folded.refused ≡ length samples.now) }
    // A sample that begins a described chain, through modules of whatever format, for which the limit
    // has room is accepted, and its stack is the return addresses of the chain, the outermost first.
    ensures chain { (sample : Sample) (functions : List Function) (s : State) (calls : List Call) →
        Contains samples.now sample →
        StartsChain space.now sample.start limit functions s calls →
        IsFalse sample.interrupted →
        (walked_stack space.now limit sample ≡ Some (chain_stack s calls)) ×
        IfOk result (λ folded. HasStack folded.lines (chain_stack s calls)) }
    // So is one that was stopped in the body of a function, in its prologue where it is of an ELF or a
    // PE module, or in an epilog where it is of a PE module, and whose caller begins such a chain.
    ensures stopped { (sample : Sample) (functions : List Function) (s : State) (call : Call)
        (calls : List Call) →
        Contains samples.now sample →
        StartsStopped space.now sample.start limit functions s call calls →
        IsTrue sample.interrupted →
        (walked_stack space.now limit sample ≡ Some (chain_stack s (call ∷ calls))) ×
        IfOk result (λ folded. HasStack folded.lines (chain_stack s (call ∷ calls))) }
    // So is one that begins a stack of each of whose frames it is known how its caller's state
    // follows, in an ELF module by facts that its tables say, at any address, and through a signal's
    // frame to the state that was interrupted.
    ensures known { (sample : Sample) (s : State) (callers : List State) →
        Contains samples.now sample →
        StartsKnownStack space.now sample.start limit sample.interrupted s callers →
        (walked_stack space.now limit sample ≡ Some (stack_shown (s ∷ callers))) ×
        IfOk result (λ folded. HasStack folded.lines (stack_shown (s ∷ callers))) }
{
    // No two of its modules share an address, as a space's type says.
    let _ = space.image();
    fold_within(alloc, space, samples.as_slice(), limit)
}
