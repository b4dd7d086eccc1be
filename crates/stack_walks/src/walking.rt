// The states of a stack, from its innermost frame outwards.
ghost use Rattle.std.specs.Prelude.{◌≡◌, ◌≢◌, ◌⊎◌, ◌↔◌, ◌≤◌, ℕ, List, [], ◌∷◌, None, Err, length};
ghost use Rattle.std.specs.Prelude.{slice_get, IsOk, IsOkAnd, IsTrue, IsFalse, OnErr};
ghost use Rattle.memory_image.specs.Image.{word_at};
ghost use Rattle.unwind_definitions.specs.State.{State};
ghost use Rattle.unwind_definitions.specs.Function.{Function};
ghost use Rattle.unwind_definitions.specs.Chain.{Call};
ghost use Rattle.stack_walks.specs.ContextsMet.{contexts_met};
ghost use Rattle.stack_walks.specs.WalkEnds.{UnwindsAsWalk, contexts_to_end};
ghost use Rattle.stack_walks.specs.Lines.{GivesUnlessNoMemory, NeedsMore, line_of};
ghost use Rattle.stack_steps.specs.Ticking.{RisesWithin};
ghost use Rattle.stack_walks.specs.KnownWalks.{StartsKnownStack, ShowStack};
ghost use Rattle.stack_walks.specs.Walking.{IsWalked, StartsChain, StepFails, ShowChain};
ghost use Rattle.stack_steps.specs.Stopped.{StartsStopped};

use crate::room::Room;
use crate::unwind::{Stop, unwind_frames, unwind_frames_alone, unwind_frames_by_made};
use eh_frame::RowRoom;
use memory_image::{Ledger, NoLedger, Steps};
use stack_steps::{DeliverError, MadeRows, Space, Stepped};
use std::alloc::Global;
use std::marker::Model;
use unwind_arch::x86_64::Context;

/// Walks as [`walk_into`] does, with a room for rows that is lent.
///
/// A room for rows takes some 4 KB, which are cleared where it is made. Who walks many stacks makes one
/// for all of them. The answer doesn't depend on what was made in it before.
///
/// # Errors
///
/// Those of `walk_into`.
pub fn walk_with_rows<'a, L: Ledger>(
    space: &Space<'a>,
    start: &Context,
    interrupted: bool,
    limit: u32,
    room: &mut Room,
    rows: &mut RowRoom<'a>,
    steps: &mut Steps<L>,
) -> Result<(), DeliverError>
    requires { limit ≤ room.old.limit }
    // The states are the line of the start, and an error is the line's first fault.
    ensures exact { IsWalked result room.new (line_of space.now limit start.now interrupted) }
    ensures emptied { OnErr result (room.new.visited ≡ []) }
    ensures no_cleanup { room.new.trail ≡ [] }
    ensures places { room.new.limit ≡ room.old.limit }
    // A description is searched once at most at each state from the start outwards, up to the end of
    // the stack, to the first state whose step has a fault, or to the limit.
    ensures searches { RisesWithin space.now
        (length (contexts_to_end space.now limit start.now interrupted))
        steps.old.number steps.new.number }
    ensures ticks { RisesWithin space.now limit steps.old.number steps.new.number }
{
    room.clear();
    let mut state = Stepped {
        context: *start,
        signal: interrupted,
    };
    match unwinding_in(space, &mut state, limit, room, rows, steps) {
        Ok(_) => Ok(()),
        Err(error) => {
            room.clear();
            Err(error)
        }
    }
}

/// Goes from a state outwards as a walk does: where each module is prepared, without a room for rows.
fn unwinding_in<'a, L: Ledger>(
    space: &Space<'a>,
    state: &mut Stepped,
    limit: u32,
    room: &mut Room,
    rows: &mut RowRoom<'a>,
    steps: &mut Steps<L>,
) -> Result<Option<Stop>, DeliverError>
    requires within { limit ≤ room.old.limit }
    requires empty { room.old.visited ≡ [] }
    ensures walks { UnwindsAsWalk space.now limit state.old state.new room.old room.new result }
    ensures ticks { RisesWithin space.now
        (contexts_met None space.now limit state.old.context state.old.signal)
        steps.old.number steps.new.number }
{
    if space.is_prepared() {
        return unwind_frames_alone(&space.over_own_image(), state, limit, room, steps);
    }
    unwind_frames(None, space, state, limit, room, rows, steps)
}

/// Walks the stack whose innermost frame has the registers `start` into a room.
///
/// The room is emptied first. Then it holds the states from the start outwards: each next one is
/// the caller of the one before, by `step`, until the stack ends. `interrupted` says whether the
/// start stands before its instruction and not after a call; so does each state after a signal's
/// frame. No memory is taken.
///
/// # Errors
///
/// `FrameLimit` where more than `limit` states are needed; the errors of a step, as they are. A
/// fault of the step from the last allowed state comes before `FrameLimit`. The room is then empty.
pub fn walk_into<L: Ledger>(
    space: &Space<'_>,
    start: &Context,
    interrupted: bool,
    limit: u32,
    room: &mut Room,
    steps: &mut Steps<L>,
) -> Result<(), DeliverError>
    requires { limit ≤ room.old.limit }
    // The states are the line of the start, and an error is the line's first fault.
    ensures exact { IsWalked result room.new (line_of space.now limit start.now interrupted) }
    ensures emptied { OnErr result (room.new.visited ≡ []) }
    ensures no_cleanup { room.new.trail ≡ [] }
    ensures places { room.new.limit ≡ room.old.limit }
    // The limit is met exactly where more states are needed.
    ensures frame_limit { (result ≡ Err DeliverError.FrameLimit) ↔
        NeedsMore space.now limit start.now interrupted }
    ensures step_fault { (error : DeliverError) → error ≢ DeliverError.FrameLimit →
        (result ≡ Err error) ↔ StepFails space.now limit start.now interrupted error }
    ensures unmapped { (a : ℕ) → result ≡ Err (DeliverError.Unmapped a) →
        word_at space.now.image a ≡ None }
    ensures takes_no_memory { result ≢ Err DeliverError.NoMemory }
    // A described chain, through modules of whatever format, that the limit has room for is walked
    // to its end.
    ensures chain { (functions : List Function) (s : State) (calls : List Call) →
        StartsChain space.now start.now limit functions s calls → IsFalse interrupted →
        IsOk result × ShowChain room.new.visited s calls }
    // So is a function that was stopped in its body, in the prologue where it is of an ELF or a PE
    // module, or in an epilog where it is of a PE module, and then the described chain that its
    // caller begins.
    ensures stopped { (functions : List Function) (s : State) (call : Call) (calls : List Call) →
        StartsStopped space.now start.now limit functions s call calls → IsTrue interrupted →
        IsOk result × ShowChain room.new.visited s (call ∷ calls) }
    // A stack is walked to its end that the limit has room for and of each of whose frames it is
    // known how its caller's state follows: in an ELF module by facts that its tables say, at any
    // address, in another as the unwind data describe its function. The start may have been
    // interrupted where it stands, and may have no caller. So it is through a signal's frame, from
    // which it goes on at the state that the signal interrupted.
    ensures known { (s : State) (callers : List State) →
        (is : StartsKnownStack space.now start.now limit interrupted s callers) →
        IsOk result × ShowStack space.now room.new.visited interrupted s callers is.stack }
    // A description is searched once at most at each state from the start outwards, up to the end of
    // the stack, to the first state whose step has a fault, or to the limit.
    ensures searches { RisesWithin space.now
        (length (contexts_to_end space.now limit start.now interrupted))
        steps.old.number steps.new.number }
    // As many searches as the limit allows states; none is counted where each module names a frame
    // table and none is prepared.
    ensures ticks { RisesWithin space.now limit steps.old.number steps.new.number }
{
    // No two of its modules share an address, as a space's type says.
    let _ = space.image();
    let mut rows = RowRoom::new();
    walk_with_rows(space, start, interrupted, limit, room, &mut rows, steps)
}

/// The states of a stack that was walked.
///
/// Contracts see them from the start outwards.
#[derive(Drop)]
pub struct Visited {
    room: Room,
}

impl Model for Visited {
    ghost use Rattle.std.specs.Prelude.{List};
    ghost use Rattle.unwind_arch.specs.declared.x86_64.Context.{Context};

    ghost Value = { List Context };

    ghost view = { λ v. v.room.visited };
}

impl Visited {
    /// The room in which they stand.
    pub fn room(&self) -> &Room
        ensures { result.now.visited ≡ self.now }
    {
        &self.room
    }

    /// How many states there are.
    pub fn len(&self) -> usize
        ensures { result ≡ length self.now }
    {
        self.room.visited_len()
    }

    /// The state at this place, from the start outwards.
    pub fn get(&self, i: usize) -> Option<Context>
        ensures { result ≡ slice_get self.now i }
    {
        self.room.visited(i)
    }
}

/// Goes from a state outwards as a walk does: where each module is prepared, without a room for rows, and
/// else by the rows that were made before.
fn unwinding_by_made<'a, L: Ledger>(
    alloc: Global,
    space: &Space<'a>,
    state: &mut Stepped,
    limit: u32,
    room: &mut Room,
    steps: &mut Steps<L>,
) -> Result<Option<Stop>, DeliverError>
    requires within { limit ≤ room.old.limit }
    requires empty { room.old.visited ≡ [] }
    ensures walks { (result ≡ Err DeliverError.NoMemory) ⊎ IsWalked result room.new
        (line_of space.now limit state.old.context state.old.signal) }
{
    if space.is_prepared() {
        return unwind_frames_alone(&space.over_own_image(), state, limit, room, steps);
    }
    let mut made = MadeRows::new(alloc)?;
    unwind_frames_by_made(
        &space.over_own_image(),
        state,
        limit,
        room,
        &mut made,
        steps,
    )
}

/// The states of a stack, or the first fault.
fn walked(
    alloc: Global,
    space: &Space<'_>,
    start: &Context,
    interrupted: bool,
    limit: u32,
) -> Result<Visited, DeliverError>
    ensures exact { GivesUnlessNoMemory result (line_of space.now limit start.now interrupted) }
{
    let mut room = Room::new(alloc, limit)?;
    let mut state = Stepped {
        context: *start,
        signal: interrupted,
    };
    let mut steps = Steps::new(NoLedger);
    match unwinding_by_made(alloc, space, &mut state, limit, &mut room, &mut steps) {
        Ok(_) => Ok(Visited { room }),
        Err(error) => Err(error),
    }
}

/// Walks the stack whose innermost frame has the registers `start`.
///
/// It answers what `walk_into` does, over a room of `limit` places, which is reserved for it and not
/// filled. Rows that were made in modules that aren't prepared are kept for the frames that follow, as in
/// a recursion.
///
/// # Errors
///
/// `NoMemory` where memory ran out; else the errors of `walk_into`.
pub fn walk(
    alloc: Global,
    space: &Space<'_>,
    start: &Context,
    interrupted: bool,
    limit: u32,
) -> Result<Visited, DeliverError>
    ensures exact { GivesUnlessNoMemory result (line_of space.now limit start.now interrupted) }
    // The limit is met exactly where more states are needed.
    ensures frame_limit { result ≡ Err DeliverError.FrameLimit →
        NeedsMore space.now limit start.now interrupted }
    ensures needs_more { NeedsMore space.now limit start.now interrupted →
        (result ≡ Err DeliverError.NoMemory) ⊎ (result ≡ Err DeliverError.FrameLimit) }
    ensures step_fault { (error : DeliverError) → error ≢ DeliverError.FrameLimit →
        error ≢ DeliverError.NoMemory → result ≡ Err error →
        StepFails space.now limit start.now interrupted error }
    ensures step_fails { (error : DeliverError) → error ≢ DeliverError.FrameLimit →
        StepFails space.now limit start.now interrupted error →
        (result ≡ Err DeliverError.NoMemory) ⊎ (result ≡ Err error) }
    ensures unmapped { (a : ℕ) → result ≡ Err (DeliverError.Unmapped a) →
        word_at space.now.image a ≡ None }
    // A described chain, through modules of whatever format, that the limit has room for is walked
    // to its end.
    ensures chain { (functions : List Function) (s : State) (calls : List Call) →
        StartsChain space.now start.now limit functions s calls → IsFalse interrupted →
        (result ≡ Err DeliverError.NoMemory) ⊎
        IsOkAnd result (λ visited. ShowChain visited s calls) }
    // So is a function that was stopped in its body, in the prologue where it is of an ELF or a PE
    // module, or in an epilog where it is of a PE module, and then the described chain that its
    // caller begins.
    ensures stopped { (functions : List Function) (s : State) (call : Call) (calls : List Call) →
        StartsStopped space.now start.now limit functions s call calls → IsTrue interrupted →
        (result ≡ Err DeliverError.NoMemory) ⊎
        IsOkAnd result (λ visited. ShowChain visited s (call ∷ calls)) }
    // A stack of each of whose frames it is known how its caller's state follows, by facts that
    // tables say or as unwind data describe its function, is walked to its end, through signals'
    // frames too.
    ensures known { (s : State) (callers : List State) →
        (is : StartsKnownStack space.now start.now limit interrupted s callers) →
        (result ≡ Err DeliverError.NoMemory) ⊎
        IsOkAnd result (λ visited. ShowStack space.now visited interrupted s callers is.stack) }
{
    // No two of its modules share an address, as a space's type says.
    let _ = space.image();
    walked(alloc, space, start, interrupted, limit)
}
