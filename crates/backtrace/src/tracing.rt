// The states of a stopped thread's stack, and why there are no more.
ghost use Rattle.std.specs.Prelude.{◌≡◌, ◌≢◌, List, [], false, IfOk, IsSome, IsSomeAnd, slice_get};
ghost use Rattle.std.specs.Prelude.{◌^◌, ◌≤◌, length};
ghost use Rattle.unwind_definitions.specs.State.{State, IsState, Shows, KeepsOthers};
ghost use Rattle.unwind_definitions.specs.Entered.{IsEntered};
ghost use Rattle.unwind_definitions.specs.Function.{Function};
ghost use Rattle.unwind_definitions.specs.Prologue.{PrologueStep};
ghost use Rattle.unwind_definitions.specs.Stopped.{StandsAfter};
ghost use Rattle.unwind_arch.specs.ContextViews.{columns_of};
ghost use Rattle.stack_steps.specs.Stepping.{EndsAt};
ghost use Rattle.stack_walks.specs.WalkEnds.{ComesTo, contexts_to_end};
ghost use Rattle.backtrace.specs.Tracing.{IsNowhere, IsTrace, called_from, is_nowhere, returned_caller};
ghost use Rattle.backtrace.specs.Tracing.{keeps_popped, start_space};
ghost use Rattle.backtrace.specs.FramePointers.{IsWalkFrom, guess_after, last_of};
ghost use Rattle.backtrace.specs.Lines.{contexts_of};

use crate::code::CodeRanges;
use crate::pointers::{caller_by_pointer, is_without_table};
use memory_image::{MemoryImage, NoLedger, Steps};
use popped_registers::{KeptWalk, walk_interrupted};
use stack_deliver::{
    Context, EndReason, MadeRows, Room, Space, walk_to_end_into, walk_to_end_made,
};
use std::alloc::{AllocError, Global};
use std::marker::Model;
use unwind_arch::x86_64::RSP;

/// The registers of the caller where a call has pushed its return address and nothing else was done
/// since. `None` where the word at the stack pointer isn't mapped, or is 0.
fn returned_caller(image: &MemoryImage<'_>, callee: &Context) -> Option<Context>
    ensures { result ≡ returned_caller image.now callee.now }
{
    let stack = callee.registers[RSP];
    let address = image.read_u64(stack)?;
    if address == 0 {
        return None;
    }
    let mut caller = *callee;
    caller.registers[RSP] = stack.wrapping_add(8);
    caller.ra = address;
    Some(caller)
}

/// Whether a start is interrupted where no code is known: at the address 0, or in no module, and not
/// in code without a table.
fn is_nowhere(space: &Space<'_>, code: &CodeRanges, start: &Context, interrupted: bool) -> bool
    ensures { result ≡ is_nowhere space.now code.now start.now interrupted }
{
    let unheld = start.ra == 0 || space.module_at(start.ra).is_none();
    interrupted && unheld && code.at(start.ra).is_none()
}

/// The caller of a thread that was interrupted in no module, as after a call through a null or a wild
/// pointer: its return address is the word at the stack pointer.
///
/// `None` where the thread stands after a call, in a module or in code without a table, and where that
/// word isn't mapped or is 0. No stack of another kind is guessed at.
pub fn called_from(
    space: &Space<'_>,
    code: &CodeRanges,
    start: &Context,
    interrupted: bool,
) -> Option<Context>
    ensures exact { result ≡ called_from space.now code.now start.now interrupted }
    // It is the caller where the state was entered by a call, and has done nothing since.
    ensures entered { (t s : State) → IsNowhere space.now code.now start.now interrupted →
        IsEntered space.now.image false [] t s → IsState t → t.ra ≢ 0 →
        Shows (columns_of start.now) s →
        IsSomeAnd result (λ caller. Shows (columns_of caller) t ×
        KeepsOthers (columns_of start.now) (columns_of caller)) }
    // So it is where a function is interrupted before the first step of its prologue.
    ensures stands { (f : Function) (later : List PrologueStep) (t s : State) →
        IsNowhere space.now code.now start.now interrupted →
        StandsAfter space.now.image f [] later t s → IsState t → t.ra ≢ 0 →
        Shows (columns_of start.now) s →
        IsSomeAnd result (λ caller. Shows (columns_of caller) t ×
        KeepsOthers (columns_of start.now) (columns_of caller)) }
    // By the modules alone the stack would end at such a start.
    ensures ends { IsSome result → EndsAt space.now start.now interrupted }
{
    if is_nowhere(space, code, start, interrupted) {
        returned_caller(space.image(), start)
    } else {
        None
    }
}

/// The states of a stack as far as they are known, and why there are no more.
///
/// Contracts see the start where its caller was read from the stack, the states of the walk from
/// there on or from the start, the reason of the walk's end, whether popped registers were kept,
/// and for how many states there is place.
#[derive(Drop)]
pub struct Trace {
    first: Option<Context>,
    room: Room,
    why: EndReason,
    popped: bool,
}

impl Model for Trace {
    ghost use Rattle.backtrace.specs.Tracing.{TracedValue};

    ghost Value = { TracedValue };

    ghost view = { λ t. record {
      trace = record { first = t.first; states = t.room.visited; why = t.why; popped = t.popped };
      places = t.room.limit;
    } };
}

impl Trace {
    /// The start, where the walk begins at its caller, whose return address was read from the stack.
    pub fn first(&self) -> Option<Context>
        ensures { result ≡ self.now.trace.first }
    {
        self.first
    }

    /// How many states the walk came to.
    pub fn walked_len(&self) -> usize
        ensures { result ≡ length self.now.trace.states }
    {
        self.room.visited_len()
    }

    /// The state of the walk at this place.
    pub fn walked(&self, i: usize) -> Option<Context>
        ensures { result ≡ slice_get self.now.trace.states i }
    {
        self.room.visited(i)
    }

    /// Why the walk goes no further.
    pub fn why(&self) -> EndReason
        ensures { result ≡ self.now.trace.why }
    {
        self.why
    }

    /// Whether registers were kept that were popped where the thread was interrupted.
    pub fn popped(&self) -> bool
        ensures { result ≡ self.now.trace.popped }
    {
        self.popped
    }

    /// How many states there are, with the start.
    pub fn contexts_len(&self) -> usize
        requires { length self.now.trace.states ≤ 2 ^ 32 }
        ensures { result ≡ length (contexts_of self.now.trace) }
    {
        match self.first {
            Some(_) => self.walked_len() + 1,
            None => self.walked_len(),
        }
    }

    /// The last state of the walk.
    fn last(&self) -> Option<Context>
        ensures { result ≡ last_of self.now.trace.states }
    {
        let count = self.walked_len();
        self.walked(count.saturating_sub(1))
    }

    /// The caller from which the trace goes on, where frame pointers are asked for and no table
    /// describes where its last state stands.
    pub fn guess_after(
        &self,
        pointers: bool,
        space: &Space<'_>,
        code: &CodeRanges,
    ) -> Option<Context>
        ensures { result ≡ guess_after pointers space.now code.now self.now.trace }
    {
        if is_without_table(code, self.why) && pointers {
            let last = self.last()?;
            caller_by_pointer(space, code, &last)
        } else {
            None
        }
    }

    /// Becomes the walk from such a caller, in the same places.
    pub fn walk_from(&mut self, space: &Space<'_>, caller: &Context, limit: u32)
        requires { limit ≤ self.old.places }
        ensures walk { IsWalkFrom space.now limit caller.now self.new.trace }
        ensures places { self.new.places ≡ self.old.places }
    {
        let mut steps = Steps::new(NoLedger);
        self.first = None;
        self.popped = false;
        self.why = walk_to_end_into(space, caller, false, limit, &mut self.room, &mut steps);
    }
}

/// Walks a stack after a call into a room as far as it goes, and answers why it goes no further.
fn walk_called(
    alloc: Global,
    space: &Space<'_>,
    start: &Context,
    limit: u32,
    room: &mut Room,
) -> Result<EndReason, AllocError>
    requires { limit ≤ room.old.limit }
    ensures states { IfOk result (λ _. room.new.visited ≡
        contexts_to_end space.now limit start.now false) }
    ensures why { IfOk result (λ why. ComesTo why space.now limit start.now false) }
    ensures places { room.new.limit ≡ room.old.limit }
{
    let mut made = MadeRows::new(alloc)?;
    let own = space.over_own_image();
    let mut steps = Steps::new(NoLedger);
    Ok(walk_to_end_made(&mut made, &own, start, false, limit, room, &mut steps))
}

/// Walks a stack from its start into a room as far as it goes, and answers why it goes no
/// further. Where the thread was interrupted there, popped registers are kept, and the answer
/// says whether any were.
///
/// # Errors
///
/// `AllocError` where there is no memory for rows.
fn walk_from_start<'s, 't>(
    alloc: Global,
    space: &'s Space<'t>,
    start: &Context,
    interrupted: bool,
    limit: u32,
    room: &mut Room,
) -> Result<KeptWalk, AllocError>
where
    't: 's,
    requires { limit ≤ room.old.limit }
    ensures states { IfOk result (λ _. room.new.visited ≡ contexts_to_end
        (start_space space.now limit start.now interrupted) limit start.now interrupted) }
    ensures why { IfOk result (λ walk. ComesTo walk.why
        (start_space space.now limit start.now interrupted) limit start.now interrupted) }
    ensures popped { IfOk result (λ walk.
        walk.popped ≡ keeps_popped space.now limit start.now interrupted) }
    ensures places { room.new.limit ≡ room.old.limit }
{
    if interrupted {
        let image: &'s MemoryImage<'s> = space.image();
        let mut made: MadeRows<'s> = MadeRows::new(alloc)?;
        Ok(walk_interrupted(space, image, &mut made, start, limit, room))
    } else {
        let why = walk_called(alloc, space, start, limit, room)?;
        Ok(KeptWalk { why, popped: false })
    }
}

/// Traces the stack whose innermost frame has the registers `start`, at most so many states.
///
/// Where the thread was interrupted there, after registers were popped whose slots aren't mapped,
/// the trace keeps them, and is marked ([`walk_interrupted`]).
///
/// # Errors
///
/// `AllocError` where there is no memory for so many states or for rows.
pub fn trace_stack(
    alloc: Global,
    space: &Space<'_>,
    code: &CodeRanges,
    start: &Context,
    interrupted: bool,
    limit: u32,
) -> Result<Trace, AllocError>
    ensures trace { IfOk result (λ traced.
        IsTrace space.now code.now start.now interrupted limit traced.trace) }
    ensures most { IfOk result (λ traced. length traced.trace.states ≤ limit) }
    ensures places { IfOk result (λ traced. traced.places ≡ limit) }
{
    let mut room = Room::new(alloc, limit)?;
    match called_from(space, code, start, interrupted) {
        Some(caller) => {
            let most = limit.saturating_sub(1);
            let why = walk_called(alloc, space, &caller, most, &mut room)?;
            Ok(Trace {
                first: Some(*start),
                room,
                why,
                popped: false,
            })
        }
        None => {
            let walk = walk_from_start(alloc, space, start, interrupted, limit, &mut room)?;
            Ok(Trace {
                first: None,
                room,
                why: walk.why,
                popped: walk.popped,
            })
        }
    }
}
