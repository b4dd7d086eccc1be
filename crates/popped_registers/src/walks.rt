// The walk that keeps popped registers.
ghost use Rattle.std.specs.Prelude.{◌≡◌, ◌≤◌, List, [], Ok, Some, false, length, map, true};
ghost use Rattle.std.specs.Option.{option_map};
ghost use Rattle.memory_image.specs.Image.{Span};
ghost use Rattle.frame_rows.specs.Rules.{rule_in};
ghost use Rattle.unwind_arch.specs.declared.x86_64.Context.{Context};
ghost use Rattle.stack_steps.specs.Frames.{FrameAt};
ghost use Rattle.stack_steps.specs.FrameViews.{IsFrameOf};
ghost use Rattle.stack_steps.specs.Growing.{Grows, over_image};
ghost use Rattle.stack_steps.specs.MadeRows.{AreMade};
ghost use Rattle.stack_steps.specs.Stepping.{frame_of};
ghost use Rattle.stack_walks.specs.Lines.{line_of};
ghost use Rattle.stack_walks.specs.WalkEnds.{ComesTo, contexts_to_end};
ghost use Rattle.popped_registers.specs.KeptWalks.{IsKeptWalk, is_cut_at_start, popped_by_row};
ghost use Rattle.popped_registers.specs.PoppedRegisters.{is_popped, kept_space, popped_among};
ghost use Rattle.popped_registers.specs.PoppedRegisters.{popped_at};

use crate::popped::{cfa_of, popped_by, rule_of};
use eh_frame::{Register, RowRef, RowRoom};
use memory_image::{MemoryImage, NoLedger, Steps};
use stack_steps::{
    DeliverError, FoundFrame, FrameCache, GrownSpace, MadeRows, Space, Stepped, Stepper,
};
use stack_walks::{EndReason, Room, walk_to_end_cached, walk_to_end_made, walk_to_end_over};
use unwind_arch::x86_64::{Context, RSP};

/// Why a walk goes no further, and whether it kept popped registers.
#[derive(Clone, Copy, Debug, PartialEq, Eq)]
pub struct KeptWalk {
    /// Why it goes no further than its last state.
    pub why: EndReason,
    /// Whether registers were kept that were popped where the thread was interrupted.
    pub popped: bool,
}

// The registers that count: the callee-saved ones but for the stack pointer, which are RBX, RBP and R12
// to R15; and RAX and RDX, which functions save that set the registers of a landing pad.
const RESTORED: [Register; 8] = [
    Register(3),
    Register(6),
    Register(12),
    Register(13),
    Register(14),
    Register(15),
    Register(0),
    Register(1),
];

/// The frame at which a thread was interrupted, over the memory at hand.
#[derive(Drop)]
struct InterruptedFrame<'f, 'r, 'a> {
    image: &'f MemoryImage<'f>,
    context: &'f Context,
    row: &'f RowRef<'r, 'a>,
    cfa: u64,
}

/// Walks over an image from where a thread was interrupted.
fn walk_over<'s, 't>(
    space: &'s Space<'t>,
    image: &'s MemoryImage<'s>,
    start: &Context,
    limit: u32,
    room: &mut Room,
) -> EndReason
where
    't: 's,
    requires within { limit ≤ room.old.limit }
    requires grows { Grows space.now.image image.now }
    ensures states { room.new.visited ≡
        contexts_to_end (over_image space.now image.now) limit start.now true }
    ensures why { ComesTo result (over_image space.now image.now) limit start.now true }
    ensures no_cleanup { room.new.trail ≡ [] }
    ensures places { room.new.limit ≡ room.old.limit }
{
    let grown = GrownSpace::new(space, image);
    let steps = &mut Steps::new(NoLedger);
    walk_to_end_over(&grown, start, true, limit, room, steps)
}

/// The same by the rows that were made before in modules that aren't prepared.
fn walk_over_made<'s, 't>(
    space: &'s Space<'t>,
    image: &'s MemoryImage<'s>,
    made: &mut MadeRows<'s>,
    start: &Context,
    limit: u32,
    room: &mut Room,
) -> EndReason
where
    't: 's,
    requires within { limit ≤ room.old.limit }
    requires grows { Grows space.now.image image.now }
    requires made { AreMade (over_image space.now image.now) made.old }
    ensures states { room.new.visited ≡
        contexts_to_end (over_image space.now image.now) limit start.now true }
    ensures why { ComesTo result (over_image space.now image.now) limit start.now true }
    ensures no_cleanup { room.new.trail ≡ [] }
    ensures places { room.new.limit ≡ room.old.limit }
    ensures made { AreMade (over_image space.now image.now) made.new }
{
    let grown = GrownSpace::new(space, image);
    let steps = &mut Steps::new(NoLedger);
    walk_to_end_made(made, &grown, start, true, limit, room, steps)
}

/// The same by the rows that a cache keeps.
fn walk_over_cached<'s, 'c, 't>(
    cache: &mut FrameCache<'c, 't>,
    image: &'s MemoryImage<'s>,
    start: &Context,
    limit: u32,
    room: &mut Room,
) -> EndReason
where
    't: 's,
    'c: 's,
    requires within { limit ≤ room.old.limit }
    requires grows { Grows cache.old.image image.now }
    ensures states { room.new.visited ≡
        contexts_to_end (over_image cache.old image.now) limit start.now true }
    ensures why { ComesTo result (over_image cache.old image.now) limit start.now true }
    ensures no_cleanup { room.new.trail ≡ [] }
    ensures places { room.new.limit ≡ room.old.limit }
    ensures same { cache.new ≡ cache.old }
{
    let grown = cache.over(image);
    let steps = &mut Steps::new(NoLedger);
    walk_to_end_cached(cache, &grown, start, true, limit, room, steps)
}

/// Walks over an image and the slots of those of some registers that were popped.
fn walk_with<'s, 't>(
    frame: &InterruptedFrame<'_, '_, '_>,
    registers: &[Register],
    space: &'s Space<'t>,
    image: &'s MemoryImage<'s>,
    limit: u32,
    room: &mut Room,
) -> KeptWalk
where
    't: 's,
    requires within { limit ≤ room.old.limit }
    requires grows { Grows space.now.image image.now }
    ensures walk { IsKeptWalk (over_image space.now image.now)
        (popped_among frame.now.image.now frame.now.context.now
        (rule_in frame.now.row.now.rules) frame.now.cfa (map (λ r. r.0) registers.now)) limit
        frame.now.context.now room.new.visited result }
    ensures no_cleanup { room.new.trail ≡ [] }
    ensures places { room.new.limit ≡ room.old.limit }
{
    let [register, others @ ..] = registers else {
        let why = walk_over(space, image, frame.context, limit, room);
        return KeptWalk { why, popped: false };
    };
    let rule = rule_of(frame.row, *register);
    let Some(popped) = popped_by(frame.image, frame.context, frame.cfa, *register, rule) else {
        return walk_with(frame, others, space, image, limit, room);
    };
    let word = popped.word.to_le_bytes();
    let walk = match MemoryImage::over(&*image, popped.slot, &word) {
        Ok(grown) => walk_with(frame, others, &*space, &grown, limit, room),
        Err(_) => walk_with(frame, others, space, image, limit, room),
    };
    KeptWalk {
        why: walk.why,
        popped: true,
    }
}

/// Walks over an image and the slots of the registers that were popped, by the row of the frame at
/// which the thread was interrupted.
fn walk_by_row<'s, 't>(
    row: &RowRef<'_, '_>,
    space: &'s Space<'t>,
    image: &'s MemoryImage<'s>,
    start: &Context,
    limit: u32,
    room: &mut Room,
) -> KeptWalk
where
    't: 's,
    requires within { limit ≤ room.old.limit }
    requires grows { Grows space.now.image image.now }
    ensures walk { IsKeptWalk (over_image space.now image.now)
        (popped_by_row image.now start.now (Some row.now)) limit start.now room.new.visited result }
    ensures no_cleanup { room.new.trail ≡ [] }
    ensures places { room.new.limit ≡ room.old.limit }
{
    match cfa_of(image, start, row.cfa()) {
        Ok(cfa) => {
            let frame = InterruptedFrame {
                image,
                context: start,
                row,
                cfa,
            };
            walk_with(&frame, &RESTORED, space, image, limit, room)
        }
        Err(_) => {
            let why = walk_over(space, image, start, limit, room);
            KeptWalk { why, popped: false }
        }
    }
}

/// The row of a frame that is found by call frame information.
fn row_of<'f, 'r, 'a>(found: &'f FoundFrame<'r, 'a>) -> Option<&'f RowRef<'r, 'a>>
    ensures { (image : List Span) (c : Context) (frame : FrameAt) → IsFrameOf found.now frame →
        popped_at image c (Ok (Some frame)) ≡
        popped_by_row image c (option_map (λ row. row.now) result) }
{
    match found {
        FoundFrame::Searched(searched) => Some(&searched.row),
        FoundFrame::Prepared(_, prepared) => match prepared.row() {
            Ok(row) => Some(row),
            Err(_) => None,
        },
        FoundFrame::Compact(_) | FoundFrame::Recorded(_) => None,
    }
}

/// Walks over an image and the slots of the registers that were popped, by what is found at the
/// frame at which the thread was interrupted.
fn walk_by_frame<'s, 't>(
    found: &FoundFrame<'_, '_>,
    space: &'s Space<'t>,
    image: &'s MemoryImage<'s>,
    start: &Context,
    limit: u32,
    room: &mut Room,
) -> KeptWalk
where
    't: 's,
    requires within { limit ≤ room.old.limit }
    requires grows { Grows space.now.image image.now }
    ensures walk { (frame : FrameAt) → IsFrameOf found.now frame →
        IsKeptWalk (over_image space.now image.now)
        (popped_at image.now start.now (Ok (Some frame))) limit start.now room.new.visited result }
    ensures no_cleanup { room.new.trail ≡ [] }
    ensures places { room.new.limit ≡ room.old.limit }
{
    match row_of(found) {
        Some(row) => walk_by_row(row, space, image, start, limit, room),
        None => {
            let why = walk_over(space, image, start, limit, room);
            KeptWalk { why, popped: false }
        }
    }
}

/// Walks over an image and the slots of the registers that were popped where a thread was
/// interrupted.
fn walk_with_popped<'s, 't>(
    space: &'s Space<'t>,
    image: &'s MemoryImage<'s>,
    start: &Context,
    limit: u32,
    room: &mut Room,
) -> KeptWalk
where
    't: 's,
    requires within { limit ≤ room.old.limit }
    requires grows { Grows space.now.image image.now }
    ensures walk { IsKeptWalk (over_image space.now image.now)
        (popped_at image.now start.now (frame_of (over_image space.now image.now) start.now true))
        limit start.now room.new.visited result }
    ensures no_cleanup { room.new.trail ≡ [] }
    ensures places { room.new.limit ≡ room.old.limit }
{
    let state = Stepped {
        context: *start,
        signal: true,
    };
    let mut place = None;
    let mut rows = RowRoom::new();
    let steps = &mut Steps::new(NoLedger);
    let grown = GrownSpace::new(space, image);
    let mut stepper = Stepper::over(&grown, start.registers[RSP]);
    let found = stepper.frame_at(&state, &mut place, &mut rows, steps);
    match &found {
        Ok(Some(frame)) => walk_by_frame(frame, space, image, start, limit, room),
        _ => {
            let why = walk_over(space, image, start, limit, room);
            KeptWalk { why, popped: false }
        }
    }
}

/// Whether a walk ended at its first state as something isn't mapped.
fn is_cut_at_start(why: EndReason, room: &Room) -> bool
    ensures { result ≡ is_cut_at_start why (length room.now.visited) }
{
    match why {
        EndReason::Refused {
            error: DeliverError::Unmapped(_),
            ..
        } => room.visited_len() == 1,
        _ => false,
    }
}

/// Walks a stack from where its thread was interrupted, over a space that is seen over an image
/// which maps what its own does, into a room as far as it goes, and answers why it goes no further.
///
/// It is the walk of [`walk_to_end_over`], but where the step from the first state meets what isn't
/// mapped. There each of RBX, RBP, R12 to R15, RAX and RDX of which the row says that it lies in a slot
/// below the stack pointer, and of whose slot not all bytes are mapped, counts as popped: its slot holds
/// what the register holds, in this walk alone. Where any counts so, the answer is marked.
///
/// Frames at addresses whose rows stand in `made` need no search, but in a walk that keeps popped registers.
pub fn walk_interrupted<'s, 't>(
    space: &'s Space<'t>,
    image: &'s MemoryImage<'s>,
    made: &mut MadeRows<'s>,
    start: &Context,
    limit: u32,
    room: &mut Room,
) -> KeptWalk
where
    't: 's,
    requires within { limit ≤ room.old.limit }
    requires grows { Grows space.now.image image.now }
    requires made { AreMade (over_image space.now image.now) made.old }
    // The states are those from the start outwards, over the memory that keeps popped registers.
    ensures states { room.new.visited ≡ contexts_to_end
        (kept_space (over_image space.now image.now) limit start.now) limit start.now true }
    // The reason is that of this walk.
    ensures why { ComesTo result.why
        (kept_space (over_image space.now image.now) limit start.now) limit start.now true }
    // It is marked exactly where a register was popped.
    ensures popped { result.popped ≡ is_popped (over_image space.now image.now) limit start.now }
    // A stack that is walked whole without this is walked so, and not marked.
    ensures whole { (states : List Context) →
        line_of (over_image space.now image.now) limit start.now true ≡ Ok states →
        (room.new.visited ≡ states) × (result.popped ≡ false) }
    ensures no_cleanup { room.new.trail ≡ [] }
    ensures places { room.new.limit ≡ room.old.limit }
    // The rows stay those of the space.
    ensures made { AreMade (over_image space.now image.now) made.new }
{
    let why = walk_over_made(space, image, made, start, limit, room);
    if is_cut_at_start(why, room) {
        walk_with_popped(space, image, start, limit, room)
    } else {
        KeptWalk { why, popped: false }
    }
}

/// Walks as [`walk_interrupted`] does over the space of a cache, by the rows that the cache keeps. Most
/// frames at addresses whose rows it keeps, from whichever walk, need no search, but in a walk that
/// keeps popped registers.
pub fn walk_interrupted_cached<'s, 'c, 't>(
    cache: &mut FrameCache<'c, 't>,
    image: &'s MemoryImage<'s>,
    start: &Context,
    limit: u32,
    room: &mut Room,
) -> KeptWalk
where
    't: 's,
    'c: 's,
    requires within { limit ≤ room.old.limit }
    requires grows { Grows cache.old.image image.now }
    // The states are those from the start outwards, over the memory that keeps popped registers.
    ensures states { room.new.visited ≡ contexts_to_end
        (kept_space (over_image cache.old image.now) limit start.now) limit start.now true }
    // The reason is that of this walk.
    ensures why { ComesTo result.why
        (kept_space (over_image cache.old image.now) limit start.now) limit start.now true }
    // It is marked exactly where a register was popped.
    ensures popped { result.popped ≡ is_popped (over_image cache.old image.now) limit start.now }
    // A stack that is walked whole without this is walked so, and not marked.
    ensures whole { (states : List Context) →
        line_of (over_image cache.old image.now) limit start.now true ≡ Ok states →
        (room.new.visited ≡ states) × (result.popped ≡ false) }
    ensures same { cache.new ≡ cache.old }
    ensures no_cleanup { room.new.trail ≡ [] }
    ensures places { room.new.limit ≡ room.old.limit }
{
    let why = walk_over_cached(cache, image, start, limit, room);
    if is_cut_at_start(why, room) {
        walk_with_popped(cache.space(), image, start, limit, room)
    } else {
        KeptWalk { why, popped: false }
    }
}
