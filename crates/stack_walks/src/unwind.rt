// The way outwards over a stack, of a walk and of the passes of a delivery. Itanium C++ ABI, exception
// handling, level I, section 1.3.
ghost use Rattle.std.specs.Prelude.{◌≡◌, ◌≤◌, ◌<◌, ◌*◌, Err, [], true, false};
ghost use Rattle.std.specs.Prelude.{length, None, Some, Ok, OnErr, IfOk};
ghost use Rattle.stack_walks.specs.FrameVisits.{stops, stop_of, past_arguments, visit_for, line_for};
ghost use Rattle.stack_walks.specs.FrameVisits.{mark_at, enters};
ghost use Rattle.stack_steps.specs.MadeRows.{AreMade};
ghost use Rattle.stack_steps.specs.Languages.{selector_of};
ghost use Rattle.stack_walks.specs.WalkEnds.{reached_by, turned_from, IsReached, UnwindsAsWalk};
ghost use Rattle.stack_steps.specs.FrameViews.{GivesFrameAt, IsFrameOf};
ghost use Rattle.stack_steps.specs.Growing.{IsSeenOver};
ghost use Rattle.stack_steps.specs.Stepping.{frame_of};
ghost use Rattle.stack_steps.specs.Frames.{FrameAt};
ghost use Rattle.stack_walks.specs.VisitViews.{passing, visit_shown, visits};
ghost use Rattle.stack_walks.specs.VisitViews.{visited_with, StaysAt, IsUnwinding};
ghost use Rattle.memory_image.specs.Results.{result_map};
ghost use Rattle.stack_walks.specs.ContextsMet.{contexts_met};
ghost use Rattle.stack_steps.specs.Ticking.{RisesWithin, TicksAt};

use crate::room::Room;
use eh_frame::RowRoom;
use fde_finders::FDESearchResult;
use memory_image::{Ledger, MemoryImage, Steps};
use stack_steps::{
    DeliverError, FoundFrame, FrameAction, FrameCache, GrownSpace, Languages, MadeRows, Space,
    Stepped, Stepper, frame_asks,
};
use unwind_arch::x86_64::{Context, RAX, RDX, RSP};
use unwinding_frames::frame_mark;

/// What a pass over the stack is for.
#[derive(Clone, Copy)]
pub enum Phase {
    /// To find a frame that takes the exception.
    Search,
    /// To run the cleanups on the way to it, and to enter its handler.
    Cleanup,
}

impl Phase {
    /// Whether a pass stops at a frame of which this is asked.
    fn stops(self, action: FrameAction) -> bool
        ensures { result ≡ stops self action }
    {
        match action {
            FrameAction::Nothing => false,
            FrameAction::Cleanup(_) => matches!(self, Phase::Cleanup),
            FrameAction::Handler(_, _)
            | FrameAction::Terminate
            | FrameAction::TerminateAfterCleanups => true,
        }
    }
}

/// A pass over the stack.
#[derive(Clone, Copy)]
pub struct Pass<'l> {
    /// What it is for.
    pub phase: Phase,
    /// The languages of the functions that it asks.
    pub languages: Languages<'l>,
}

/// What a pass stops for. The frame is the one at the state that the pass leaves.
#[derive(Clone, Copy)]
pub struct Stop {
    action: FrameAction,
    // how many bytes of arguments the frame's callee removes
    arguments: u64,
}

impl Stop {
    /// What is asked there.
    pub fn action(&self) -> FrameAction
        ensures { result ≡ self.now.action }
    {
        self.action
    }

    /// Makes the frame's registers those with which a landing pad of it is entered.
    pub fn enter(&self, context: &mut Context, exception: u64, pad: u64)
        ensures { context.new ≡ enters (past_arguments context.old self.now.arguments) exception
            (selector_of self.now.action) pad }
    {
        // Past the arguments that the callee removes.
        context.registers[RSP] = context.registers[RSP].wrapping_add(self.arguments);
        context.registers[RAX] = exception;
        context.registers[RDX] = self.action.selector();
        context.ra = pad;
    }
}

/// The mark by which a later pass knows the frame at a state.
pub fn mark_of(state: &Stepped) -> u64
    ensures { result ≡ mark_at state.now.context state.now.signal }
{
    frame_mark(state.context.registers[RSP], state.signal)
}

/// What is met at a state.
#[derive(Clone, Copy)]
enum FrameVisit {
    /// The end of the stack.
    End,
    /// An action for which the pass stops, and how many bytes of arguments the callee removes.
    Stop(FrameAction, u64),
    /// The caller, which stands in the state's place.
    Caller,
}

/// The action for which a pass stops at a frame. A walk, which is no pass, stops for none.
#[inline(always)]
fn stop_action(
    pass: &Option<Pass<'_>>,
    image: &MemoryImage<'_>,
    state: &Stepped,
    frame: &FoundFrame<'_, '_>,
) -> Result<Option<FrameAction>, DeliverError>
    ensures { (f : FrameAt) → IsFrameOf frame.now f →
        result ≡ stop_of (passing pass.now) image.now state.now.context
        state.now.signal f }
{
    let Some(pass) = pass else {
        return Ok(None);
    };
    let action = frame_asks(&pass.languages, image, state, frame)?;
    if pass.phase.stops(action) {
        Ok(Some(action))
    } else {
        Ok(None)
    }
}

/// What a walk or a pass meets at a frame that was found at a state. Where that is the caller, it
/// stands in the state's place.
#[inline(always)]
#[tactic(auto, unfolding(crate::specs::FrameVisits::visit_for))]
fn visit_found<'t, 'a>(
    pass: &Option<Pass<'_>>,
    stepper: &mut Stepper<'_, 't, 'a>,
    state: &mut Stepped,
    frame: &FoundFrame<'_, 'a>,
) -> Result<FrameVisit, DeliverError>
where
    't: 'a,
    requires found { GivesFrameAt (Ok (Some frame.now))
        (frame_of stepper.old state.old.context state.old.signal) }
    ensures same { stepper.new ≡ stepper.old }
    ensures met { result_map (visit_shown state.new) result ≡
        visit_for (passing pass.now) stepper.old state.old.context state.old.signal }
    ensures stays { IfOk result (λ visit. StaysAt visit state.old state.new) }
    ensures unmoved { OnErr result (state.new ≡ state.old) }
{
    if let Some(action) = stop_action(pass, stepper.image(), state, frame)? {
        return Ok(FrameVisit::Stop(action, frame.arguments()));
    }
    stepper.step_to_caller(state, frame)?;
    Ok(FrameVisit::Caller)
}

/// What a walk or a pass meets at a state. Where that is the caller, it stands in the state's
/// place. `place` is for what a search finds.
#[tactic(auto, unfolding(crate::specs::FrameVisits::visit_for))]
fn visit_frame<'t, 'a, L: Ledger>(
    pass: &Option<Pass<'_>>,
    stepper: &mut Stepper<'_, 't, 'a>,
    state: &mut Stepped,
    place: &mut Option<FDESearchResult<'a>>,
    rows: &mut RowRoom<'a>,
    steps: &mut Steps<L>,
) -> Result<FrameVisit, DeliverError>
where
    't: 'a,
    ensures same { stepper.new ≡ stepper.old }
    ensures met { result_map (visit_shown state.new) result ≡
        visit_for (passing pass.now) stepper.old state.old.context state.old.signal }
    ensures stays { IfOk result (λ turn. StaysAt turn state.old state.new) }
    ensures unmoved { OnErr result (state.new ≡ state.old) }
    ensures ticks { TicksAt stepper.old state.old.context state.old.signal steps.old.number
        steps.new.number }
{
    let Some(added_module) = stepper.module_asked(&state.context, state.signal) else {
        return Ok(FrameVisit::End);
    };
    // Each kind of frame is matched where it is found, as what is handed on is copied.
    if added_module.is_prepared() {
        match stepper.prepared_frame(added_module, state, steps) {
            Ok(Some(frame)) => visit_found(pass, stepper, state, &frame),
            Ok(None) => Ok(FrameVisit::End),
            Err(error) => Err(error),
        }
    } else {
        match &stepper.searched_frame(added_module, state, place, rows, steps) {
            Ok(Some(frame)) => visit_found(pass, stepper, state, frame),
            Ok(None) => Ok(FrameVisit::End),
            Err(error) => Err(*error),
        }
    }
}

/// Whether states are put into the room: not by a cleanup pass, as the search put them there.
fn visits(pass: Option<Pass<'_>>) -> bool
    ensures { result ≡ visits (passing pass.entry) }
{
    match pass {
        None => true,
        Some(pass) => match pass.phase {
            Phase::Search => true,
            Phase::Cleanup => false,
        },
    }
}

/// Puts a state into the room, but in a cleanup pass.
fn record_visit(pass: Option<Pass<'_>>, state: &Stepped, room: &mut Room)
    requires { visits (passing pass) ≡ true → length room.old.visited < room.old.limit }
    ensures { room.new ≡ visited_with (visits (passing pass.entry)) room.old state.now.context }
{
    if visits(pass) {
        let _ = room.visit(state.context.copied());
    }
}

/// Goes from a state outwards: a walk, which is no pass and puts each state into the room, the
/// search, which does so too, or a cleanup pass. It answers where it stops, `None` at the end of
/// the stack. `state` is then the last state that was met or, after `FrameLimit`, the next. `place`
/// is for what a search finds, and what it holds at first doesn't matter.
pub fn unwind_frames_over<'t, 'a, L: Ledger>(
    pass: Option<Pass<'_>>,
    stepper: &mut Stepper<'_, 't, 'a>,
    state: &mut Stepped,
    limit: u32,
    room: &mut Room,
    place: &mut Option<FDESearchResult<'a>>,
    rows: &mut RowRoom<'a>,
    steps: &mut Steps<L>,
) -> Result<Option<Stop>, DeliverError>
where
    't: 'a,
    requires within { limit ≤ room.old.limit }
    requires empty { visits (passing pass) ≡ true → room.old.visited ≡ [] }
    ensures exact { IsUnwinding (visits (passing pass.entry)) result room.new state.new
        (line_for (passing pass.entry) stepper.old limit state.old.context
        state.old.signal) }
    ensures reached { IsReached (visits (passing pass.entry)) room.new state.new
        (reached_by (turned_from (passing pass.entry) stepper.old) limit state.old) }
    ensures kept { (room.new.trail ≡ room.old.trail) × (room.new.limit ≡ room.old.limit) }
    ensures stays { visits (passing pass.entry) ≡ false → room.new ≡ room.old }
    ensures same { stepper.new ≡ stepper.old }
    ensures ticks { RisesWithin stepper.old
        (contexts_met (passing pass.entry) stepper.old limit state.old.context
        state.old.signal)
        steps.old.number steps.new.number }
{
    for _ in 0..limit {
        record_visit(pass, state, room);
        match visit_frame(&pass, stepper, state, place, rows, steps)? {
            FrameVisit::End => return Ok(None),
            FrameVisit::Stop(action, arguments) => return Ok(Some(Stop { action, arguments })),
            FrameVisit::Caller => {}
        }
    }
    Err(DeliverError::FrameLimit)
}

/// Goes from a state outwards as a walk does. No room for rows is lent, and none is made where each
/// module is prepared: it takes some 4 KB, which are cleared. Else each frame that wants one makes it.
pub(crate) fn unwind_frames_alone<'t, 'a, L: Ledger>(
    space: &GrownSpace<'_, 't, 'a>,
    state: &mut Stepped,
    limit: u32,
    room: &mut Room,
    steps: &mut Steps<L>,
) -> Result<Option<Stop>, DeliverError>
where
    't: 'a,
    requires within { limit ≤ room.old.limit }
    requires empty { room.old.visited ≡ [] }
    ensures walks { UnwindsAsWalk space.now limit state.old state.new room.old room.new result }
    ensures ticks { RisesWithin space.now
        (contexts_met None space.now limit state.old.context state.old.signal)
        steps.old.number steps.new.number }
{
    let mut stepper = Stepper::over(space, state.context.registers[RSP]);
    for _ in 0..limit {
        record_visit(None, state, room);
        if !stepper.advance(state, steps)? {
            return Ok(None);
        }
    }
    Err(DeliverError::FrameLimit)
}

/// The same by the rows that a cache keeps, so that most frames at addresses whose rows are there need
/// no search.
pub(crate) fn unwind_frames_cached<'t, 'a, L: Ledger>(
    cache: &mut FrameCache<'_, 't>,
    space: &GrownSpace<'_, 't, 'a>,
    state: &mut Stepped,
    limit: u32,
    room: &mut Room,
    steps: &mut Steps<L>,
) -> Result<Option<Stop>, DeliverError>
where
    't: 'a,
    requires over { IsSeenOver cache.old space.now }
    requires within { limit ≤ room.old.limit }
    requires empty { room.old.visited ≡ [] }
    ensures walks { UnwindsAsWalk space.now limit state.old state.new room.old room.new result }
    ensures ticks { RisesWithin space.now
        (contexts_met None space.now limit state.old.context state.old.signal)
        steps.old.number steps.new.number }
    ensures same { cache.new ≡ cache.old }
{
    let mut stepper = Stepper::over(space, state.context.registers[RSP]);
    for _ in 0..limit {
        record_visit(None, state, room);
        if !cache.advance(&mut stepper, state, steps)? {
            return Ok(None);
        }
    }
    Err(DeliverError::FrameLimit)
}

/// Goes from a state outwards as a walk does, by the rows that were made before in modules that aren't
/// prepared, so that frames at addresses whose rows are there need no search.
pub(crate) fn unwind_frames_by_made<'t, 'a, L: Ledger>(
    space: &GrownSpace<'_, 't, 'a>,
    state: &mut Stepped,
    limit: u32,
    room: &mut Room,
    made: &mut MadeRows<'a>,
    steps: &mut Steps<L>,
) -> Result<Option<Stop>, DeliverError>
where
    't: 'a,
    requires within { limit ≤ room.old.limit }
    requires empty { room.old.visited ≡ [] }
    requires made { AreMade space.now made.old }
    ensures walks { UnwindsAsWalk space.now limit state.old state.new room.old room.new result }
    ensures ticks { RisesWithin space.now
        (contexts_met None space.now limit state.old.context state.old.signal)
        steps.old.number steps.new.number }
    ensures made { AreMade space.now made.new }
{
    let mut stepper = Stepper::over(space, state.context.registers[RSP]);
    let mut rows = RowRoom::new();
    for _ in 0..limit {
        record_visit(None, state, room);
        if !stepper.advance_by_made(made, state, &mut rows, steps)? {
            return Ok(None);
        }
    }
    Err(DeliverError::FrameLimit)
}

/// Goes from a state outwards over a space, as [`unwind_frames_over`] does.
pub fn unwind_frames<'a, L: Ledger>(
    pass: Option<Pass<'_>>,
    space: &Space<'a>,
    state: &mut Stepped,
    limit: u32,
    room: &mut Room,
    rows: &mut RowRoom<'a>,
    steps: &mut Steps<L>,
) -> Result<Option<Stop>, DeliverError>
    requires within { limit ≤ room.old.limit }
    requires empty { visits (passing pass) ≡ true → room.old.visited ≡ [] }
    ensures exact { IsUnwinding (visits (passing pass.entry)) result room.new state.new
        (line_for (passing pass.entry) space.now limit state.old.context
        state.old.signal) }
    ensures reached { IsReached (visits (passing pass.entry)) room.new state.new
        (reached_by (turned_from (passing pass.entry) space.now) limit state.old) }
    ensures kept { (room.new.trail ≡ room.old.trail) × (room.new.limit ≡ room.old.limit) }
    ensures stays { visits (passing pass.entry) ≡ false → room.new ≡ room.old }
    ensures ticks { RisesWithin space.now
        (contexts_met (passing pass.entry) space.now limit state.old.context
        state.old.signal)
        steps.old.number steps.new.number }
{
    let own = space.over_own_image();
    let mut stepper = Stepper::over(&own, state.context.registers[RSP]);
    let mut place = None;
    unwind_frames_over(
        pass,
        &mut stepper,
        state,
        limit,
        room,
        &mut place,
        rows,
        steps,
    )
}
