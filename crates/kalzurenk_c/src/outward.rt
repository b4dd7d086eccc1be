// The way outwards over a stack: its frames, each put into its place as it is met, and why there are no
// more.
ghost use Rattle.std.specs.Prelude.{◌≡◌, ◌≢◌, ◌≤◌, length, Ok, true};
ghost use Rattle.memory_image.specs.Results.{result_map};
ghost use Rattle.stack_steps.specs.Growing.{advanced_to};
ghost use Rattle.stack_steps.specs.Modules.{SpaceValue};
ghost use Rattle.stack_steps.specs.Stepping.{step_of};
ghost use Rattle.kalzurenk_c.specs.Told.{TellsFront, over};
ghost use Rattle.kalzurenk_c.specs.Outward.{HasNoNext, IsStop, StopsFor, states_from};

use crate::sample::Unwinding;
use crate::told::{StackFrame, WalkEnd, end_told, frame_of};
use fde_finders::FDESearchResult;
use memory_image::{Ledger, NoLedger, Steps};
use stack_steps::{DeliverError, GrownSpace, Stepped, Stepper};
use stack_walks::{EndReason, RowRoom, unframed_end};
use unwind_arch::x86_64::RSP;

/// Where a walk starts, and how many frames it may have.
#[derive(Drop)]
pub(crate) struct WalkStart {
    pub(crate) state: Stepped,
    pub(crate) limit: u32,
}

/// How far a walk came.
#[derive(Clone, Copy, Drop)]
struct WalkStop {
    /// How many states were met.
    count: u32,
    /// What the step from the last of them answered: that there is a caller, where there is no
    /// place for it.
    last: Result<bool, DeliverError>,
}

/// What goes from frame to frame over a space.
trait Advance {
    /// The space.
    ghost space: { Self → SpaceValue };

    /// Puts the caller of the frame at a state in the state's place, and answers whether there is one. At
    /// the end of the stack and after a fault the state is as before.
    fn advance(&mut self, state: &mut Stepped) -> Result<bool, DeliverError>
        ensures step { result_map (advanced_to state.new) result ≡
            step_of (space self.old) state.old.context state.old.signal }
        ensures stays { (result ≢ Ok true) → state.new ≡ state.old }
        ensures same { space self.new ≡ space self.old };
}

/// Over a space each of whose modules is prepared.
#[derive(Drop)]
struct PreparedAdvance<'s, 't, 'a> {
    stepper: Stepper<'s, 't, 'a>,
    steps: Steps<NoLedger>,
}

impl<'s, 't, 'a> Advance for PreparedAdvance<'s, 't, 'a>
where
    't: 'a,
{
    ghost space = { λ p. p.stepper };

    #[inline(always)]
    fn advance(&mut self, state: &mut Stepped) -> Result<bool, DeliverError> {
        self.stepper.advance(state, &mut self.steps)
    }
}

/// The same where not each module is prepared, with the rooms for what isn't.
#[derive(Drop)]
struct SearchedAdvance<'s, 't, 'a> {
    stepper: Stepper<'s, 't, 'a>,
    place: Option<FDESearchResult<'a>>,
    rows: RowRoom<'a>,
    steps: Steps<NoLedger>,
}

impl<'s, 't, 'a> Advance for SearchedAdvance<'s, 't, 'a>
where
    't: 'a,
{
    ghost space = { λ s. s.stepper };

    #[inline(always)]
    fn advance(&mut self, state: &mut Stepped) -> Result<bool, DeliverError> {
        advance_in(
            &mut self.stepper,
            state,
            &mut self.place,
            &mut self.rows,
            &mut self.steps,
        )
    }
}

/// Puts the caller of the frame at a state in the state's place, with rooms for what isn't prepared.
#[tactic(auto, unfolding(stack_steps::specs::Stepping::step_of))]
fn advance_in<'t, 'a, L: Ledger>(
    stepper: &mut Stepper<'_, 't, 'a>,
    state: &mut Stepped,
    place: &mut Option<FDESearchResult<'a>>,
    rows: &mut RowRoom<'a>,
    steps: &mut Steps<L>,
) -> Result<bool, DeliverError>
where
    't: 'a,
    ensures step { result_map (advanced_to state.new) result ≡
        step_of stepper.old state.old.context state.old.signal }
    ensures stays { (result ≢ Ok true) → state.new ≡ state.old }
    ensures same { stepper.new ≡ stepper.old }
{
    let found = stepper.frame_at(state, place, rows, steps);
    match &found {
        Ok(None) => Ok(false),
        Ok(Some(frame)) => match stepper.step_to_caller(state, frame) {
            Ok(()) => Ok(true),
            Err(error) => Err(error),
        },
        Err(error) => Err(*error),
    }
}

/// Puts the frames from a state outwards into places. `state` becomes the last state that was met, or
/// the next where there is no place for it.
#[inline(always)]
fn put_frames<A: Advance>(
    outward: &mut A,
    state: &mut Stepped,
    limit: u32,
    frames: &mut [StackFrame],
) -> WalkStop
    requires { limit ≤ length frames.old }
    ensures frames { frames.new ≡
        over (states_from (A.space outward.old) limit state.old) frames.old }
    ensures stop { IsStop result (A.space outward.old) limit state.old state.new }
{
    for i in 0..limit {
        frames[i as usize] = frame_of(state);
        match outward.advance(state) {
            Ok(true) => {}
            Ok(false) => return WalkStop {
                count: i + 1,
                last: Ok(false),
            },
            Err(error) => return WalkStop {
                count: i + 1,
                last: Err(error),
            },
        }
    }
    WalkStop {
        count: limit,
        last: Ok(true),
    }
}

/// The same over a space each of whose modules is prepared.
fn prepared_frames<'t, 'a>(
    space: &GrownSpace<'_, 't, 'a>,
    state: &mut Stepped,
    limit: u32,
    frames: &mut [StackFrame],
) -> WalkStop
where
    't: 'a,
    requires { limit ≤ length frames.old }
    ensures frames { frames.new ≡ over (states_from space.now limit state.old) frames.old }
    ensures stop { IsStop result space.now limit state.old state.new }
{
    let mut outward = PreparedAdvance {
        stepper: Stepper::over(space, state.context.registers[RSP]),
        steps: Steps::new(NoLedger),
    };
    put_frames(&mut outward, state, limit, frames)
}

/// The same where not each module is prepared. The rooms for what isn't are made here, once, as a
/// function clears the places of its locals whenever it is called.
#[inline(never)]
fn searched_frames<'t, 'a>(
    space: &GrownSpace<'_, 't, 'a>,
    state: &mut Stepped,
    limit: u32,
    frames: &mut [StackFrame],
) -> WalkStop
where
    't: 'a,
    requires { limit ≤ length frames.old }
    ensures frames { frames.new ≡ over (states_from space.now limit state.old) frames.old }
    ensures stop { IsStop result space.now limit state.old state.new }
{
    let mut outward = SearchedAdvance {
        stepper: Stepper::over(space, state.context.registers[RSP]),
        place: None,
        rows: RowRoom::new(),
        steps: Steps::new(NoLedger),
    };
    put_frames(&mut outward, state, limit, frames)
}

/// Puts the frames of a stack over a space into places, from a state outwards.
fn stack_frames<'t, 'a>(
    space: &GrownSpace<'_, 't, 'a>,
    state: &mut Stepped,
    limit: u32,
    frames: &mut [StackFrame],
) -> WalkStop
where
    't: 'a,
    requires { limit ≤ length frames.old }
    ensures frames { frames.new ≡ over (states_from space.now limit state.old) frames.old }
    ensures stop { IsStop result space.now limit state.old state.new }
{
    if space.is_prepared() {
        prepared_frames(space, state, limit, frames)
    } else {
        searched_frames(space, state, limit, frames)
    }
}

/// Why there are no more frames than those up to a state, by what the step from it answered.
fn front_at(
    space: &GrownSpace<'_, '_, '_>,
    state: &Stepped,
    last: Result<bool, DeliverError>,
) -> EndReason
    requires { HasNoNext last space.now state.now }
    ensures { StopsFor last result space.now state.now }
{
    match last {
        Ok(true) => EndReason::Limit,
        Ok(false) => unframed_end(space, state),
        Err(error) => EndReason::Refused {
            address: state.address(),
            error,
        },
    }
}

/// Walks a stack: puts its frames into places, and tells how many they are and why there are no more.
pub(crate) fn write_walk<'t, 'a>(
    space: &GrownSpace<'_, 't, 'a>,
    start: &WalkStart,
    frames: &mut [StackFrame],
    end: &mut WalkEnd,
)
where
    't: 'a,
    requires { start.now.limit ≤ length frames.old }
    ensures { TellsFront space.now start.now.limit start.now.state frames.old frames.new end.new }
{
    // Its regions are laid out, and no two of its modules share an address, as the types say.
    let _ = space.image();
    let mut state = start.state;
    let stop = stack_frames(space, &mut state, start.limit, frames);
    let why = front_at(space, &state, stop.last);
    *end = end_told(u64::from(stop.count), why);
}

impl Unwinding for WalkStart {
    type Entry = StackFrame;

    type Ending = WalkEnd;

    ghost fits = { λ w places. w.limit ≤ places };

    ghost leaves = { λ w space before frames end.
        TellsFront space w.limit w.state before frames end };

    fn unwind(
        &mut self,
        space: &GrownSpace<'_, 'static, '_>,
        frames: &mut [StackFrame],
        end: &mut WalkEnd,
    ) {
        write_walk(space, &*self, frames, end);
    }
}
