//! The passes over a stack: its frames are asked one after another, from a context outwards.
//!
//! Itanium C++ ABI, exception handling, sections 1.3 and 1.6.

ghost use Rattle.std.specs.Prelude.{◌≡◌, pos, ℕ, List, Option, Result};
ghost use Rattle.std.specs.Option.{option_map};
ghost use Rattle.unwind_definitions.specs.Row.{RowInstructions};
ghost use Rattle.unwind_definitions.specs.Caller.{Columns, StepFault};
ghost use Rattle.frame_rows.specs.Rows.{IsRowOf};
ghost use Rattle.unwinding_frames.specs.Calling.{machine_of};
ghost use Rattle.unwinding_frames.specs.Passes.{Line, IsLine, frame_mark, by_force, without_mark};
ghost use Rattle.unwinding_frames.specs.Passes.{visit_asked, visit_seen};
ghost use Rattle.unwinding_frames.specs.Passes.{answer_of_personality};
ghost use Rattle.unwinding_frames.specs.Seen.{FrameSeen, SeesFrame, in_column, past_in_column};
ghost use Rattle.unwinding_frames.specs.Seen.{undoing, stepping, answering};
ghost use Rattle.unwinding_frames.specs.LanguageViews.{answer_seen};
ghost use Rattle.unwinding_frames.specs.ContextSeen.{frame_seen};
ghost use Rattle.unwinding_core.specs.Stopping.{stopping};
ghost use Rattle.unwinding_core.specs.FrameVisits.{IsSeen, thrown_of, actions_in, answer_shown, asks_in};
ghost use Rattle.unwinding_core.specs.FrameVisits.{visit_shown, end_shown};

use crate::abi::stop::Stop;
use eh_frame::RegisterMap;
use fde_finders::FDEFinder;
use memory_image::{Ledger, MemoryImage, Steps};
use unwind_arch::Machine;
use unwinding_frames::{
    Frame, Personality, StepError, UnwindAction, UnwindContext, UnwindReasonCode, frame_mark,
};

/// What a pass over the stack is for.
#[derive(Clone, Copy)]
pub(crate) enum Phase {
    /// To find a frame that takes the exception.
    Search,
    /// To run cleanups on the way to the frame with this mark, and to enter its handler.
    Cleanup(u64),
    /// To run cleanups until it is stopped.
    Forced,
}

/// What the frames of a pass are asked for, and for which exception.
#[derive(Clone, Copy)]
pub(crate) struct Call {
    pub(crate) exception_class: u64,
    pub(crate) word: u64,
    pub(crate) phase: Phase,
}

/// An answer, and the context that is left.
#[derive(Clone, Copy)]
pub(crate) struct Answer<C> {
    pub(crate) code: UnwindReasonCode,
    pub(crate) left: C,
}

/// What a pass meets at a context.
#[derive(Clone, Copy)]
pub(crate) enum FrameVisit<C> {
    /// The end of the stack.
    End,
    /// An answer other than to go on: it, the context that is left, and that past the frame's
    /// arguments.
    Stop(UnwindReasonCode, C, C),
    /// The caller, and whether it stands after a signal's frame.
    Caller(C, bool),
}

/// How a pass ends.
#[derive(Clone, Copy)]
pub(crate) enum LineEnd<C> {
    /// With the stack: its last context, and whether that stands after a signal's frame.
    RanOut(C, bool),
    /// With an answer other than to go on: the context, whether it stands after a signal's frame,
    /// the answer, the context that is left, and that past the frame's arguments.
    Decided(C, bool, UnwindReasonCode, C, C),
    /// With a fault.
    Failed(StepError),
    /// With more contexts than are allowed.
    Crowded,
}

/// By what a later pass knows a frame: its stack pointer, less 1 after a signal's frame.
pub(crate) fn mark<M: Machine>(context: &M::Context, signal: bool) -> u64
    ensures { result ≡ frame_mark signal (in_column M.SP.0 (M.Context.columns context.now)) }
{
    frame_mark(context.get(M::SP).unwrap_or(0), signal)
}

/// The context past the arguments that the frame's callee removes.
pub(crate) fn past_arguments<M: Machine>(frame: &Frame<'_, M>, context: &M::Context) -> M::Context
    ensures { M.Context.columns result ≡ past_in_column M.SP.0 frame.now.row.saved_args_size
        (M.Context.columns context.now) }
{
    let mut past = *context;
    frame.adjust_stack_for_args(&mut past);
    past
}

/// The frame at a context, `None` at the end of the stack.
pub(crate) fn frame_at<'a, M: Machine, F: FDEFinder, L: Ledger>(
    image: &MemoryImage<'a>,
    finder: &F,
    context: &M::Context,
    signal: bool,
    steps: &mut Steps<L>,
) -> Result<Option<Frame<'a, M>>, StepError>
    ensures { (seen : Result (Option FrameSeen) StepFault) ×
        SeesFrame (F.finds finder.now) image.now (in_column M.RA.0 (M.Context.columns context.now))
        signal seen × IsSeen result seen }
{
    Frame::from_context(image, finder, context, signal, steps)
}

impl Phase {
    /// What the personality of a frame with a mark is asked.
    fn actions(self, mark: u64) -> UnwindAction
        ensures { result ≡ actions_in self mark }
    {
        match self {
            Phase::Search => UnwindAction::SEARCH_PHASE,
            Phase::Cleanup(kept) if mark == kept => {
                UnwindAction::CLEANUP_PHASE | UnwindAction::HANDLER_FRAME
            }
            Phase::Cleanup(_) => UnwindAction::CLEANUP_PHASE,
            Phase::Forced => UnwindAction::FORCE_UNWIND | UnwindAction::CLEANUP_PHASE,
        }
    }
}

/// What the personality of a frame answers, where its description names one: else to go on.
fn personality_answer<'a, M: Machine, P: Personality<M>>(
    image: &MemoryImage<'a>,
    frame: &Frame<'a, M>,
    personality: &P,
    call: Call,
    actions: UnwindAction,
    context: &M::Context,
    signal: bool,
) -> Result<Answer<M::Context>, StepError>
    ensures { (run : RowInstructions) → answer_seen (answer_shown M.Context.columns) result ≡
        answer_of_personality (answering (P.answers personality.now) image.now (thrown_of call)) actions
        (record { value = frame.now; run = run })
        (record { context = M.Context.columns context.now; signal = signal }) }
{
    let mut left = *context;
    let Some(routine) = frame.personality(image)? else {
        let code = UnwindReasonCode::CONTINUE_UNWIND;
        return Ok(Answer { code, left });
    };
    let mut unwind_ctx = UnwindContext::new(image, Some(frame), &mut left, signal);
    let code = personality.call(
        routine,
        1,
        actions,
        call.exception_class,
        call.word,
        &mut unwind_ctx,
    );
    let left = unwind_ctx.context();
    Ok(Answer { code, left })
}

/// What a stop answers at a frame, or at the end of the stack where there is none.
pub(crate) fn stop_answer<'a, M: Machine, T: Stop<M>>(
    image: &MemoryImage<'a>,
    frame: Option<&Frame<'a, M>>,
    stop: &mut T,
    call: Call,
    actions: UnwindAction,
    context: &M::Context,
    signal: bool,
) -> Answer<M::Context>
    ensures { (result.code, M.Context.columns result.left, T.words stop.new) ≡
        T.stops (T.words stop.old)
        (record { version = pos 1; actions = actions; class = call.exception_class })
        (frame_seen image.now (option_map (λ f. f.now) frame.entry)
        (M.Context.columns context.now) signal) }
{
    let mut left = *context;
    let mut unwind_ctx = UnwindContext::new(image, frame, &mut left, signal);
    let code = stop.stop(1, actions, call.exception_class, &mut unwind_ctx);
    let left = unwind_ctx.context();
    Answer { code, left }
}

/// What is answered at a frame of a forced pass: by `stop` first, and then by the frame's
/// personality, which takes the context that `stop` left.
fn forced_answer<'a, M: Machine, P: Personality<M>, T: Stop<M>>(
    image: &MemoryImage<'a>,
    frame: &Frame<'a, M>,
    personality: &P,
    stop: &mut T,
    call: Call,
    context: &M::Context,
    signal: bool,
) -> Result<Answer<M::Context>, StepError>
    ensures { (run : RowInstructions) →
        (T.words stop.new, answer_seen (answer_shown M.Context.columns) result) ≡
        by_force (answering (P.answers personality.now) image.now (thrown_of call))
        (stopping T.stops image.now (thrown_of call)) (T.words stop.old)
        (record { value = frame.now; run = run })
        (record { context = M.Context.columns context.now; signal = signal }) }
{
    let actions = Phase::Forced.actions(0);
    let stopped = stop_answer(image, Some(frame), stop, call, actions, context, signal);
    if stopped.code != UnwindReasonCode::NO_REASON {
        let code = UnwindReasonCode::FATAL_PHASE2_ERROR;
        return Ok(Answer {
            code,
            left: stopped.left,
        });
    }
    personality_answer(
        image,
        frame,
        personality,
        call,
        actions,
        &stopped.left,
        signal,
    )
}

/// What is answered at a frame of a pass.
fn frame_answer<'a, M: Machine, P: Personality<M>, T: Stop<M>>(
    image: &MemoryImage<'a>,
    frame: &Frame<'a, M>,
    personality: &P,
    stop: &mut T,
    call: Call,
    context: &M::Context,
    signal: bool,
) -> Result<Answer<M::Context>, StepError>
    ensures { (run : RowInstructions) →
        (T.words stop.new, answer_seen (answer_shown M.Context.columns) result) ≡
        asks_in call.phase (in_column M.SP.0)
        (answering (P.answers personality.now) image.now (thrown_of call))
        (stopping T.stops image.now (thrown_of call)) (T.words stop.old)
        (record { value = frame.now; run = run })
        (record { context = M.Context.columns context.now; signal = signal }) }
{
    if let Phase::Forced = call.phase {
        return forced_answer(image, frame, personality, stop, call, context, signal);
    }
    let actions = call.phase.actions(mark::<M>(context, signal));
    personality_answer(image, frame, personality, call, actions, context, signal)
}

/// What a pass meets at a frame.
fn meet_frame<'a, M: Machine, P: Personality<M>, T: Stop<M>>(
    image: &MemoryImage<'a>,
    frame: &Frame<'a, M>,
    personality: &P,
    stop: &mut T,
    call: Call,
    context: &M::Context,
    signal: bool,
) -> Result<FrameVisit<M::Context>, StepError>
    ensures { (run : RowInstructions) → IsRowOf frame.now.row run →
        visit_shown M.Context.columns
        (record { context = M.Context.columns context.now; signal = signal })
        (T.words stop.new) result ≡
        visit_asked (undoing (machine_of M.SP.0 M.RA.0) image.now)
        (record { value = frame.now; run = run })
        (record { context = M.Context.columns context.now; signal = signal })
        (asks_in call.phase (in_column M.SP.0)
        (answering (P.answers personality.now) image.now (thrown_of call))
        (stopping T.stops image.now (thrown_of call)) (T.words stop.old)
        (record { value = frame.now; run = run })
        (record { context = M.Context.columns context.now; signal = signal })) }
{
    let answer = frame_answer(image, frame, personality, stop, call, context, signal)?;
    if answer.code != UnwindReasonCode::CONTINUE_UNWIND {
        let past = past_arguments(frame, &answer.left);
        return Ok(FrameVisit::Stop(answer.code, answer.left, past));
    }
    let caller = frame.unwind(image, &answer.left)?;
    Ok(FrameVisit::Caller(caller, frame.is_signal_trampoline()))
}

/// What a pass meets at a context: the row is read first, then what names the personality, then
/// there are the answers, and the caller is made last.
fn visit_frame<M: Machine, F: FDEFinder, P: Personality<M>, T: Stop<M>, L: Ledger>(
    image: &MemoryImage<'_>,
    finder: &F,
    personality: &P,
    stop: &mut T,
    call: Call,
    context: &M::Context,
    signal: bool,
    steps: &mut Steps<L>,
) -> Result<FrameVisit<M::Context>, StepError>
    ensures { (seen : Result (Option FrameSeen) StepFault) ×
        SeesFrame (F.finds finder.now) image.now (in_column M.RA.0 (M.Context.columns context.now))
        signal seen ×
        (visit_shown M.Context.columns
        (record { context = M.Context.columns context.now; signal = signal })
        (T.words stop.new) result ≡
        visit_seen (undoing (machine_of M.SP.0 M.RA.0) image.now)
        (asks_in call.phase (in_column M.SP.0)
        (answering (P.answers personality.now) image.now (thrown_of call))
        (stopping T.stops image.now (thrown_of call)))
        (T.words stop.old) (record { context = M.Context.columns context.now; signal = signal })
        seen) }
{
    match frame_at::<M, F, L>(image, finder, context, signal, steps) {
        Err(fault) => Err(fault),
        Ok(None) => Ok(FrameVisit::End),
        Ok(Some(frame)) => meet_frame(image, &frame, personality, stop, call, context, signal),
    }
}

/// A pass from a context outwards, over as many contexts as `limit` allows.
pub(crate) fn pass<M: Machine, F: FDEFinder, P: Personality<M>, T: Stop<M>, L: Ledger>(
    image: &MemoryImage<'_>,
    finder: &F,
    personality: &P,
    stop: &mut T,
    call: Call,
    start: &M::Context,
    limit: u32,
    steps: &mut Steps<L>,
) -> LineEnd<M::Context>
    ensures { (line : Line Columns StepFault (List ℕ)) ×
        IsLine (stepping (machine_of M.SP.0 M.RA.0) (F.finds finder.now) image.now)
        (asks_in call.phase (in_column M.SP.0)
        (answering (P.answers personality.now) image.now (thrown_of call))
        (stopping T.stops image.now (thrown_of call)))
        limit (T.words stop.old) (without_mark (M.Context.columns start.now)) line ×
        (end_shown M.Context.columns result ≡ line.end) × (T.words stop.new ≡ line.state) }
{
    let mut context = *start;
    let mut signal = false;
    for _ in 0..limit {
        match visit_frame(
            image,
            finder,
            personality,
            stop,
            call,
            &context,
            signal,
            steps,
        ) {
            Err(fault) => return LineEnd::Failed(fault),
            Ok(FrameVisit::End) => return LineEnd::RanOut(context, signal),
            Ok(FrameVisit::Stop(code, left, past)) => {
                return LineEnd::Decided(context, signal, code, left, past);
            }
            Ok(FrameVisit::Caller(next, next_signal)) => {
                context = next;
                signal = next_signal;
            }
        }
    }
    LineEnd::Crowded
}
