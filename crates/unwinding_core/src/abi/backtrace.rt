//! To visit the frames of a stack. Itanium C++ ABI, exception handling, `_Unwind_Backtrace` of the
//! GNU unwinder.

ghost use Rattle.std.specs.Prelude.{◌≡◌, ℕ, Bool, List, Option, Some, None, Ok, Result};
ghost use Rattle.std.specs.Option.{option_map};
ghost use Rattle.memory_image.specs.Image.{Span};
ghost use Rattle.unwind_definitions.specs.Row.{RowInstructions};
ghost use Rattle.unwind_definitions.specs.Caller.{Columns, StepFault};
ghost use Rattle.frame_rows.specs.Rows.{IsRowOf};
ghost use Rattle.unwinding_frames.specs.ContextSeen.{ContextSeen, frame_seen};
ghost use Rattle.unwinding_frames.specs.ContextSeen.{language_place_of};
ghost use Rattle.unwinding_frames.specs.Calling.{machine_of};
ghost use Rattle.unwinding_frames.specs.Passes.{by_trace, run_out, visit_asked, visit_seen, IsTraced};
ghost use Rattle.unwinding_frames.specs.Seen.{FrameSeen, SeesFrame, in_column, undoing, stepping};
ghost use Rattle.unwinding_core.specs.Stopping.{TraceAnswer, tracing, start_of};
ghost use Rattle.unwinding_core.specs.FrameVisits.{visit_shown};
ghost use Rattle.unwinding_core.specs.Runs.{ended_shown};

use crate::abi::passes::{FrameVisit, frame_at, past_arguments};
use crate::abi::unwound::Cause;
use fde_finders::FDEFinder;
use memory_image::{Ledger, MemoryImage, Steps};
use unwind_arch::Machine;
use unwinding_frames::{Frame, StepError, UnwindContext, UnwindReasonCode};

/// What visits the frames of a stack.
///
/// Contracts see words that the value holds. They, the memory, the frame, the place of its language
/// table where there is one, its registers and whether it stands after a signal's decide the answer
/// and the words afterwards.
pub trait Trace<M: Machine> {
    /// The words that the value holds.
    ghost words: { Self → List ℕ };

    /// The answer, and the words afterwards.
    ghost traces: { List ℕ → ContextSeen → TraceAnswer };

    /// Visits a frame, or the end of the stack where there is none. `NO_REASON` lets the backtrace
    /// go on.
    fn trace(&mut self, unwind_ctx: &UnwindContext<'_, '_, M>) -> UnwindReasonCode
        ensures { (result, words self.new) ≡
            traces (words self.old) (record {
              image = unwind_ctx.now.image.now;
              frame = option_map (λ f. f.now) unwind_ctx.now.frame;
              place = option_map (λ p. language_place_of p.now) unwind_ctx.now.place;
              columns = M.Context.columns unwind_ctx.now.ctx.now;
              signal = unwind_ctx.now.signal;
            }) };
}

/// How a backtrace ends.
#[derive(Clone, Copy, PartialEq, Eq)]
pub struct Ended {
    /// `END_OF_STACK` where all frames were visited, else `FATAL_PHASE1_ERROR`.
    pub code: UnwindReasonCode,
    /// Why, where it is a fault or the limit, and no answer.
    pub cause: Option<Cause>,
}

/// What a trace answers at a frame, or at the end of the stack where there is none.
fn trace_answer<'a, M: Machine, T: Trace<M>>(
    image: &MemoryImage<'a>,
    frame: Option<&Frame<'a, M>>,
    trace: &mut T,
    context: &M::Context,
    signal: bool,
) -> UnwindReasonCode
    ensures { (result, T.words trace.new) ≡ T.traces (T.words trace.old) (frame_seen image.now
        (option_map (λ f. f.now) frame.entry) (M.Context.columns context.now) signal) }
{
    let mut registers = *context;
    let unwind_ctx = UnwindContext::new(image, frame, &mut registers, signal);
    trace.trace(&unwind_ctx)
}

/// Whether a backtrace goes on after a frame. `hidden` is the start of the frame up to which
/// `trace` isn't asked, `None` after it.
fn goes_on<'a, M: Machine, T: Trace<M>>(
    image: &MemoryImage<'a>,
    frame: &Frame<'a, M>,
    trace: &mut T,
    hidden: &mut Option<u64>,
    context: &M::Context,
    signal: bool,
) -> UnwindReasonCode
    ensures { (run : RowInstructions) → (
      record { words = T.words trace.new; hidden = hidden.new },
      Ok (result, M.Context.columns context.now),
    ) ≡
        by_trace {E = StepFault} start_of (tracing T.traces image.now)
        (record { words = T.words trace.old; hidden = hidden.old })
        (record { value = frame.now; run = run })
        (record { context = M.Context.columns context.now; signal = signal }) }
{
    if let Some(start) = *hidden {
        if frame.initial_address() == start {
            *hidden = None;
        }
        return UnwindReasonCode::CONTINUE_UNWIND;
    }
    let code = trace_answer(image, Some(frame), trace, context, signal);
    if code == UnwindReasonCode::NO_REASON {
        UnwindReasonCode::CONTINUE_UNWIND
    } else {
        UnwindReasonCode::FATAL_PHASE1_ERROR
    }
}

/// What a backtrace meets at a frame.
fn meet_frame<'a, M: Machine, T: Trace<M>>(
    image: &MemoryImage<'a>,
    frame: &Frame<'a, M>,
    trace: &mut T,
    hidden: &mut Option<u64>,
    context: &M::Context,
    signal: bool,
) -> Result<FrameVisit<M::Context>, StepError>
    ensures { (run : RowInstructions) → IsRowOf frame.now.row run →
        visit_shown M.Context.columns
        (record { context = M.Context.columns context.now; signal = signal })
        (record { words = T.words trace.new; hidden = hidden.new }) result ≡
        visit_asked (undoing (machine_of M.SP.0 M.RA.0) image.now)
        (record { value = frame.now; run = run })
        (record { context = M.Context.columns context.now; signal = signal })
        (by_trace start_of (tracing T.traces image.now)
        (record { words = T.words trace.old; hidden = hidden.old })
        (record { value = frame.now; run = run })
        (record { context = M.Context.columns context.now; signal = signal })) }
{
    let code = goes_on(image, frame, trace, hidden, context, signal);
    if code != UnwindReasonCode::CONTINUE_UNWIND {
        return Ok(FrameVisit::Stop(code, *context, past_arguments(frame, context)));
    }
    let caller = frame.unwind(image, context)?;
    Ok(FrameVisit::Caller(caller, frame.is_signal_trampoline()))
}

/// What a backtrace meets at a context: the row is read first, then the trace is asked, and the
/// caller is made last.
fn visit_frame<M: Machine, F: FDEFinder, T: Trace<M>, L: Ledger>(
    image: &MemoryImage<'_>,
    finder: &F,
    trace: &mut T,
    hidden: &mut Option<u64>,
    context: &M::Context,
    signal: bool,
    steps: &mut Steps<L>,
) -> Result<FrameVisit<M::Context>, StepError>
    ensures { (seen : Result (Option FrameSeen) StepFault) ×
        SeesFrame (F.finds finder.now) image.now (in_column M.RA.0 (M.Context.columns context.now))
        signal seen ×
        (visit_shown M.Context.columns
        (record { context = M.Context.columns context.now; signal = signal })
        (record { words = T.words trace.new; hidden = hidden.new }) result ≡
        visit_seen (undoing (machine_of M.SP.0 M.RA.0) image.now)
        (by_trace start_of (tracing T.traces image.now))
        (record { words = T.words trace.old; hidden = hidden.old })
        (record { context = M.Context.columns context.now; signal = signal }) seen) }
{
    match frame_at::<M, F, L>(image, finder, context, signal, steps) {
        Err(fault) => Err(fault),
        Ok(None) => Ok(FrameVisit::End),
        Ok(Some(frame)) => meet_frame(image, &frame, trace, hidden, context, signal),
    }
}

/// How a backtrace ends at the end of the stack, where the trace is asked once more unless it is
/// still hidden.
fn last_visit<M: Machine, T: Trace<M>>(
    image: &MemoryImage<'_>,
    trace: &mut T,
    hidden: Option<u64>,
    context: &M::Context,
    signal: bool,
) -> Ended
    ensures { ended_shown result (T.words trace.new) ≡ run_out (tracing T.traces image.now)
        (T.words trace.old) hidden
        (record { context = M.Context.columns context.now; signal = signal }) }
{
    let mut code = UnwindReasonCode::END_OF_STACK;
    if hidden.is_none()
        && trace_answer(image, None, trace, context, signal) != UnwindReasonCode::NO_REASON
    {
        code = UnwindReasonCode::FATAL_PHASE1_ERROR;
    }
    Ended { code, cause: None }
}

/// Visits the frames of the stack from `context` outwards, and then its end.
///
/// With `hidden` the frames up to and with the one whose function starts there aren't visited. At
/// each other frame `trace` is asked before the caller is made, and at the end of the stack once
/// more without a frame, unless it is hidden there still. Then the code is `END_OF_STACK`. An
/// answer of `trace` other than `NO_REASON` is `FATAL_PHASE1_ERROR`; so is a fault, and more
/// contexts than `limit`, each with a cause.
///
/// Source: the GNU unwinder, `_Unwind_Backtrace`.
pub fn _Unwind_Backtrace<M: Machine, F: FDEFinder, T: Trace<M>, L: Ledger>(
    image: &MemoryImage<'_>,
    finder: &F,
    context: &M::Context,
    hidden: Option<u64>,
    trace: &mut T,
    limit: u32,
    steps: &mut Steps<L>,
) -> Ended
    ensures { IsTraced (stepping (machine_of M.SP.0 M.RA.0)
        (F.finds finder.now) image.now) start_of (tracing T.traces image.now) limit
        (M.Context.columns context.now)
        hidden (T.words trace.old) (ended_shown result (T.words trace.new)) }
{
    let mut here = *context;
    let mut signal = false;
    let mut hidden = hidden;
    for _ in 0..limit {
        match visit_frame(image, finder, trace, &mut hidden, &here, signal, steps) {
            Err(fault) => return fatal(Some(Cause::from(fault))),
            Ok(FrameVisit::End) => return last_visit(image, trace, hidden, &here, signal),
            Ok(FrameVisit::Stop(..)) => return fatal(None),
            Ok(FrameVisit::Caller(next, next_signal)) => {
                here = next;
                signal = next_signal;
            }
        }
    }
    fatal(Some(Cause::FrameLimit))
}

/// A backtrace that ends before the stack does.
fn fatal(cause: Option<Cause>) -> Ended
    ensures { result ≡ record { code = UnwindReasonCode.FATAL_PHASE1_ERROR; cause = cause } }
{
    let code = UnwindReasonCode::FATAL_PHASE1_ERROR;
    Ended { code, cause }
}
