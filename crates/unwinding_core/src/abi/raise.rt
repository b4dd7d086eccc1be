//! The runs of an unwinding: to raise an exception, to unwind by force, and to resume.
//!
//! Itanium C++ ABI, exception handling, sections 1.3 and 1.6.

ghost use Rattle.std.specs.Prelude.{◌≡◌, Some, None};
ghost use Rattle.unwind_definitions.specs.Caller.{Columns, StepFault};
ghost use Rattle.unwinding_frames.specs.Calling.{machine_of};
ghost use Rattle.unwinding_frames.specs.Passes.{Line, IsSearched, IsCleanup, IsRaised, IsForced};
ghost use Rattle.unwinding_frames.specs.Passes.{IsResumed, IsRethrown, cleanup_end, forced_end};
ghost use Rattle.unwinding_frames.specs.Passes.{RanOut, Gives};
ghost use Rattle.unwinding_core.specs.Runs.{thrown_by, cause_shown, unwound_shown, IsUntaken};
ghost use Rattle.unwinding_frames.specs.Seen.{in_column, stepping, answering};
ghost use Rattle.unwinding_core.specs.Stopping.{stopping};
ghost use Rattle.unwinding_core.specs.FrameVisits.{thrown_of, end_shown};

use crate::abi::passes::{Call, LineEnd, Phase, mark, pass, stop_answer};
use crate::abi::stop::{NoStop, Stop};
use crate::abi::unwound::{Cause, Unwound};
use fde_finders::FDEFinder;
use memory_image::{Ledger, MemoryImage, Steps};
use unwind_arch::Machine;
use unwinding_frames::{Kept, Personality, UnwindAction, UnwindException, UnwindReasonCode};

/// What personalities are called with in a phase.
fn call(exception: &UnwindException, phase: Phase) -> Call
    ensures { result ≡ record {
      exception_class = exception.now.exception_class;
      word = exception.now.word;
      phase =
          phase;
    } }
{
    Call {
        exception_class: exception.exception_class,
        word: exception.word,
        phase,
    }
}

/// A code without a cause.
fn code<M: Machine>(code: UnwindReasonCode) -> Unwound<M>
    ensures { unwound_shown M.Context.columns result ≡ Gives code None }
{
    Unwound::Code { code, cause: None }
}

/// A code with its cause.
fn code_with_cause<M: Machine>(code: UnwindReasonCode, cause: Cause) -> Unwound<M>
    ensures { unwound_shown M.Context.columns result ≡ Gives code (Some (cause_shown cause)) }
{
    let cause = Some(cause);
    Unwound::Code { code, cause }
}

/// How a cleanup pass toward the frame with a mark ends.
fn cleanup_end<M: Machine>(end: LineEnd<M::Context>, kept: u64) -> Unwound<M>
    ensures { unwound_shown M.Context.columns result ≡ cleanup_end (in_column M.SP.0) kept
        (end_shown M.Context.columns end) }
{
    match end {
        LineEnd::Decided(context, signal, answer, _, past)
            if answer == UnwindReasonCode::INSTALL_CONTEXT => {
            Unwound::Install {
                context: past,
                handler: mark::<M>(&context, signal) == kept,
            }
        }
        LineEnd::RanOut(..) | LineEnd::Decided(..) => code(UnwindReasonCode::FATAL_PHASE2_ERROR),
        LineEnd::Failed(fault) => code_with_cause(
            UnwindReasonCode::FATAL_PHASE2_ERROR,
            Cause::from(fault),
        ),
        LineEnd::Crowded => code_with_cause(
            UnwindReasonCode::FATAL_PHASE2_ERROR,
            Cause::FrameLimit,
        ),
    }
}

/// How the search for a handler from a context outwards ends.
fn search<M: Machine, F: FDEFinder, P: Personality<M>, L: Ledger>(
    image: &MemoryImage<'_>,
    finder: &F,
    start: &M::Context,
    exception: &UnwindException,
    personality: &P,
    limit: u32,
    steps: &mut Steps<L>,
) -> LineEnd<M::Context>
    ensures { (line : Line Columns StepFault (Unit {0})) ×
        IsSearched (stepping (machine_of M.SP.0 M.RA.0) (F.finds finder.now) image.now)
        (answering (P.answers personality.now) image.now (thrown_by exception.now)) limit
        (M.Context.columns start.now) line ×
        (end_shown M.Context.columns result ≡ line.end) }
{
    let call = call(exception, Phase::Search);
    pass(
        image,
        finder,
        personality,
        &mut NoStop,
        call,
        start,
        limit,
        steps,
    )
}

/// The cleanup pass from a context toward the frame with a mark.
fn cleanup<M: Machine, F: FDEFinder, P: Personality<M>, L: Ledger>(
    image: &MemoryImage<'_>,
    finder: &F,
    start: &M::Context,
    exception: &UnwindException,
    kept: u64,
    personality: &P,
    limit: u32,
    steps: &mut Steps<L>,
) -> Unwound<M>
    ensures { IsCleanup (stepping (machine_of M.SP.0 M.RA.0) (F.finds finder.now) image.now)
        (answering (P.answers personality.now) image.now (thrown_by exception.now)) kept limit
        (M.Context.columns start.now) (unwound_shown M.Context.columns result) }
{
    let call = call(exception, Phase::Cleanup(kept));
    let end = pass(
        image,
        finder,
        personality,
        &mut NoStop,
        call,
        start,
        limit,
        steps,
    );
    cleanup_end(end, kept)
}

/// Raises an exception: searches the stack from `context` outwards for a frame whose personality
/// takes the exception, and then goes there by cleanup passes, of which this is the first.
///
/// The exception keeps the frame that was found, for [`_Unwind_Resume`]. Where no handler is found
/// it keeps what it kept: the end of the stack is `END_OF_STACK`, and another answer of a
/// personality `FATAL_PHASE1_ERROR`. In the cleanup pass the end of the stack and an answer that
/// neither goes on nor enters a landing pad are `FATAL_PHASE2_ERROR`. A fault, and more contexts in
/// a pass than `limit`, have the code of their phase and a cause.
///
/// Source: Itanium C++ ABI, exception handling, section 1.3.1, `_Unwind_RaiseException`.
pub fn _Unwind_RaiseException<M: Machine, F: FDEFinder, P: Personality<M>, L: Ledger>(
    image: &MemoryImage<'_>,
    finder: &F,
    context: &M::Context,
    exception: &mut UnwindException,
    personality: &P,
    limit: u32,
    steps: &mut Steps<L>,
) -> Unwound<M>
    ensures raised { IsRaised (stepping (machine_of M.SP.0 M.RA.0) (F.finds finder.now) image.now)
        (answering (P.answers personality.now) image.now (thrown_by exception.old)) limit
        (M.Context.columns context.now)
        exception.old.kept (unwound_shown M.Context.columns result) exception.new.kept }
    ensures same { thrown_by exception.new ≡ thrown_by exception.old }
    ensures untaken { IsUntaken (unwound_shown M.Context.columns result) →
        exception.new ≡ exception.old }
{
    match search::<M, F, P, L>(image, finder, context, exception, personality, limit, steps) {
        LineEnd::RanOut(..) => code(UnwindReasonCode::END_OF_STACK),
        LineEnd::Decided(_, signal, answer, left, _) if answer == UnwindReasonCode::HANDLER_FOUND =>
            {
                let kept = mark::<M>(&left, signal);
                exception.kept = Kept::Handler(kept);
                cleanup(
                    image,
                    finder,
                    context,
                    exception,
                    kept,
                    personality,
                    limit,
                    steps,
                )
            }
        LineEnd::Decided(..) => code(UnwindReasonCode::FATAL_PHASE1_ERROR),
        LineEnd::Failed(fault) => code_with_cause(
            UnwindReasonCode::FATAL_PHASE1_ERROR,
            Cause::from(fault),
        ),
        LineEnd::Crowded => code_with_cause(
            UnwindReasonCode::FATAL_PHASE1_ERROR,
            Cause::FrameLimit,
        ),
    }
}

/// How a forced pass from a context ends. Where the stack does, `stop` is asked once more.
fn forced_end<M: Machine, F: FDEFinder, P: Personality<M>, T: Stop<M>, L: Ledger>(
    image: &MemoryImage<'_>,
    finder: &F,
    start: &M::Context,
    exception: &UnwindException,
    personality: &P,
    stop: &mut T,
    limit: u32,
    steps: &mut Steps<L>,
) -> Unwound<M>
    ensures { IsForced (stepping (machine_of M.SP.0 M.RA.0) (F.finds finder.now) image.now)
        (answering (P.answers personality.now) image.now (thrown_by exception.now))
        (stopping T.stops image.now (thrown_by exception.now)) limit (M.Context.columns start.now)
        (T.words stop.old) (unwound_shown M.Context.columns result) (T.words stop.new) }
{
    let call = call(exception, Phase::Forced);
    match pass(image, finder, personality, stop, call, start, limit, steps) {
        LineEnd::RanOut(context, signal) => last_stop(image, stop, call, &context, signal),
        LineEnd::Decided(_, _, answer, _, past) if answer == UnwindReasonCode::INSTALL_CONTEXT => {
            Unwound::Install {
                context: past,
                handler: false,
            }
        }
        LineEnd::Decided(..) => code(UnwindReasonCode::FATAL_PHASE2_ERROR),
        LineEnd::Failed(fault) => code_with_cause(
            UnwindReasonCode::FATAL_PHASE2_ERROR,
            Cause::from(fault),
        ),
        LineEnd::Crowded => code_with_cause(
            UnwindReasonCode::FATAL_PHASE2_ERROR,
            Cause::FrameLimit,
        ),
    }
}

/// What a stop makes of the end of the stack.
fn last_stop<M: Machine, T: Stop<M>>(
    image: &MemoryImage<'_>,
    stop: &mut T,
    call: Call,
    context: &M::Context,
    signal: bool,
) -> Unwound<M>
    ensures { (unwound_shown M.Context.columns result, T.words stop.new) ≡
        forced_end (stopping T.stops image.now (thrown_of call)) (T.words stop.old)
        (RanOut (record { context = M.Context.columns context.now; signal = signal })) }
{
    let actions = UnwindAction::FORCE_UNWIND
        | UnwindAction::CLEANUP_PHASE
        | UnwindAction::END_OF_STACK;
    let answer = stop_answer(image, None, stop, call, actions, context, signal);
    if answer.code == UnwindReasonCode::NO_REASON {
        code(UnwindReasonCode::END_OF_STACK)
    } else {
        code(UnwindReasonCode::FATAL_PHASE2_ERROR)
    }
}

/// Unwinds the stack from `context` outwards by force: each frame's landing pads are entered,
/// whatever takes exceptions, until `stop` says otherwise.
///
/// At each frame `stop` is asked first, and then the frame's personality over the registers that
/// `stop` left; at the end of the stack `stop` is asked once more. Any answer of it but `NO_REASON`
/// is `FATAL_PHASE2_ERROR`; after the last `NO_REASON` the code is `END_OF_STACK`. So is an answer
/// of a personality that neither goes on nor enters a landing pad `FATAL_PHASE2_ERROR`, and with it
/// a cause where there is a fault or more contexts than `limit`. The exception keeps that it is
/// unwound by force, for [`_Unwind_Resume`].
///
/// Source: Itanium C++ ABI, exception handling, section 1.3.2, `_Unwind_ForcedUnwind`.
pub fn _Unwind_ForcedUnwind<M: Machine, F: FDEFinder, P: Personality<M>, T: Stop<M>, L: Ledger>(
    image: &MemoryImage<'_>,
    finder: &F,
    context: &M::Context,
    exception: &mut UnwindException,
    personality: &P,
    stop: &mut T,
    limit: u32,
    steps: &mut Steps<L>,
) -> Unwound<M>
    ensures forced { IsForced (stepping (machine_of M.SP.0 M.RA.0) (F.finds finder.now) image.now)
        (answering (P.answers personality.now) image.now (thrown_by exception.old))
        (stopping T.stops image.now (thrown_by exception.old)) limit (M.Context.columns context.now)
        (T.words stop.old) (unwound_shown M.Context.columns result) (T.words stop.new) }
    ensures exception { exception.new ≡ record exception.old { kept = Kept.Stop } }
{
    exception.kept = Kept::Stop;
    forced_end(
        image,
        finder,
        context,
        exception,
        personality,
        stop,
        limit,
        steps,
    )
}

/// Goes on with an unwinding after a cleanup, from the registers that the cleanup leaves: toward
/// the frame that the exception keeps, or by force.
///
/// Codes and causes are those of the cleanup pass of [`_Unwind_RaiseException`], or those of
/// [`_Unwind_ForcedUnwind`]. The exception stays as it is, and `stop` isn't asked in a pass that
/// isn't forced.
///
/// Source: Itanium C++ ABI, exception handling, section 1.3.3, `_Unwind_Resume`.
pub fn _Unwind_Resume<M: Machine, F: FDEFinder, P: Personality<M>, T: Stop<M>, L: Ledger>(
    image: &MemoryImage<'_>,
    finder: &F,
    context: &M::Context,
    exception: &mut UnwindException,
    personality: &P,
    stop: &mut T,
    limit: u32,
    steps: &mut Steps<L>,
) -> Unwound<M>
    ensures resumed { IsResumed (stepping (machine_of M.SP.0 M.RA.0) (F.finds finder.now) image.now)
        (answering (P.answers personality.now) image.now (thrown_by exception.old))
        (stopping T.stops image.now (thrown_by exception.old)) limit (M.Context.columns context.now)
        exception.old.kept (T.words stop.old) (unwound_shown M.Context.columns result)
        (T.words stop.new) }
    ensures same { exception.new ≡ exception.old }
{
    match exception.kept {
        Kept::Handler(kept) => cleanup(
            image,
            finder,
            context,
            exception,
            kept,
            personality,
            limit,
            steps,
        ),
        Kept::Stop => forced_end(
            image,
            finder,
            context,
            exception,
            personality,
            stop,
            limit,
            steps,
        ),
    }
}

/// Goes on with an exception that was caught and is to be thrown on: it is raised anew, or unwound
/// further where it is by force.
///
/// Codes and causes are those of [`_Unwind_RaiseException`], or those of [`_Unwind_ForcedUnwind`].
///
/// Source: Itanium C++ ABI, exception handling, `_Unwind_Resume_or_Rethrow` of the GNU unwinder.
pub fn _Unwind_Resume_or_Rethrow<
    M: Machine,
    F: FDEFinder,
    P: Personality<M>,
    T: Stop<M>,
    L: Ledger,
>(
    image: &MemoryImage<'_>,
    finder: &F,
    context: &M::Context,
    exception: &mut UnwindException,
    personality: &P,
    stop: &mut T,
    limit: u32,
    steps: &mut Steps<L>,
) -> Unwound<M>
    ensures rethrown { IsRethrown (stepping (machine_of M.SP.0 M.RA.0)
        (F.finds finder.now) image.now)
        (answering (P.answers personality.now) image.now (thrown_by exception.old))
        (stopping T.stops image.now (thrown_by exception.old)) limit (M.Context.columns context.now)
        exception.old.kept (T.words stop.old) (unwound_shown M.Context.columns result)
        exception.new.kept (T.words stop.new) }
    ensures same { thrown_by exception.new ≡ thrown_by exception.old }
{
    match exception.kept {
        Kept::Handler(_) => _Unwind_RaiseException(
            image,
            finder,
            context,
            exception,
            personality,
            limit,
            steps,
        ),
        Kept::Stop => forced_end(
            image,
            finder,
            context,
            exception,
            personality,
            stop,
            limit,
            steps,
        ),
    }
}
