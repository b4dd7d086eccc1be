//! The personality of C++ functions: what their language says to an exception.
//!
//! Itanium C++ ABI, exception handling, sections 1.6 and 2.5.

ghost use Rattle.std.specs.Prelude.{◌≡◌, ℕ, Some};
ghost use Rattle.std.specs.Option.{option_map, unwrap_or};
ghost use Rattle.memory_image.specs.Results.{result_map};
ghost use Rattle.unwind_definitions.specs.LanguageSearch.{address_of_call, language_place};
ghost use Rattle.fde_finders.specs.FoundViews.{found_fde_of};
ghost use Rattle.unwinding_frames.specs.ContextSeen.{language_place_of};
ghost use Rattle.unwinding_frames.specs.CxxPersonalities.{columns_at_handler, cxx_action_seen};
ghost use Rattle.unwinding_frames.specs.CxxPersonalities.{cxx_answers, cxx_cleanup_answer};
ghost use Rattle.unwinding_frames.specs.CxxPersonalities.{cxx_search_answer, end_in_search};
ghost use Rattle.unwinding_frames.specs.CxxPersonalities.{exception_in};
ghost use Rattle.unwinding_frames.specs.CxxTables.{cxx_table_action};
ghost use Rattle.unwinding_frames.specs.CxxViews.{cxx_action_of, exception_of};

use crate::abi::context::UnwindContext;
use crate::abi::{UnwindAction, UnwindReasonCode};
use crate::cxx::actions::{CxxAction, find_cxx_action_at};
use crate::cxx::error::CxxError;
use crate::cxx::runtime::{CxxRuntime, ExceptionKind};
use crate::cxx::types::Exception;
use crate::frame::{Frame, address_asked, lsda_of, return_address};
use crate::personality::{Personality, put};
use crate::place::Place;
use fde_finders::FDESearchResult;
use memory_image::MemoryImage;
use unwind_arch::Machine;

/// The personality of C++ (`__gxx_personality_v0`), for an exception whose types are given, as the
/// runtime that the exception names has it.
///
/// It knows version 1 of the interface: to another it answers `FATAL_PHASE1_ERROR`, and so it does
/// where the language table can't be read. The class of the exception isn't looked at: `exception`
/// says what it is. In a forced unwinding it is `Forced` and has no types.
///
/// In the search phase a handler of the exception, or a specification that takes it, is
/// `HANDLER_FOUND`. In the cleanup phase the context becomes that of the landing pad, which is
/// `INSTALL_CONTEXT`: the exception's word is in the first data register, the number of the action
/// record in the second, 0 for a cleanup, and the pad in the return address. All else goes on by
/// `CONTINUE_UNWIND`.
///
/// The program ends in a call that no exception may leave, which has no call site, and by libstdc++
/// also at a specification that takes an exception which isn't native. The answer of the cleanup
/// phase is `FATAL_PHASE2_ERROR` there. That of the search phase is `HANDLER_FOUND` by libstdc++, by
/// which the cleanups inside run before the program ends. By libc++abi it is `FATAL_PHASE1_ERROR`,
/// which stands for no answer at all: the routine ends the program itself, and no cleanup runs.
#[derive(Clone, Copy)]
pub struct CxxPersonality<'t> {
    /// The exception that is thrown.
    pub exception: Exception<'t>,
}

impl<'t, M: Machine> Personality<M> for CxxPersonality<'t> {
    ghost answers = { λ p asked seen.
        cxx_answers (record {
          return_address = M.RA.0;
          exception = M.UNWIND_DATA_REG.0.0;
          selector = M.UNWIND_DATA_REG.1.0;
        })
        (exception_of p.exception) asked seen };

    fn call(
        &self,
        routine: u64,
        version: i32,
        actions: UnwindAction,
        exception_class: u64,
        exception: u64,
        unwind_ctx: &mut UnwindContext<'_, '_, M>,
    ) -> UnwindReasonCode {
        let _ = (routine, exception_class);
        if version != 1 {
            return UnwindReasonCode::FATAL_PHASE1_ERROR;
        }
        let forced = actions.contains(UnwindAction::FORCE_UNWIND);
        match action(unwind_ctx, self.exception.in_unwinding(forced)) {
            Err(_) => UnwindReasonCode::FATAL_PHASE1_ERROR,
            Ok(action) if actions.contains(UnwindAction::SEARCH_PHASE) => {
                search_answer(self.exception.runtime, action)
            }
            Ok(action) => cleanup_answer::<M>(action, exception, unwind_ctx.ctx),
        }
    }
}

impl<'t> Exception<'t> {
    /// As handlers see it in an unwinding. One that is forced has no exception.
    fn in_unwinding(self, forced: bool) -> Exception<'t>
        ensures { exception_of result ≡ exception_in forced (exception_of self.entry) }
    {
        if forced {
            Exception {
                types: &[],
                kind: ExceptionKind::Forced,
                runtime: self.runtime,
            }
        } else {
            self
        }
    }
}

/// What the language of a frame asks, by the frame or by the place; nothing without both.
fn action<M: Machine>(
    unwind_ctx: &UnwindContext<'_, '_, M>,
    exception: Exception<'_>,
) -> Result<CxxAction, CxxError>
    ensures { result_map cxx_action_of result ≡ cxx_action_seen unwind_ctx.now.image.now
        (exception_of exception.entry) (option_map (λ f. f.now) unwind_ctx.now.frame)
        (option_map (λ p. language_place_of p.now) unwind_ctx.now.place)
        (address_of_call (unwrap_or (M.Context.columns unwind_ctx.now.ctx.now M.RA.0) 0)
        unwind_ctx.now.signal) }
{
    let image = unwind_ctx.image;
    let address = address_asked(return_address::<M>(unwind_ctx.ctx), unwind_ctx.signal);
    match (unwind_ctx.frame, unwind_ctx.place) {
        (Some(frame), _) => found_action(frame.found(), image, exception, address),
        (None, Some(place)) => find_cxx_action_at(image, place, exception, address),
        (None, None) => Ok(CxxAction::None),
    }
}

/// What a C++ function asks of a frame of it that is stopped in a call, where an exception leaves
/// the call: [`find_cxx_action_at`] of the place that its description names.
///
/// The address asked is the return address, less one unless `signal`: after a call that is a byte
/// of the call.
///
/// # Errors
///
/// Those of [`find_cxx_action_at`], and those of the pointer to the language table before them.
pub fn find_cxx_action<M: Machine>(
    image: &MemoryImage<'_>,
    frame: &Frame<'_, M>,
    context: &M::Context,
    exception: Exception<'_>,
    signal: bool,
) -> Result<CxxAction, CxxError>
    ensures { (ra : ℕ) → M.Context.columns context.now M.RA.0 ≡ Some ra →
        result_map cxx_action_of result ≡ cxx_table_action image.now (exception_of exception.entry)
        (address_of_call ra signal)
        (language_place image.now frame.now.found.bases frame.now.found.fde) }
{
    let address = address_asked(return_address::<M>(context), signal);
    found_action(frame.found(), image, exception, address)
}

/// The same of a function that was found, at an address of a call.
fn found_action(
    found: &FDESearchResult<'_>,
    image: &MemoryImage<'_>,
    exception: Exception<'_>,
    address: u64,
) -> Result<CxxAction, CxxError>
    ensures { result_map cxx_action_of result ≡ cxx_table_action image.now
        (exception_of exception.entry) address (language_place image.now
        (found_fde_of found.now).bases (found_fde_of found.now).fde) }
{
    let place = Place {
        start: found.fde.initial_address(),
        lsda: lsda_of(found, image)?,
        bases: found.bases,
    };
    find_cxx_action_at(image, &place, exception, address)
}

/// The answer in the search phase.
fn search_answer(runtime: CxxRuntime, action: CxxAction) -> UnwindReasonCode
    ensures { result ≡ cxx_search_answer runtime (cxx_action_of action) }
{
    match action {
        CxxAction::None | CxxAction::Cleanup(_) => UnwindReasonCode::CONTINUE_UNWIND,
        CxxAction::Handler(_, _) => UnwindReasonCode::HANDLER_FOUND,
        CxxAction::Terminate => end_in_search(runtime),
    }
}

/// The answer in the search phase where the program ends.
fn end_in_search(runtime: CxxRuntime) -> UnwindReasonCode
    ensures { result ≡ end_in_search runtime }
{
    match runtime {
        CxxRuntime::Libstdcxx => UnwindReasonCode::HANDLER_FOUND,
        CxxRuntime::Libcxxabi => UnwindReasonCode::FATAL_PHASE1_ERROR,
    }
}

/// The answer in the cleanup phase, and the registers of the landing pad that is entered.
fn cleanup_answer<M: Machine>(
    action: CxxAction,
    exception: u64,
    context: &mut M::Context,
) -> UnwindReasonCode
    ensures { (result, M.Context.columns context.new) ≡ cxx_cleanup_answer
        (record {
          return_address = M.RA.0;
          exception = M.UNWIND_DATA_REG.0.0;
          selector = M.UNWIND_DATA_REG.1.0;
        }) exception (M.Context.columns context.old) (cxx_action_of action) }
{
    match action {
        CxxAction::None => UnwindReasonCode::CONTINUE_UNWIND,
        CxxAction::Cleanup(pad) => {
            land::<M>(exception, pad, 0, context);
            UnwindReasonCode::INSTALL_CONTEXT
        }
        CxxAction::Handler(pad, filter) => {
            land::<M>(exception, pad, filter, context);
            UnwindReasonCode::INSTALL_CONTEXT
        }
        CxxAction::Terminate => UnwindReasonCode::FATAL_PHASE2_ERROR,
    }
}

/// The registers as a landing pad is entered.
fn land<M: Machine>(exception: u64, pad: u64, filter: u64, context: &mut M::Context)
    ensures { M.Context.columns context.new ≡ columns_at_handler
        (record {
          return_address = M.RA.0;
          exception = M.UNWIND_DATA_REG.0.0;
          selector = M.UNWIND_DATA_REG.1.0;
        }) exception pad filter (M.Context.columns context.old) }
{
    put::<M>(M::UNWIND_DATA_REG.0, exception, context);
    put::<M>(M::UNWIND_DATA_REG.1, filter, context);
    put::<M>(M::RA, pad, context);
}
