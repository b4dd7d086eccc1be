//! Personalities: what the language of a frame's function says to an exception.
//!
//! Itanium C++ ABI, exception handling, section 2.5.

ghost use Rattle.std.specs.Prelude.{◌≡◌, IsSome};
ghost use Rattle.std.specs.Option.{option_map, unwrap_or};
ghost use Rattle.unwind_definitions.specs.LanguageSearch.{address_of_call};
ghost use Rattle.unwinding_frames.specs.ContextSeen.{ContextSeen, language_place_of};
ghost use Rattle.unwinding_frames.specs.Columns.{with_value};
ghost use Rattle.unwinding_frames.specs.LanguageViews.{action_of, answer_seen};
ghost use Rattle.unwinding_frames.specs.Personalities.{Asked, Answer, columns_at_pad, search_answer};
ghost use Rattle.unwinding_frames.specs.Personalities.{cleanup_answer, action_seen, rust_answers};

use crate::abi::context::UnwindContext;
use crate::abi::{UnwindAction, UnwindReasonCode};
use crate::frame::{StepError, address_asked, return_address};
use crate::language_table::{EhAction, find_eh_action, find_eh_action_at};
use unwind_arch::{Machine, Register, RegisterMap};

/// What answers for the personality routines of the functions on a stack.
///
/// Contracts see what it answers: the arguments of the call, the memory, the frame, the place of its
/// language table where there is one, its registers and whether it is a signal's decide the answer
/// and the registers that are left.
pub trait Personality<M: Machine> {
    /// The answer, and the registers that are left.
    ghost answers: { Self → Asked → ContextSeen → Answer };

    /// Asks what the routine at the address `routine` is to say of a frame. `version` is that of
    /// the interface, 1; `exception_class` tells the language of the exception, and `exception` is
    /// its word, which a landing pad gets.
    fn call(
        &self,
        routine: u64,
        version: i32,
        actions: UnwindAction,
        exception_class: u64,
        exception: u64,
        unwind_ctx: &mut UnwindContext<'_, '_, M>,
    ) -> UnwindReasonCode
        ensures answer { (result, M.Context.columns unwind_ctx.new.ctx.now) ≡
            answers self.now (record {
              routine = routine;
              version = version;
              actions = actions;
              class = exception_class;
              exception = exception;
            })
            (record {
              image = unwind_ctx.old.image.now;
              frame = option_map (λ f. f.now) unwind_ctx.old.frame;
              place = option_map (λ p. language_place_of p.now) unwind_ctx.old.place;
              columns = M.Context.columns unwind_ctx.old.ctx.now;
              signal = unwind_ctx.old.signal;
            }) }
        ensures image { unwind_ctx.new.image ≡ unwind_ctx.old.image }
        ensures frame { unwind_ctx.new.frame ≡ unwind_ctx.old.frame }
        ensures place { unwind_ctx.new.place ≡ unwind_ctx.old.place }
        ensures reference { unwind_ctx.new.ctx.ghost_name ≡ unwind_ctx.old.ctx.ghost_name }
        ensures signal { unwind_ctx.new.signal ≡ unwind_ctx.old.signal };
}

/// The personality of Rust, and of other languages whose tables have its form.
///
/// It knows version 1 of the interface: to another it answers `FATAL_PHASE1_ERROR`, and so it does
/// where the language table can't be read.
///
/// In the search phase a handler or an exception specification is `HANDLER_FOUND`, and a call that
/// no exception may leave `FATAL_PHASE1_ERROR`. In the cleanup phase the context becomes that of
/// the landing pad, which is `INSTALL_CONTEXT`: the exception's word is in the first data register,
/// 0 in the second, and the pad in the return address. A forced unwinding doesn't enter that of an
/// exception specification. A call that no exception may leave is `FATAL_PHASE2_ERROR`. All else
/// goes on by `CONTINUE_UNWIND`.
#[derive(Clone, Copy)]
pub struct RustPersonality;

impl<M: Machine> Personality<M> for RustPersonality {
    ghost answers = { λ p asked seen.
        rust_answers (record {
          return_address = M.RA.0;
          exception = M.UNWIND_DATA_REG.0.0;
          selector = M.UNWIND_DATA_REG.1.0;
        })
        asked seen };

    fn call(
        &self,
        routine: u64,
        version: i32,
        actions: UnwindAction,
        exception_class: u64,
        exception: u64,
        unwind_ctx: &mut UnwindContext<'_, '_, M>,
    ) -> UnwindReasonCode {
        let _ = (routine, exception_class);
        if version != 1 {
            return UnwindReasonCode::FATAL_PHASE1_ERROR;
        }
        match action(unwind_ctx) {
            Err(_) => UnwindReasonCode::FATAL_PHASE1_ERROR,
            Ok(action) if actions.contains(UnwindAction::SEARCH_PHASE) => search_answer(action),
            Ok(action) => {
                let forced = actions.contains(UnwindAction::FORCE_UNWIND);
                cleanup_answer::<M>(action, forced, exception, unwind_ctx.ctx)
            }
        }
    }
}

/// What the language of a frame asks, by the frame or by the place; nothing without both.
fn action<M: Machine>(unwind_ctx: &UnwindContext<'_, '_, M>) -> Result<EhAction, StepError>
    ensures { answer_seen action_of result ≡ action_seen unwind_ctx.now.image.now (option_map
        (λ f. f.now) unwind_ctx.now.frame)
        (option_map (λ p. language_place_of p.now) unwind_ctx.now.place)
        (address_of_call (unwrap_or (M.Context.columns unwind_ctx.now.ctx.now M.RA.0) 0)
        unwind_ctx.now.signal) }
{
    let image = unwind_ctx.image;
    let signal = unwind_ctx.signal;
    match (unwind_ctx.frame, unwind_ctx.place) {
        (Some(frame), _) => find_eh_action(image, frame, unwind_ctx.ctx, signal),
        (None, Some(place)) => {
            let address = address_asked(return_address::<M>(unwind_ctx.ctx), signal);
            find_eh_action_at(image, place, address)
        }
        (None, None) => Ok(EhAction::None),
    }
}

/// The answer in the search phase.
fn search_answer(action: EhAction) -> UnwindReasonCode
    ensures { result ≡ search_answer (action_of action) }
{
    match action {
        EhAction::None | EhAction::Cleanup(_) => UnwindReasonCode::CONTINUE_UNWIND,
        EhAction::Catch(_) | EhAction::Filter(_) => UnwindReasonCode::HANDLER_FOUND,
        EhAction::Terminate => UnwindReasonCode::FATAL_PHASE1_ERROR,
    }
}

/// The answer in the cleanup phase, and the registers of the landing pad that is entered.
fn cleanup_answer<M: Machine>(
    action: EhAction,
    forced: bool,
    exception: u64,
    context: &mut M::Context,
) -> UnwindReasonCode
    ensures { (result, M.Context.columns context.new) ≡ cleanup_answer
        (record {
          return_address = M.RA.0;
          exception = M.UNWIND_DATA_REG.0.0;
          selector =
              M.UNWIND_DATA_REG.1.0;
        }) forced exception (M.Context.columns context.old)
        (action_of action) }
{
    match action {
        EhAction::None => UnwindReasonCode::CONTINUE_UNWIND,
        EhAction::Filter(_) if forced => UnwindReasonCode::CONTINUE_UNWIND,
        EhAction::Cleanup(pad) | EhAction::Catch(pad) | EhAction::Filter(pad) => {
            land::<M>(exception, pad, context);
            UnwindReasonCode::INSTALL_CONTEXT
        }
        EhAction::Terminate => UnwindReasonCode::FATAL_PHASE2_ERROR,
    }
}

/// The registers as a landing pad is entered.
fn land<M: Machine>(exception: u64, pad: u64, context: &mut M::Context)
    ensures { M.Context.columns context.new ≡ columns_at_pad
        (record {
          return_address = M.RA.0;
          exception = M.UNWIND_DATA_REG.0.0;
          selector =
              M.UNWIND_DATA_REG.1.0;
        }) exception pad (M.Context.columns context.old) }
{
    put::<M>(M::UNWIND_DATA_REG.0, exception, context);
    put::<M>(M::UNWIND_DATA_REG.1, 0, context);
    put::<M>(M::RA, pad, context);
}

/// Writes a column that the machine has.
pub(crate) fn put<M: Machine>(register: Register, value: u64, context: &mut M::Context)
    requires held { IsSome (M.Context.columns context.old register.0) }
    ensures { M.Context.columns context.new ≡ with_value (M.Context.columns context.old) register.0
        value }
{
    context.set(register, value);
}
