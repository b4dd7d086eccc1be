//! What may stop a forced unwinding. Itanium C++ ABI, exception handling, section 1.3.2.

ghost use Rattle.std.specs.Prelude.{◌≡◌, ℕ, List, []};
ghost use Rattle.std.specs.Option.{option_map};
ghost use Rattle.unwinding_frames.specs.ContextSeen.{ContextSeen, language_place_of};
ghost use Rattle.unwinding_core.specs.Stopping.{StopAsked, StopAnswer, never_stopped};

use unwind_arch::Machine;
use unwinding_frames::{UnwindAction, UnwindContext, UnwindReasonCode};

/// What is asked at each frame of a forced unwinding whether that is to stop, and once more at the
/// end of the stack.
///
/// Contracts see words that the value holds. They, the arguments of the call, the memory, the
/// frame, the place of its language table where there is one, its registers and whether it stands
/// after a signal's decide the answer, the registers that are left, and the words afterwards.
pub trait Stop<M: Machine> {
    /// The words that the value holds.
    ghost words: { Self → List ℕ };

    /// The answer, the registers that are left, and the words afterwards.
    ghost stops: { List ℕ → StopAsked → ContextSeen → StopAnswer };

    /// Asks whether a forced unwinding is to stop at a frame: `NO_REASON` lets it go on. `version`
    /// is that of the interface, 1; `actions` are `FORCE_UNWIND` and `CLEANUP_PHASE`, and
    /// `END_OF_STACK` too where there is no frame; `exception_class` tells the language of the
    /// exception.
    fn stop(
        &mut self,
        version: i32,
        actions: UnwindAction,
        exception_class: u64,
        unwind_ctx: &mut UnwindContext<'_, '_, M>,
    ) -> UnwindReasonCode
        ensures answer { (result, M.Context.columns unwind_ctx.new.ctx.now, words self.new) ≡
            stops (words self.old) (record
            { version = version; actions = actions; class = exception_class })
            (record {
              image = unwind_ctx.old.image.now;
              frame = option_map (λ f. f.now) unwind_ctx.old.frame;
              place = option_map (λ p. language_place_of p.now) unwind_ctx.old.place;
              columns = M.Context.columns unwind_ctx.old.ctx.now;
              signal = unwind_ctx.old.signal;
            }) }
        ensures image { unwind_ctx.new.image ≡ unwind_ctx.old.image }
        ensures frame { unwind_ctx.new.frame ≡ unwind_ctx.old.frame }
        ensures place { unwind_ctx.new.place ≡ unwind_ctx.old.place }
        ensures reference { unwind_ctx.new.ctx.ghost_name ≡ unwind_ctx.old.ctx.ghost_name }
        ensures signal { unwind_ctx.new.signal ≡ unwind_ctx.old.signal };
}

/// What stops in a pass that isn't forced: nothing.
#[derive(Clone, Copy)]
pub(crate) struct NoStop;

impl<M: Machine> Stop<M> for NoStop {
    ghost words = { λ s. [] };

    ghost stops = { never_stopped };

    fn stop(
        &mut self,
        version: i32,
        actions: UnwindAction,
        exception_class: u64,
        unwind_ctx: &mut UnwindContext<'_, '_, M>,
    ) -> UnwindReasonCode {
        let _ = (version, actions, exception_class, unwind_ctx.context());
        UnwindReasonCode::NO_REASON
    }
}
