//! A personality that nothing asks for.

ghost use Rattle.unwinding_frames.specs.Dummy.{dummy_answers};

use crate::abi::context::UnwindContext;
use crate::abi::{UnwindAction, UnwindReasonCode};
use crate::personality::Personality;
use unwind_arch::Machine;

/// The personality of a language without cleanups and handlers: every frame goes on.
///
/// It knows version 1 of the interface: to another it answers `FATAL_PHASE1_ERROR`. The registers
/// stay as they are.
#[derive(Clone, Copy)]
pub struct DummyPersonality;

impl<M: Machine> Personality<M> for DummyPersonality {
    ghost answers = { λ p. dummy_answers };

    fn call(
        &self,
        routine: u64,
        version: i32,
        actions: UnwindAction,
        exception_class: u64,
        exception: u64,
        unwind_ctx: &mut UnwindContext<'_, '_, M>,
    ) -> UnwindReasonCode {
        let _ = (
            routine,
            actions,
            exception_class,
            exception,
            unwind_ctx.signal,
        );
        if version == 1 {
            UnwindReasonCode::CONTINUE_UNWIND
        } else {
            UnwindReasonCode::FATAL_PHASE1_ERROR
        }
    }
}
