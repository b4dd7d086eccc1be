//! How a run of an unwinding ends.

use eh_frame::Error;
use unwind_arch::Machine;
use unwinding_frames::{StepError, UnwindReasonCode};

/// Why a run couldn't go on, where no answer of a personality is the reason.
#[derive(Clone, Copy, Debug, PartialEq, Eq)]
pub enum Cause {
    /// The row of a frame can't be read or run, or a register isn't the machine's.
    Table(Error),
    /// A word of memory that is read at this address isn't wholly mapped.
    Unmapped(u64),
    /// One pass needs more contexts than are allowed, that at the end of the stack included.
    FrameLimit,
}

impl From<StepError> for Cause {
    ghost use Rattle.std.specs.Prelude.{◌≡◌};
    ghost use Rattle.unwinding_frames.specs.Calling.{fault_of};
    ghost use Rattle.unwinding_frames.specs.Passes.{Fault};
    ghost use Rattle.unwinding_core.specs.Runs.{cause_shown};

    ghost from_gives = { λ e r. cause_shown r ≡ Fault (fault_of e) };

    fn from(e: StepError) -> Cause {
        match e {
            StepError::Table(fault) => Cause::Table(fault),
            StepError::Unmapped(address) => Cause::Unmapped(address),
        }
    }
}

/// How a raise, a resume or a forced unwinding ends.
#[derive(Drop)]
pub enum Unwound<M: Machine> {
    /// A landing pad is to be entered with these registers.
    Install {
        /// The registers, past the arguments that the frame's callee removes.
        context: M::Context,
        /// Whether the frame is the one whose handler the search found. It is false in a forced
        /// unwinding.
        handler: bool,
    },
    /// No landing pad is entered.
    Code {
        /// `END_OF_STACK`, `FATAL_PHASE1_ERROR` or `FATAL_PHASE2_ERROR`.
        code: UnwindReasonCode,
        /// Why, where it is a fault or the limit, and no answer.
        cause: Option<Cause>,
    },
}
