// Why a step is refused.
ghost use Rattle.std.specs.Prelude.{◌≡◌};
ghost use Rattle.stack_steps.specs.declared.error.DeliverError.{DeliverError};
ghost use Rattle.stack_steps.specs.declared.error.DeliverError.TheVariants.{NoMemory};

use eh_frame::Error;
use format_frames::FrameError;
use std::alloc::AllocError;
use unwinding_frames::StepError;

/// Why a step, a walk or a delivery is refused.
#[derive(Clone, Copy, Debug, PartialEq, Eq, thiserror::Error)]
pub enum DeliverError {
    /// Memory ran out.
    #[error("out of memory")]
    NoMemory,
    /// A word of memory that is read at this address isn't wholly mapped.
    #[error("the word of memory at {0:#x} isn't mapped")]
    Unmapped(u64),
    /// A pass needs more states than the limit.
    #[error("a walk or a pass needs more states than the limit")]
    FrameLimit,
    /// More cleanups ran than the limit.
    #[error("more cleanups ran than the limit")]
    PassLimit,
    /// The cleanup at this landing pad has no return address.
    #[error("the cleanup at the landing pad {0:#x} has no return address")]
    NoResume(u64),
    /// The call frame bytes of a visited address can't be read or run.
    #[error("call frame information: {0}")]
    Table(Error),
    /// The section of compact unwinding of a Mach-O module, or what a look-up in it comes to, can't
    /// be read; or in a delivery its personalities or its list of language tables.
    #[error("compact unwinding: {0}")]
    MachO(macho_unwind_info::Error),
    /// The opcode of a function gives no caller: it is null, invalid or of an unknown kind, or asks
    /// for frame data that wasn't handed in.
    #[error("the function's opcode gives no caller")]
    CompactForm,
    /// The function table of a PE module, an unwind record, or the code up to a function's end that
    /// may be an epilog's can't be read; or in a delivery a record up to one that names a handler, or
    /// the bytes of that handler.
    #[error("the module's unwind data can't be read")]
    PeInfo,
    /// More than 32 unwind records are chained to the first one.
    #[error("more than 32 chained unwind records")]
    ChainLimit,
}

impl From<AllocError> for DeliverError {
    ghost from_gives = { λ _ e. e ≡ NoMemory };

    fn from(_e: AllocError) -> DeliverError {
        DeliverError::NoMemory
    }
}

impl From<StepError> for DeliverError {
    ghost use Rattle.unwinding_frames.specs.Calling.{fault_of};
    ghost use Rattle.stack_steps.specs.Frames.{refusal_of};

    ghost from_gives = { λ e r. r ≡ refusal_of (fault_of e) };

    fn from(e: StepError) -> DeliverError {
        match e {
            StepError::Table(error) => DeliverError::Table(error),
            StepError::Unmapped(address) => DeliverError::Unmapped(address),
        }
    }
}

impl From<FrameError> for DeliverError {
    ghost use Rattle.stack_steps.specs.Views.{format_error};

    ghost from_gives = { λ e r. r ≡ format_error e };

    fn from(e: FrameError) -> DeliverError {
        match e {
            FrameError::MachO(error) => DeliverError::MachO(error),
            FrameError::CompactForm => DeliverError::CompactForm,
            FrameError::PeInfo(_) => DeliverError::PeInfo,
            FrameError::ChainLimit => DeliverError::ChainLimit,
            FrameError::Table(error) => DeliverError::Table(error),
            FrameError::Unmapped(address) => DeliverError::Unmapped(address),
        }
    }
}
