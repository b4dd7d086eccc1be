// Why a frame has no caller.
use eh_frame::Error;
use unwinding_frames::StepError;

/// Why the caller of a frame isn't found.
#[derive(Clone, Copy, Debug, PartialEq, Eq, thiserror::Error)]
pub enum FrameError {
    /// The section of compact unwinding, or what a look-up in it comes to, can't be read.
    #[error("compact unwinding: {0}")]
    MachO(macho_unwind_info::Error),
    /// The opcode of the function gives no caller: it is null, invalid or of an unknown kind, or
    /// asks for frame data that wasn't handed in.
    #[error("the function's opcode gives no caller")]
    CompactForm,
    /// At this address the function table, an unwind record, or the code up to a function's end
    /// can't be read.
    #[error("the unwind data at {0:#x} can't be read")]
    PeInfo(u64),
    /// More than 32 unwind records follow one another.
    #[error("more than 32 chained unwind records")]
    ChainLimit,
    /// The row of a description can't be read or run, or a register isn't the machine's.
    #[error("call frame information: {0}")]
    Table(Error),
    /// A number that is read at this address, of the stack or of a function's code, isn't wholly
    /// mapped.
    #[error("the number at {0:#x} isn't mapped")]
    Unmapped(u64),
}

impl From<macho_unwind_info::Error> for FrameError {
    ghost use Rattle.std.specs.Prelude.{◌≡◌};
    ghost use Rattle.format_frames.specs.declared.error.FrameError.TheVariants.{MachO};

    ghost from_gives = { λ e r. r ≡ MachO e };

    fn from(e: macho_unwind_info::Error) -> FrameError {
        FrameError::MachO(e)
    }
}

impl From<StepError> for FrameError {
    ghost use Rattle.std.specs.Prelude.{◌≡◌};
    ghost use Rattle.unwinding_frames.specs.Calling.{fault_of};
    ghost use Rattle.format_frames.specs.Refusals.{refusal_of};

    ghost from_gives = { λ e r. r ≡ refusal_of (fault_of e) };

    fn from(e: StepError) -> FrameError {
        match e {
            StepError::Table(error) => FrameError::Table(error),
            StepError::Unmapped(address) => FrameError::Unmapped(address),
        }
    }
}
