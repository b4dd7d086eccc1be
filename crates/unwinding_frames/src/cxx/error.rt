//! Why a language table of a C++ function can't be read.

ghost use Rattle.std.specs.Prelude.{◌≡◌};

use crate::frame::StepError;
use eh_frame::Error;

/// Why what a C++ function asks of an exception can't be read.
#[derive(Clone, Copy, Debug, PartialEq, Eq, thiserror::Error)]
pub enum CxxError {
    /// An encoding, a number, a pointer or a sum of addresses in the language table.
    #[error("language table: {0}")]
    Table(Error),
    /// The cell of an indirect pointer, at this address, isn't wholly mapped.
    #[error("the word of memory at {0:#x} isn't mapped")]
    Unmapped(u64),
    /// An action names a type, and the table has none.
    #[error("an action names a type, and the language table has no types")]
    NoTypes,
    /// A type's entry, of this index, would begin below the address 0.
    #[error("the type of index {0} would begin below the address 0")]
    TypeOutside(u64),
    /// An index or a displacement leads to an action record outside of the action table.
    #[error("an action record lies outside of the action table")]
    RecordOutside,
    /// The chain of action records has more records than the action table has bytes, so it comes
    /// back to one of them.
    #[error("the chain of action records has no end")]
    RecordsLoop,
}

impl From<Error> for CxxError {
    ghost use Rattle.unwinding_frames.specs.declared.cxx.error.CxxError.TheVariants.{Table};

    ghost from_gives = { λ e r. r ≡ Table e };

    fn from(e: Error) -> CxxError {
        CxxError::Table(e)
    }
}

impl From<StepError> for CxxError {
    ghost use Rattle.unwinding_frames.specs.CxxViews.{cxx_error};

    ghost from_gives = { λ e r. r ≡ cxx_error e };

    fn from(e: StepError) -> CxxError {
        match e {
            StepError::Table(e) => CxxError::Table(e),
            StepError::Unmapped(address) => CxxError::Unmapped(address),
        }
    }
}
