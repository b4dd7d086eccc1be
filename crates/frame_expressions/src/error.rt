//! Why an expression has no value.

ghost use Rattle.std.specs.Prelude.{◌≡◌};

use unwind_definitions::Error;

/// Why an expression has no value.
#[derive(Clone, Copy, Debug, PartialEq, Eq, thiserror::Error)]
pub enum EvalError {
    /// An operation can't be decoded or done, or the expression doesn't come to a value.
    #[error("expression: {0}")]
    Table(Error),
    /// A byte of a number that is read from memory at this address isn't mapped.
    #[error("the number in memory at {0:#x} isn't mapped")]
    Unmapped(u64),
}

impl From<Error> for EvalError {
    ghost use Rattle.frame_expressions.specs.declared.error.EvalError.TheVariants.{Table};

    ghost from_gives = { λ e r. r ≡ Table e };

    fn from(e: Error) -> EvalError {
        EvalError::Table(e)
    }
}
