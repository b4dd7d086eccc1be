//! Exceptions as the unwinder sees them. Itanium C++ ABI, exception handling, section 1.2.2.

ghost use Rattle.std.specs.Prelude.{◌≡◌, IfSome};
ghost use Rattle.std.specs.Option.{ForSome};

use crate::abi::UnwindReasonCode;

/// What an exception keeps from one run to the next: where an unwinding of it goes on to.
#[derive(Clone, Copy, Debug, PartialEq, Eq)]
pub enum Kept {
    /// Toward the frame whose handler a search found: its stack pointer, less 1 after a signal's
    /// frame.
    Handler(u64),
    /// By force, until it is stopped.
    Stop,
}

/// An exception: which language it is of, and the word by which the language knows it.
#[derive(Clone, Copy, Debug, PartialEq, Eq)]
pub struct UnwindException {
    /// The language, and who implements it.
    pub exception_class: u64,
    /// The word that a landing pad gets, as the exception's address is.
    pub word: u64,
    /// What a run of it keeps for the next one.
    pub kept: Kept,
}

impl UnwindException {
    /// An exception that was never raised.
    pub fn new(class: u64, word: u64) -> UnwindException
        ensures { result ≡ record { exception_class = class; word = word; kept = Kept.Handler 0 } }
    {
        UnwindException {
            exception_class: class,
            word,
            kept: Kept::Handler(0),
        }
    }
}

/// Lets an exception go that another language caught: `cleanup`, where there is one, is called
/// once, with `FOREIGN_EXCEPTION_CAUGHT`.
///
/// Source: Itanium C++ ABI, exception handling, section 1.2.2, `_Unwind_DeleteException`.
pub fn _Unwind_DeleteException<C: FnOnce(UnwindReasonCode, &UnwindException)>(
    exception: &UnwindException,
    cleanup: Option<C>,
)
    requires { ForSome cleanup (λ c. C.pre c UnwindReasonCode.FOREIGN_EXCEPTION_CAUGHT exception) }
    ensures { IfSome cleanup (λ c. C.post c UnwindReasonCode.FOREIGN_EXCEPTION_CAUGHT
        exception.entry tt) }
{
    if let Some(cleanup) = cleanup {
        cleanup(UnwindReasonCode::FOREIGN_EXCEPTION_CAUGHT, exception);
    }
}
