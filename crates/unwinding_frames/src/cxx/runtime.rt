//! The runtimes of C++, and what they do at the exception specifications of an exception that isn't
//! theirs.

ghost use Rattle.std.specs.Prelude.{◌≡◌};
ghost use Rattle.unwinding_frames.specs.CxxTables.{ends_at_specifications, unread};

/// What an exception is to the runtime whose personality reads a language table.
#[derive(Clone, Copy, Debug, PartialEq, Eq)]
pub enum ExceptionKind {
    /// One of C++, of that runtime itself.
    Native,
    /// One of another language, or of another runtime of C++.
    Foreign,
    /// None: the unwinding is forced, as that of a thread that is cancelled.
    Forced,
}

/// A runtime of C++, whose personality reads the language tables.
///
/// A handler of all takes every exception, and a handler of a type one that has it, by both. A
/// native exception is stopped by a specification that lists none of its types, and enters its
/// landing pad. They differ in three things.
///
/// | | libstdc++ | libc++abi |
/// |---|---|---|
/// | a foreign exception | is stopped by a specification that lists nothing | by every one, unread |
/// | a forced unwinding | is stopped by a specification that lists nothing | by none, unread |
/// | stopped there | the program ends, after the cleanups inside | the landing pad is entered |
/// | no call site | the program ends, after the cleanups inside | the program ends at once |
#[derive(Clone, Copy, Debug, PartialEq, Eq)]
pub enum CxxRuntime {
    /// GNU's, which most programs of Linux have.
    Libstdcxx,
    /// LLVM's, below libc++.
    Libcxxabi,
}

impl CxxRuntime {
    /// Whether an exception of a kind is stopped by every specification, or passes every one, without
    /// a look at what these list; `None` where that decides.
    pub(crate) fn unread(self, kind: ExceptionKind) -> Option<bool>
        ensures { result ≡ unread self kind }
    {
        match (self, kind) {
            (CxxRuntime::Libcxxabi, ExceptionKind::Foreign) => Some(true),
            (CxxRuntime::Libcxxabi, ExceptionKind::Forced) => Some(false),
            _ => None,
        }
    }

    /// Whether the program ends where a specification stops an exception of a kind. Else its landing
    /// pad is entered.
    pub(crate) fn ends_at_specifications(self, kind: ExceptionKind) -> bool
        ensures { result ≡ ends_at_specifications self kind }
    {
        match (self, kind) {
            (CxxRuntime::Libstdcxx, ExceptionKind::Foreign | ExceptionKind::Forced) => true,
            _ => false,
        }
    }
}
