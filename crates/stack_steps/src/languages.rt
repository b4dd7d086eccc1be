// The languages of the functions on a stack.
ghost use Rattle.std.specs.Prelude.{◌≡◌};
ghost use Rattle.stack_steps.specs.Languages.{is_cxx, languages_of, rust_alone};

use unwinding_frames::{CxxRuntime, Exception, ExceptionKind};

/// The languages of the functions on a stack, as the exception in flight meets them: a function
/// whose personality routine is one of C++'s asks by the rule of C++, and every other by that of
/// Rust.
///
/// Contracts see these two.
#[derive(Clone, Copy)]
pub struct Languages<'l> {
    /// The addresses of the personality routines that are C++'s: one in most processes, or one for
    /// each module with a runtime of its own.
    pub cxx_routines: &'l [u64],
    /// The exception as C++ functions see it, and the runtime that those routines are of.
    pub exception: Exception<'l>,
}

impl<'l> Languages<'l> {
    /// No routine is C++'s: every function asks by the rule of Rust.
    pub fn rust_alone() -> Languages<'l>
        ensures { languages_of result ≡ rust_alone }
    {
        Languages {
            cxx_routines: &[],
            exception: Exception {
                types: &[],
                kind: ExceptionKind::Foreign,
                runtime: CxxRuntime::Libstdcxx,
            },
        }
    }

    /// Whether a routine is C++'s; not where none is known.
    pub(crate) fn is_cxx(&self, routine: Option<u64>) -> bool
        ensures { result ≡ is_cxx (languages_of self.now) routine }
    {
        match routine {
            Some(routine) => self.cxx_routines.contains(&routine),
            None => false,
        }
    }
}
