// Why bytes are no snapshot.
ghost use Rattle.std.specs.Prelude.{◌≡◌};
ghost use Rattle.stack_snapshot.specs.declared.errors.SnapshotError.TheVariants.{NoMemory};
ghost use Rattle.stack_snapshot.specs.Names.{field_name};

use std::alloc::{AllocError, AllocFailed};
use std::fmt;

/// A part of a snapshot, in the order in which faults are looked for.
#[derive(Clone, Copy, Debug, PartialEq, Eq)]
pub enum Field {
    /// The whole value: it is no object, or a number in it is no 64-bit integer.
    Object,
    /// The core file.
    Core,
    /// The memory, beside that of a core file.
    Regions,
    /// The modules in it.
    Modules,
    /// The registers from which the stack is unwound.
    Start,
    /// The exception's word.
    Exception,
    /// The exception's class.
    Class,
    /// The return addresses of landing pads.
    Resumes,
    /// The most states of a pass.
    Limit,
    /// Whether the start stands before its instruction and not after a call.
    Interrupted,
    /// The types by which handlers of C++ take the exception.
    Types,
    /// The personality routines that are C++'s.
    Personalities,
    /// Whether the exception isn't one of C++ itself.
    Foreign,
    /// The runtime of C++ whose personality routines these are.
    Runtime,
    /// The threads that were stopped.
    Samples,
    /// The functions that are claimed.
    Functions,
}

impl Field {
    /// The part's name, in lower case.
    pub fn name(&self) -> &'static str
        ensures { result.now ≡ field_name self.now }
    {
        match self {
            Field::Object => "object",
            Field::Core => "core",
            Field::Regions => "regions",
            Field::Modules => "modules",
            Field::Start => "start",
            Field::Exception => "exception",
            Field::Class => "class",
            Field::Resumes => "resumes",
            Field::Limit => "limit",
            Field::Interrupted => "interrupted",
            Field::Types => "types",
            Field::Personalities => "personalities",
            Field::Foreign => "foreign",
            Field::Runtime => "runtime",
            Field::Samples => "samples",
            Field::Functions => "functions",
        }
    }
}

impl fmt::Display for Field {
    /// The part's name.
    fn fmt<W: fmt::Write>(&self, f: &mut fmt::Formatter<W>) -> fmt::Result {
        f.write_str(self.name())
    }
}

/// Why bytes are no snapshot.
#[derive(Clone, Copy, Debug, PartialEq, Eq, thiserror::Error)]
pub enum SnapshotError {
    /// Memory ran out.
    #[error("out of memory")]
    NoMemory,
    /// The bytes are no JSON text, or arrays and objects are nested more than 127 deep.
    #[error("the bytes are no JSON text, or it is nested more than 127 deep")]
    NotJson,
    /// The JSON value is no snapshot; this is its first faulty field.
    #[error("the snapshot's field {0} is missing or faulty")]
    Bad(Field),
}

impl From<AllocError> for SnapshotError {
    ghost from_gives = { λ _ e. e ≡ NoMemory };

    fn from(_e: AllocError) -> SnapshotError {
        SnapshotError::NoMemory
    }
}

impl<T: Drop> From<AllocFailed<T>> for SnapshotError {
    ghost from_gives = { λ _ e. e ≡ NoMemory };

    fn from(_e: AllocFailed<T>) -> SnapshotError {
        SnapshotError::NoMemory
    }
}
