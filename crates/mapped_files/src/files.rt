// Files of which parts are read.
ghost use Rattle.std.specs.Prelude.{◌≡◌, ℕ, List, Option, IfOk, IfSome, IsErrOf, take, drop};

use std::alloc::{AllocError, AllocFailed, Global};

/// Why a part of a file isn't there.
#[derive(Clone, Copy, Debug, PartialEq, Eq, thiserror::Error)]
pub enum PartError {
    /// A read failed.
    #[error("a read failed")]
    Fault,
    /// Memory ran out.
    #[error("out of memory")]
    Memory,
}

impl From<AllocError> for PartError {
    ghost use Rattle.mapped_files.specs.declared.files.PartError.TheVariants.{Memory};

    ghost from_gives = { λ _ e. e ≡ Memory };

    fn from(_e: AllocError) -> PartError {
        PartError::Memory
    }
}

impl<T: Drop> From<AllocFailed<T>> for PartError {
    ghost use Rattle.mapped_files.specs.declared.files.PartError.TheVariants.{Memory};

    ghost from_gives = { λ _ e. e ≡ Memory };

    fn from(_e: AllocFailed<T>) -> PartError {
        PartError::Memory
    }
}

/// Files by their paths, of which parts are read.
///
/// Contracts see what the file of a path has, where that is known: no bytes where there is no such
/// file. And whether a read may fail.
pub trait Files {
    /// The bytes of the file of a path, where they are told.
    ghost content: { Self → List ℕ → Option (List ℕ) };

    /// Whether a read may fail.
    ghost may_fail: { Self → Type 0 };

    /// So many bytes of a file from an offset on, fewer where it ends before.
    ///
    /// # Errors
    ///
    /// [`PartError::Fault`] where a read failed, and [`PartError::Memory`] where memory ran out.
    fn read_part(
        &self,
        alloc: Global,
        path: &[u8],
        offset: u64,
        size: u64,
    ) -> Result<Vec<u8>, PartError>
        ensures part { IfSome (content self.now path.now) (λ whole.
            IfOk result (λ bytes. bytes.items ≡ take size (drop offset whole))) }
        ensures fault { IsErrOf result PartError.Fault → may_fail self.now };
}
