// Why bytes say no claims.
ghost use Rattle.std.specs.Prelude.{◌≡◌};
ghost use Rattle.stack_snapshot.specs.declared.errors.SnapshotError.TheVariants.{NoMemory};
ghost use Rattle.fact_claims.specs.declared.errors.ClaimsError.TheVariants.{Snapshot};

use stack_snapshot::SnapshotError;
use std::alloc::AllocError;

/// Why bytes say no claims.
#[derive(Clone, Copy, Debug, PartialEq, Eq, thiserror::Error)]
pub enum ClaimsError {
    /// They are no JSON text, or another field is missing or faulty, or memory ran out.
    #[error("{0}")]
    Snapshot(SnapshotError),
    /// There is no list of claims.
    #[error("the field claims is missing or faulty")]
    Claims,
    /// The item at this place of the list says no claim.
    #[error("claim {0} is faulty")]
    Claim(usize),
}

impl From<SnapshotError> for ClaimsError {
    ghost from_gives = { λ error e. e ≡ Snapshot error };

    fn from(error: SnapshotError) -> ClaimsError {
        ClaimsError::Snapshot(error)
    }
}

impl From<AllocError> for ClaimsError {
    ghost from_gives = { λ _ e. e ≡ Snapshot NoMemory };

    fn from(_e: AllocError) -> ClaimsError {
        ClaimsError::Snapshot(SnapshotError::NoMemory)
    }
}
