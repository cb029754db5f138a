//! Why a part of a source gives nothing.

use std::alloc::{AllocError, AllocFailed};

/// Why a part of a source gives nothing.
#[derive(Clone, Copy, Debug, PartialEq, Eq)]
pub enum Failure {
    /// It is no such part.
    Other,
    /// Memory ran out.
    NoMemory,
}

impl From<AllocError> for Failure {
    ghost use Rattle.std.specs.Prelude.{◌≡◌};
    ghost use Rattle.scw_reader.specs.declared.failure.Failure.TheVariants as failure;

    ghost from_gives = { λ _ e. e ≡ failure.NoMemory };

    fn from(_: AllocError) -> Failure {
        Failure::NoMemory
    }
}

impl<T: Drop> From<AllocFailed<T>> for Failure {
    ghost use Rattle.std.specs.Prelude.{◌≡◌};
    ghost use Rattle.scw_reader.specs.declared.failure.Failure.TheVariants as failure;

    ghost from_gives = { λ _ e. e ≡ failure.NoMemory };

    fn from(_failed: AllocFailed<T>) -> Failure {
        Failure::NoMemory
    }
}
