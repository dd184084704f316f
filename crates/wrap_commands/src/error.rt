// Why names are refused.
ghost use Rattle.std.specs.Prelude.{◌≡◌};
ghost use Rattle.wrap_commands.specs.declared.error.NamesError.TheVariants.{NoMemory};

use std::alloc::{AllocError, AllocFailed};
use thiserror::Error;

/// What is wrong with the names of results. They are counted from 1.
#[derive(Clone, Copy, PartialEq, Eq, Debug, Error)]
pub(crate) enum NamesError {
    /// No int field of the main class has the name, or an earlier name is the same.
    #[error("unknown result {at}")]
    UnknownResult { at: usize },
    /// Memory ran out.
    #[error("no memory")]
    NoMemory,
}

impl From<AllocError> for NamesError {
    ghost from_gives = { λ _ e. e ≡ NoMemory };

    fn from(_: AllocError) -> Self {
        NamesError::NoMemory
    }
}

impl<T: Drop> From<AllocFailed<T>> for NamesError {
    ghost from_gives = { λ _ e. e ≡ NoMemory };

    fn from(_: AllocFailed<T>) -> Self {
        NamesError::NoMemory
    }
}
