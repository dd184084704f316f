// Why a script is refused.
ghost use Rattle.std.specs.Prelude.{◌≡◌};
ghost use Rattle.debugger_scripts.specs.declared.error.ScriptError.TheVariants.{NoMemory};

use std::alloc::{AllocError, AllocFailed};
use thiserror::Error;

/// What is wrong with a script. Lines are counted from 1.
#[derive(Clone, Copy, PartialEq, Eq, Debug, Error)]
pub enum ScriptError {
    /// The line is neither blank nor a command.
    #[error("bad command in line {line}")]
    BadCommand { line: u32 },
    /// Memory ran out.
    #[error("no memory")]
    NoMemory,
}

impl From<AllocError> for ScriptError {
    ghost from_gives = { λ _ e. e ≡ NoMemory };

    fn from(_: AllocError) -> Self {
        ScriptError::NoMemory
    }
}

impl<T: Drop> From<AllocFailed<T>> for ScriptError {
    ghost from_gives = { λ _ e. e ≡ NoMemory };

    fn from(_: AllocFailed<T>) -> Self {
        ScriptError::NoMemory
    }
}
