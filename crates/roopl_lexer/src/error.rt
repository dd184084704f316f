// Why a text has no tokens.
ghost use Rattle.std.specs.Prelude.{◌≡◌};
ghost use Rattle.roopl_lexer.specs.declared.error.LexError.TheVariants.{NoMemory};

use std::alloc::{AllocError, AllocFailed};
use thiserror::Error;

/// Why a text has no tokens, with the place in bytes from its start.
#[derive(Debug, Drop, Error)]
pub enum LexError {
    /// No token, white space or comment begins here.
    #[error("no token begins at {at}")]
    BadByte { at: u32 },
    /// The number that begins here is above 2147483647.
    #[error("the number at {at} is too large")]
    NumberTooLarge { at: u32 },
    /// Memory ran out.
    #[error("no memory")]
    NoMemory,
}

impl From<AllocError> for LexError {
    ghost from_gives = { λ _ e. e ≡ NoMemory };

    fn from(_error: AllocError) -> LexError {
        LexError::NoMemory
    }
}

impl<T: Drop> From<AllocFailed<T>> for LexError {
    ghost from_gives = { λ _ e. e ≡ NoMemory };

    fn from(_error: AllocFailed<T>) -> LexError {
        LexError::NoMemory
    }
}
