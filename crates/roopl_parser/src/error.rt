// Why tokens are no program within the limits.
ghost use Rattle.std.specs.Prelude.{◌≡◌};
ghost use Rattle.roopl_parser.specs.declared.error.ParseError.TheVariants.{NoMemory};

use roopl_lexer::limits::LimitKind;
use std::alloc::{AllocError, AllocFailed};
use thiserror::Error;

/// Why tokens are refused. `at` is a place in the text, in bytes from its start.
#[derive(Debug, Drop, Error)]
pub enum ParseError {
    /// No program's tokens begin with those up to the one at this place, itself counted; or the text ends
    /// here, within a program.
    #[error("the text is no program from byte {at} on")]
    Syntax { at: u32 },
    /// The token at this place passes a limit.
    #[error("a limit is passed at byte {at}")]
    Limit { which: LimitKind, at: u32 },
    /// Memory ran out.
    #[error("no memory")]
    NoMemory,
}

impl From<AllocError> for ParseError {
    ghost from_gives = { λ _ e. e ≡ NoMemory };

    fn from(_error: AllocError) -> ParseError {
        ParseError::NoMemory
    }
}

impl<T: Drop> From<AllocFailed<T>> for ParseError {
    ghost from_gives = { λ _ e. e ≡ NoMemory };

    fn from(_error: AllocFailed<T>) -> ParseError {
        ParseError::NoMemory
    }
}
