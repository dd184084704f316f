// Why a machine is not loaded.
ghost use Rattle.std.specs.Prelude.{◌≡◌};
ghost use Rattle.pisa_loader.specs.declared.error.LoadError.TheVariants.{NoMemory};
ghost use Rattle.pisa_loader.specs.States.{load_refusal};

use pisa_image::NumberError;
use pisa_machine::NoMemory as WantOfMemory;
use std::alloc::{AllocError, AllocFailed};
use thiserror::Error;

/// What is wrong with the limits, the input or the state of a run. Lines are counted from 1, and a
/// place is a number of bytes.
#[derive(Clone, Copy, PartialEq, Eq, Debug, Error)]
pub enum LoadError {
    /// The order of the heap is not from 1 to 20.
    #[error("bad heap order")]
    HeapOrder,
    /// The depth is not from 1 to the most that the command allows.
    #[error("bad depth")]
    DeepRange,
    /// The line names no field that an input may set, or one that an earlier line names.
    #[error("unknown field in line {line}")]
    UnknownField { line: u32 },
    /// The bytes are no state for this image and these limits. The place is that of the first wrong
    /// field, of the end if they end early, or of the first byte too many.
    #[error("bad state at {at}")]
    BadState { at: u32 },
    /// The line is neither blank nor a name, `=` and a number.
    #[error("bad input line {line}")]
    BadInputLine { line: u32 },
    /// Memory ran out.
    #[error("no memory")]
    NoMemory,
}

impl From<AllocError> for LoadError {
    ghost from_gives = { λ _ e. e ≡ NoMemory };

    fn from(_: AllocError) -> Self {
        LoadError::NoMemory
    }
}

impl<T: Drop> From<AllocFailed<T>> for LoadError {
    ghost from_gives = { λ _ e. e ≡ NoMemory };

    fn from(_: AllocFailed<T>) -> Self {
        LoadError::NoMemory
    }
}

impl From<WantOfMemory> for LoadError {
    ghost from_gives = { λ _ e. e ≡ NoMemory };

    fn from(_: WantOfMemory) -> Self {
        LoadError::NoMemory
    }
}

impl From<NumberError> for LoadError {
    ghost from_gives = { λ n e. e ≡ load_refusal n };

    fn from(refusal: NumberError) -> Self {
        match refusal {
            NumberError::Cut { at } => LoadError::BadState { at },
            NumberError::NoMemory => LoadError::NoMemory,
        }
    }
}
