// Why a text is no image.
ghost use Rattle.std.specs.Prelude.{◌≡◌};
ghost use Rattle.pisa_asm.specs.declared.error.AsmError.TheVariants.{NoMemory};

use std::alloc::{AllocError, AllocFailed};
use thiserror::Error;

/// Why a text is no image. Lines are counted from 1.
#[derive(Clone, Copy, PartialEq, Eq, Debug, Error)]
pub enum AsmError {
    /// The line is not of the form of a line.
    #[error("line {line} is no line of assembly text")]
    BadLine { line: u32 },
    /// The first word after the line's labels begins nothing.
    #[error("line {line} begins with no mnemonic")]
    UnknownMnemonic { line: u32 },
    /// An earlier label has the name of a label of this line.
    #[error("line {line} has a label that stands earlier")]
    DuplicateLabel { line: u32 },
    /// The offset of this line names no label.
    #[error("line {line} names no label")]
    UnknownLabel { line: u32 },
    /// The target of this line's instruction is one of its sources.
    #[error("the instruction of line {line} is not one-to-one")]
    NotOneToOne { line: u32 },
    /// The number of START cells is not 1.
    #[error("not exactly one START")]
    NoStart,
    /// The number of FINISH cells is not 1.
    #[error("not exactly one FINISH")]
    NoFinish,
    /// The cell of this line is one more than an image may have.
    #[error("the cell of line {line} is one too many")]
    TooManyCells { line: u32 },
    /// The note of this line does not fit the image with those before it.
    #[error("the note of line {line} does not fit the image")]
    BadNote { line: u32 },
    /// Memory ran out.
    #[error("no memory")]
    NoMemory,
}

impl From<AllocError> for AsmError {
    ghost from_gives = { λ _ e. e ≡ NoMemory };

    fn from(_error: AllocError) -> AsmError {
        AsmError::NoMemory
    }
}

impl From<pisa_isa::NoMemory> for AsmError {
    ghost from_gives = { λ _ e. e ≡ NoMemory };

    fn from(_error: pisa_isa::NoMemory) -> AsmError {
        AsmError::NoMemory
    }
}

impl<T: Drop> From<AllocFailed<T>> for AsmError {
    ghost from_gives = { λ _ e. e ≡ NoMemory };

    fn from(_error: AllocFailed<T>) -> AsmError {
        AsmError::NoMemory
    }
}
