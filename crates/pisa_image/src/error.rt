// Why bytes are no image, and why they are no numbers.
ghost use Rattle.std.specs.Prelude.{◌≡◌};
ghost use Rattle.pisa_image.specs.declared.error.ImageError.TheVariants.{NoMemory};
ghost use Rattle.pisa_image.specs.declared.error.NumberError.TheVariants.{NoMemory as WantOfMemory};
ghost use Rattle.pisa_image.specs.Reading.{number_refusal};

use std::alloc::{AllocError, AllocFailed};
use thiserror::Error;

/// The first thing that is wrong with the bytes of an image file. A place is a number of bytes.
#[derive(Clone, Copy, PartialEq, Eq, Debug, Error)]
pub enum ImageError {
    /// The target of the code cell that begins here is one of its sources.
    #[error("the cell at {at} is not one-to-one")]
    NotOneToOne { at: u32 },
    /// The number of START cells is not 1.
    #[error("not exactly one START")]
    NoStart,
    /// The number of FINISH cells is not 1.
    #[error("not exactly one FINISH")]
    NoFinish,
    /// The bytes end within a field; the place is their end.
    #[error("the image ends at {at}")]
    ImageTruncated { at: u32 },
    /// The first four bytes are not `RPPI`.
    #[error("no image at {at}")]
    ImageMagic { at: u32 },
    /// The field that begins here has a value outside its range.
    #[error("bad field at {at}")]
    ImageField { at: u32 },
    /// Bytes follow the image, from this one on.
    #[error("bytes behind the image at {at}")]
    ImageTrailing { at: u32 },
    /// Memory ran out.
    #[error("no memory")]
    NoMemory,
}

impl From<AllocError> for ImageError {
    ghost from_gives = { λ _ e. e ≡ NoMemory };

    fn from(_: AllocError) -> Self {
        ImageError::NoMemory
    }
}

impl From<pisa_isa::NoMemory> for ImageError {
    ghost from_gives = { λ _ e. e ≡ NoMemory };

    fn from(_: pisa_isa::NoMemory) -> Self {
        ImageError::NoMemory
    }
}

impl<T: Drop> From<AllocFailed<T>> for ImageError {
    ghost from_gives = { λ _ e. e ≡ NoMemory };

    fn from(_: AllocFailed<T>) -> Self {
        ImageError::NoMemory
    }
}

/// Why numbers of four bytes are not read.
#[derive(Clone, Copy, PartialEq, Eq, Debug, Error)]
pub enum NumberError {
    /// The bytes end within a number; the place is their end.
    #[error("the bytes end at {at}")]
    Cut { at: u32 },
    /// Memory ran out.
    #[error("no memory")]
    NoMemory,
}

impl From<AllocError> for NumberError {
    ghost from_gives = { λ _ e. e ≡ WantOfMemory };

    fn from(_: AllocError) -> Self {
        NumberError::NoMemory
    }
}

impl<T: Drop> From<AllocFailed<T>> for NumberError {
    ghost from_gives = { λ _ e. e ≡ WantOfMemory };

    fn from(_: AllocFailed<T>) -> Self {
        NumberError::NoMemory
    }
}

impl From<NumberError> for ImageError {
    ghost from_gives = { λ n e. e ≡ number_refusal n };

    fn from(refusal: NumberError) -> Self {
        match refusal {
            NumberError::Cut { at } => ImageError::ImageTruncated { at },
            NumberError::NoMemory => ImageError::NoMemory,
        }
    }
}
