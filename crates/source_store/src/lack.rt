// Why a heap refuses a change.
ghost use Rattle.std.specs.Prelude.{◌≡◌};
ghost use Rattle.source_store.specs.declared.lack.Lack.TheVariants.{NoMemory as WantsMemory};

use std::alloc::{AllocError, AllocFailed};

/// Why a run cannot go on.
#[derive(Clone, Copy, Debug, PartialEq, Eq)]
pub enum Lack {
    /// An allocation was refused.
    NoMemory,
    /// A number is as high as it can be, or a request cannot be undone. No allocation was refused.
    Full,
}

impl Lack {
    /// What a program reports of a run that cannot go on, whichever the reason.
    pub fn as_no_memory(self) -> meaning_machine::NoMemory {
        meaning_machine::NoMemory
    }
}

impl From<meaning_machine::NoMemory> for Lack {
    ghost from_gives = { λ _ e. e ≡ WantsMemory };

    fn from(_: meaning_machine::NoMemory) -> Self {
        Lack::NoMemory
    }
}

impl From<AllocError> for Lack {
    ghost from_gives = { λ _ e. e ≡ WantsMemory };

    fn from(_: AllocError) -> Self {
        Lack::NoMemory
    }
}

impl<T: Drop> From<AllocFailed<T>> for Lack {
    ghost from_gives = { λ _ e. e ≡ WantsMemory };

    fn from(_: AllocFailed<T>) -> Self {
        Lack::NoMemory
    }
}
