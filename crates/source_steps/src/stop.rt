// Why a run stops.
ghost use Rattle.std.specs.Prelude.{◌≡◌};
ghost use Rattle.source_store.specs.declared.lack.Lack.TheVariants.{NoMemory as WantsMemory};
ghost use Rattle.source_steps.specs.declared.stop.Stop.TheVariants.{Lacks};

use class_table::NoMemory;
use source_store::Lack;
use std::alloc::{AllocError, AllocFailed};

/// Why a run stops before its end.
#[derive(Clone, Copy, Debug, PartialEq, Eq)]
pub enum Stop {
    /// A fault, by its number.
    Fault(u32),
    /// The cost passes the fuel.
    More,
    /// It cannot go on: an allocation was refused, or a number is as high as it can be.
    Lacks(Lack),
}

impl From<Lack> for Stop {
    ghost from_gives = { λ lack e. e ≡ Lacks lack };

    fn from(lack: Lack) -> Self {
        Stop::Lacks(lack)
    }
}

impl From<NoMemory> for Stop {
    ghost from_gives = { λ _ e. e ≡ Lacks WantsMemory };

    fn from(_: NoMemory) -> Self {
        Stop::Lacks(Lack::NoMemory)
    }
}

impl From<AllocError> for Stop {
    ghost from_gives = { λ _ e. e ≡ Lacks WantsMemory };

    fn from(_: AllocError) -> Self {
        Stop::Lacks(Lack::NoMemory)
    }
}

impl<T: Drop> From<AllocFailed<T>> for Stop {
    ghost from_gives = { λ _ e. e ≡ Lacks WantsMemory };

    fn from(_: AllocFailed<T>) -> Self {
        Stop::Lacks(Lack::NoMemory)
    }
}
