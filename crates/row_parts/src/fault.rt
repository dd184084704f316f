// Why a row differs.
ghost use Rattle.std.specs.Prelude.{◌≡◌, if◌then◌else◌, Ok, Err};
ghost use Rattle.row_parts.specs.declared.fault.Fault.TheVariants.{Differs, NoMemory};
ghost use Rattle.row_parts.specs.Faults.{fault_text};

use std::alloc::{AllocError, AllocFailed};

/// What of a row differs from its lines, or that no memory is left.
#[derive(Clone, Copy, Drop)]
pub enum Fault {
    Differs(&'static str),
    NoMemory,
}

impl From<AllocError> for Fault {
    ghost from_gives = { λ _ e. e ≡ NoMemory };

    fn from(_: AllocError) -> Self {
        Fault::NoMemory
    }
}

impl<T: Drop> From<AllocFailed<T>> for Fault {
    ghost from_gives = { λ _ e. e ≡ NoMemory };

    fn from(_: AllocFailed<T>) -> Self {
        Fault::NoMemory
    }
}

impl Fault {
    /// The fault as a text.
    pub fn text(self) -> &'static str
        ensures { result.now ≡ fault_text self }
    {
        match self {
            Fault::Differs(what) => what,
            Fault::NoMemory => "no memory is left",
        }
    }
}

/// A fault unless something holds.
pub fn ensure(holds: bool, what: &'static str) -> Result<(), Fault>
    ensures { result ≡ (if holds then Ok tt else Err (Differs what.entry)) }
{
    if holds {
        Ok(())
    } else {
        Err(Fault::Differs(what))
    }
}
