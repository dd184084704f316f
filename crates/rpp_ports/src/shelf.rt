// Texts by name.
ghost use Rattle.std.specs.Prelude.{◌≡◌, ◌≤◌, ◌∷◌, List, ℕ, length, IfOk, IfErr, OnOk, IsErrOf};
ghost use Rattle.std.specs.declared.option.Option.{Option};
ghost use Rattle.rpp_ports.specs.declared.shelf.ShelfFault.TheVariants.{NoMemory};
ghost use Rattle.rpp_ports.specs.Events.{Event, Read, Write, bytes_of};
ghost use Rattle.rpp_ports.specs.Ports.{Texts, Rose, ReadCause, IsTextOf, WriteCause, SetsText, LeavesAfter};

use std::alloc::{AllocError, AllocFailed};

/// Why a file store returns no contents, or accepts none.
#[derive(Clone, Copy, Debug, PartialEq, Eq)]
pub enum ShelfFault {
    /// There is no such name.
    Missing,
    /// The text is longer than the limit of the read.
    TooLong,
    /// I/O has failed; the count of faults rose.
    Failed,
    /// No memory was left.
    NoMemory,
}

impl From<AllocError> for ShelfFault {
    ghost from_gives = { λ _ e. e ≡ NoMemory };

    fn from(_: AllocError) -> Self {
        ShelfFault::NoMemory
    }
}

impl<T: Drop> From<AllocFailed<T>> for ShelfFault {
    ghost from_gives = { λ _ e. e ≡ NoMemory };

    fn from(_: AllocFailed<T>) -> Self {
        ShelfFault::NoMemory
    }
}

/// Texts by name. No call but `write` changes one, and each read and each write adds one event.
pub trait Shelf {
    /// If it is known: the contents of each name that there is.
    ghost texts: { Self → Option Texts };

    /// How often I/O has failed, up to 2^64 - 1. It never falls.
    ghost faults: { Self → ℕ };

    /// The reads and writes so far with their answers, the last one first. They are there whether
    /// the texts are known or not.
    ghost events: { Self → List Event };

    /// The text of a name, if it is no longer than the limit, in bytes.
    ///
    /// `Missing` if there is no such name, and `TooLong` if its contents are longer. If the
    /// contents are not known, both are returned only if the count of faults rose. `Failed` comes
    /// only if it rose. `NoMemory` says nothing of the text. No text changes.
    fn read(&mut self, name: &str, limit: u64) -> Result<Vec<u8>, ShelfFault>
        ensures within { IfOk result (λ bytes. length bytes.items ≤ limit) }
        ensures text { IfOk result (λ bytes. IsTextOf (texts self.old) name.now bytes.items) }
        ensures cause { IfErr result (ReadCause (texts self.old) name.now limit
            (Rose (faults self.old) (faults self.new))) }
        ensures kept { texts self.new ≡ texts self.old }
        ensures noted { events self.new ≡ Read name.now limit (bytes_of result) ∷ events self.old }
        ensures later { faults self.old ≤ faults self.new };

    /// Sets the text of a name, and keeps those of the others. It is never `Missing` or `TooLong`.
    ///
    /// `Failed` comes only if the count of faults rose, and then the name may have its old text
    /// or any. After `NoMemory` all is as before.
    fn write(&mut self, name: &str, bytes: &[u8]) -> Result<(), ShelfFault>
        ensures written { OnOk result (SetsText (texts self.old) (texts self.new) name.now bytes.now) }
        ensures left { IfErr result (LeavesAfter (texts self.old) (texts self.new) name.now) }
        ensures cause { IfErr result (WriteCause (Rose (faults self.old) (faults self.new))) }
        ensures memory { IsErrOf result ShelfFault.NoMemory → faults self.new ≡ faults self.old }
        ensures noted { events self.new ≡ Write name.now bytes.now result ∷ events self.old }
        ensures later { faults self.old ≤ faults self.new };
}
