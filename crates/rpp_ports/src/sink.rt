// Where output goes.
ghost use Rattle.std.specs.Prelude.{◌≡◌, ◌≤◌, ◌∷◌, Bool, List, ℕ, OnOk, IsErrOf, IsTrue};
ghost use Rattle.std.specs.declared.option.Option.{Option};
ghost use Rattle.std.specs.Io.KnownBytes.{Appends, Keeps};
ghost use Rattle.rpp_ports.specs.declared.sink.SinkFault.TheVariants.{NoMemory};
ghost use Rattle.rpp_ports.specs.Events.{Put};
ghost use Rattle.rpp_ports.specs.Ports.{Rose, AppendsPrefix};

use std::alloc::AllocError;

/// Why a sink has not taken all of a piece.
#[derive(Clone, Copy, Debug, PartialEq, Eq)]
pub enum SinkFault {
    /// I/O has failed; the count of faults rose.
    Failed,
    /// No memory was left.
    NoMemory,
}

impl From<AllocError> for SinkFault {
    ghost from_gives = { λ _ e. e ≡ NoMemory };

    fn from(_: AllocError) -> Self {
        SinkFault::NoMemory
    }
}

/// Where bytes go, one piece after the other. Each put adds one event.
pub trait Sink {
    /// If they are known: the bytes written.
    ghost written: { Self → Option (List ℕ) };

    /// How often I/O has failed, up to 2^64 - 1. It never falls.
    ghost faults: { Self → ℕ };

    /// The puts so far with their answers, the last one first. They are there whether the bytes
    /// are known or not.
    ghost puts: { Self → List Put };

    /// Whether a put can find no memory.
    ghost needs_memory: { Self → Bool };

    /// Appends all the bytes. A sink that takes nothing of a piece that is not empty has failed.
    ///
    /// `Failed` comes only if the count of faults rose, and then some first bytes of the piece,
    /// or none, were appended. `NoMemory` comes only of a sink that needs memory, and then nothing was.
    fn put(&mut self, bytes: &[u8]) -> Result<(), SinkFault>
        ensures appended { OnOk result (Appends (written self.old) (written self.new) bytes.now) }
        ensures failed { IsErrOf result SinkFault.Failed
            → AppendsPrefix (written self.old) (written self.new) bytes.now }
        ensures memory { IsErrOf result SinkFault.NoMemory → Keeps (written self.old) (written self.new) }
        ensures cause { IsErrOf result SinkFault.Failed → Rose (faults self.old) (faults self.new) }
        ensures wanting { IsErrOf result SinkFault.NoMemory → IsTrue (needs_memory self.old) }
        ensures noted { puts self.new
            ≡ record { bytes = bytes.now; answer = result } ∷ puts self.old }
        ensures later { faults self.old ≤ faults self.new };
}
