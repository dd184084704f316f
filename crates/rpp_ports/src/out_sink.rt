// Standard output as a sink. What it has taken is not known.
ghost use Rattle.std.specs.Prelude.{◌≡◌, ◌≤◌, ◌∷◌, [], None, OnOk, OnErr, IsErrOf, IsTrue, false};
ghost use Rattle.std.specs.Io.KnownBytes.{Appends};
ghost use Rattle.rpp_ports.specs.Ports.{Rose, AppendsPrefix};
ghost use Rattle.rpp_ports.specs.Failures.{risen};

use crate::trail::{PutNote, PutTrail};
use crate::{Sink, SinkFault};

/// Standard output. No clause says what it has taken.
#[derive(Drop)]
pub struct OutSink<'a, R: Print> {
    rt: &'a R,
    faults: u64,
    trail: PutTrail,
}

impl<'a, R: Print> OutSink<'a, R> {
    /// The standard output of this runtime, with no failure so far, and no event.
    pub fn new(rt: &'a R) -> Self
        ensures calm { ⟦<OutSink<'a, R> as Sink>⟧.faults result ≡ 0 }
        ensures fresh { ⟦<OutSink<'a, R> as Sink>⟧.puts result ≡ [] }
    {
        OutSink {
            rt,
            faults: 0,
            trail: PutTrail::new(),
        }
    }
}

impl<'a, R: Print> Sink for OutSink<'a, R> {
    ghost written = { λ _. None };

    ghost faults = { λ s. s.faults };

    ghost puts = { λ s. s.trail.events };

    ghost needs_memory = { λ _. false };

    // Each error is counted, and is a failure. The bytes are printed, and then that is noted with
    // its answer.
    fn put(&mut self, bytes: &[u8]) -> Result<(), SinkFault>
        ensures appended { OnOk result (Appends None None bytes.now) }
        ensures failed { IsErrOf result SinkFault.Failed → AppendsPrefix None None bytes.now }
        ensures cause { IsErrOf result SinkFault.Failed → Rose self.old.faults self.new.faults }
        ensures wanting { IsErrOf result SinkFault.NoMemory → IsTrue false }
        ensures counts { OnErr result (self.new.faults ≡ risen self.old.faults) }
        ensures calm { OnOk result (self.new.faults ≡ self.old.faults) }
        ensures noted { self.new.trail.events
            ≡ record { bytes = bytes.now; answer = result } ∷ self.old.trail.events }
        ensures later { self.old.faults ≤ self.new.faults }
    {
        let answer = match self.rt.write_all(bytes) {
            Ok(()) => Ok(()),
            Err(_) => {
                self.faults = self.faults.saturating_add(1);
                Err(SinkFault::Failed)
            }
        };
        self.trail.note(&PutNote { bytes, answer });
        answer
    }
}
