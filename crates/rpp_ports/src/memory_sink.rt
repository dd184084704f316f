// A sink in memory, some of whose calls fail.
ghost use Rattle.std.specs.Prelude.{◌≡◌, ◌++◌, ◌∷◌, ◌≤◌, ◌↔◌, [], Some, OnOk, OnErr, IsErrOf, IsTrue, true};
ghost use Rattle.std.specs.Io.KnownBytes.{Appends, Keeps};
ghost use Rattle.rpp_ports.specs.Ports.{Rose, AppendsPrefix};
ghost use Rattle.rpp_ports.specs.Failures.{CountsCall, IsCalm, is_due};
ghost use Rattle.rpp_ports.specs.Shelves.{sink_bytes, sink_failing, sink_faults, sink_puts};

use crate::failing::Failing;
use crate::trail::{PutNote, PutTrail};
use crate::{Sink, SinkFault};
use std::alloc::Global;

/// A sink in memory. It keeps all bytes that it takes, and puts fail at the calls that its maker
/// names.
#[derive(Drop)]
pub struct MemorySink {
    bytes: Vec<u8>,
    failing: Failing,
    trail: PutTrail,
}

impl MemorySink {
    /// An empty sink. The puts with these numbers, counted from 1, answer `Failed`; with no number
    /// none ever does.
    pub fn new(alloc: Global, failing: Vec<u64>) -> Self
        ensures bytes { sink_bytes result ≡ [] }
        ensures failing { (sink_failing result).numbers.items ≡ failing.items }
        ensures calls { (sink_failing result).calls ≡ 0 }
        ensures faults { sink_faults result ≡ 0 }
        ensures puts { sink_puts result ≡ [] }
    {
        MemorySink {
            bytes: Vec::new(alloc),
            failing: Failing::new(failing),
            trail: PutTrail::new(),
        }
    }

    /// What has been written.
    pub fn bytes(&self) -> &[u8]
        ensures { result.now ≡ sink_bytes self.now }
    {
        &self.bytes
    }

    // The answer of a put, which is still to be noted.
    fn take(&mut self, bytes: &[u8]) -> Result<(), SinkFault>
        ensures appended { OnOk result (sink_bytes self.new ≡ sink_bytes self.old ++ bytes.now) }
        ensures nothing { OnErr result (sink_bytes self.new ≡ sink_bytes self.old) }
        ensures failed { IsErrOf result SinkFault.Failed
            → AppendsPrefix (Some (sink_bytes self.old)) (Some (sink_bytes self.new)) bytes.now }
        ensures cause { IsErrOf result SinkFault.Failed
            → Rose (sink_faults self.old) (sink_faults self.new) }
        ensures later { sink_faults self.old ≤ sink_faults self.new }
        ensures due { IsErrOf result SinkFault.Failed ↔ IsTrue (is_due (sink_failing self.new)) }
        ensures counts { CountsCall (sink_failing self.old) (sink_failing self.new) }
        ensures calm { IsCalm (sink_failing self.new) }
        ensures unnoted { sink_puts self.new ≡ sink_puts self.old }
    {
        if self.failing.fails() {
            return Err(SinkFault::Failed);
        }
        self.bytes.extend_from_slice(bytes)?;
        Ok(())
    }
}

impl Sink for MemorySink {
    ghost written = { λ s. Some (sink_bytes s) };

    ghost faults = { sink_faults };

    ghost puts = { sink_puts };

    ghost needs_memory = { λ _. true };

    // Beyond the trait's clauses: any error appends nothing, the calls that fail are those that
    // were named, and no other result raises the count.
    fn put(&mut self, bytes: &[u8]) -> Result<(), SinkFault>
        ensures appended { OnOk result (sink_bytes self.new ≡ sink_bytes self.old ++ bytes.now) }
        ensures nothing { OnErr result (sink_bytes self.new ≡ sink_bytes self.old) }
        ensures failed { IsErrOf result SinkFault.Failed
            → AppendsPrefix (Some (sink_bytes self.old)) (Some (sink_bytes self.new)) bytes.now }
        ensures cause { IsErrOf result SinkFault.Failed
            → Rose (sink_faults self.old) (sink_faults self.new) }
        ensures later { sink_faults self.old ≤ sink_faults self.new }
        ensures due { IsErrOf result SinkFault.Failed ↔ IsTrue (is_due (sink_failing self.new)) }
        ensures counts { CountsCall (sink_failing self.old) (sink_failing self.new) }
        ensures calm { IsCalm (sink_failing self.new) }
        ensures noted { sink_puts self.new
            ≡ record { bytes = bytes.now; answer = result } ∷ sink_puts self.old }
    {
        let answer = self.take(bytes);
        self.trail.note(&PutNote { bytes, answer });
        answer
    }
}
