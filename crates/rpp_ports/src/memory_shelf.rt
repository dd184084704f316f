// A file store in memory, some of whose calls fail.
ghost use Rattle.std.specs.Prelude.{◌≡◌, ◌≤◌, ◌↔◌, ◌∷◌, [], Some, length, IfOk, IfErr, OnOk, IsErrOf, IsTrue, option_copied};
ghost use Rattle.rpp_ports.specs.Events.{Read, Write, bytes_of};
ghost use Rattle.rpp_ports.specs.Ports.{Rose, ReadCause, WriteCause, SetsText, LeavesAfter};
ghost use Rattle.rpp_ports.specs.Memory.{file_text};
ghost use Rattle.rpp_ports.specs.Failures.{CountsCall, IsCalm, is_due};
ghost use Rattle.rpp_ports.specs.Shelves.{shelf_texts, shelf_failing, shelf_faults, shelf_events};

use crate::failing::Failing;
use crate::trail::{Note, Trail};
use crate::{Shelf, ShelfFault};
use std::alloc::Global;

/// A file of a store in memory.
#[derive(Drop)]
pub struct Named {
    pub name: String,
    pub bytes: Vec<u8>,
}

/// A file store in memory. Its reads and writes fail at the calls that its maker names.
#[derive(Drop)]
pub struct MemoryShelf {
    alloc: Global,
    texts: Vec<Named>,
    failing: Failing,
    trail: Trail,
}

impl MemoryShelf {
    /// A file store with these texts; if two share a name, the first counts. The calls with these
    /// numbers, reads and writes counted together from 1, return `Failed`; with no number none
    /// ever does.
    pub fn new(alloc: Global, texts: Vec<Named>, failing: Vec<u64>) -> Self
        ensures texts { shelf_texts result ≡ file_text texts.items }
        ensures failing { (shelf_failing result).numbers.items ≡ failing.items }
        ensures calls { (shelf_failing result).calls ≡ 0 }
        ensures faults { shelf_faults result ≡ 0 }
        ensures events { shelf_events result ≡ [] }
    {
        MemoryShelf {
            alloc,
            texts,
            failing: Failing::new(failing),
            trail: Trail::new(),
        }
    }

    /// The text of a name, if there is one. It is no call that can fail.
    pub fn text(&self, name: &str) -> Option<&[u8]>
        ensures { option_copied result ≡ shelf_texts self.now name.now }
    {
        for named in &self.texts {
            if named.name.as_str() == name {
                return Some(named.bytes.as_slice());
            }
        }
        None
    }

    // The answer of a read, which is still to be noted.
    fn found(&mut self, name: &str, limit: u64) -> Result<Vec<u8>, ShelfFault>
        ensures within { IfOk result (λ bytes. length bytes.items ≤ limit) }
        ensures text { IfOk result (λ bytes. shelf_texts self.old name.now ≡ Some bytes.items) }
        ensures cause { IfErr result (ReadCause (Some (shelf_texts self.old)) name.now limit
            (Rose (shelf_faults self.old) (shelf_faults self.new))) }
        ensures kept { shelf_texts self.new ≡ shelf_texts self.old }
        ensures later { shelf_faults self.old ≤ shelf_faults self.new }
        ensures due { IsErrOf result ShelfFault.Failed ↔ IsTrue (is_due (shelf_failing self.new)) }
        ensures counts { CountsCall (shelf_failing self.old) (shelf_failing self.new) }
        ensures calm { IsCalm (shelf_failing self.new) }
        ensures unnoted { shelf_events self.new ≡ shelf_events self.old }
    {
        if self.failing.fails() {
            return Err(ShelfFault::Failed);
        }
        let Some(bytes) = self.text(name) else {
            return Err(ShelfFault::Missing);
        };
        if bytes.len() as u64 > limit {
            return Err(ShelfFault::TooLong);
        }
        Ok(bytes.to_vec(self.alloc)?)
    }

    // The answer of a write, which is not noted yet. The first text with a name counts, so a new
    // one is put first.
    fn set(&mut self, name: &str, bytes: &[u8]) -> Result<(), ShelfFault>
        ensures written { OnOk result
            (SetsText (Some (shelf_texts self.old)) (Some (shelf_texts self.new)) name.now
            bytes.now) }
        ensures left { IfErr result (LeavesAfter (Some (shelf_texts self.old))
            (Some (shelf_texts self.new)) name.now) }
        ensures cause { IfErr result (WriteCause (Rose (shelf_faults self.old) (shelf_faults self.new))) }
        ensures memory { IsErrOf result ShelfFault.NoMemory
            → shelf_faults self.new ≡ shelf_faults self.old }
        ensures later { shelf_faults self.old ≤ shelf_faults self.new }
        ensures due { IsErrOf result ShelfFault.Failed ↔ IsTrue (is_due (shelf_failing self.new)) }
        ensures counts { CountsCall (shelf_failing self.old) (shelf_failing self.new) }
        ensures calm { IsCalm (shelf_failing self.new) }
        ensures unnoted { shelf_events self.new ≡ shelf_events self.old }
    {
        if self.failing.fails() {
            return Err(ShelfFault::Failed);
        }
        let name = String::from_str(self.alloc, name)?;
        let bytes = bytes.to_vec(self.alloc)?;
        self.texts.insert(0, Named { name, bytes })?;
        Ok(())
    }
}

// Beyond the trait's clauses: the calls that fail are those that were named, and no other answer
// raises the count.
impl Shelf for MemoryShelf {
    ghost texts = { λ s. Some (shelf_texts s) };

    ghost faults = { shelf_faults };

    ghost events = { shelf_events };

    fn read(&mut self, name: &str, limit: u64) -> Result<Vec<u8>, ShelfFault>
        ensures within { IfOk result (λ bytes. length bytes.items ≤ limit) }
        ensures text { IfOk result (λ bytes. shelf_texts self.old name.now ≡ Some bytes.items) }
        ensures cause { IfErr result (ReadCause (Some (shelf_texts self.old)) name.now limit
            (Rose (shelf_faults self.old) (shelf_faults self.new))) }
        ensures kept { shelf_texts self.new ≡ shelf_texts self.old }
        ensures later { shelf_faults self.old ≤ shelf_faults self.new }
        ensures due { IsErrOf result ShelfFault.Failed ↔ IsTrue (is_due (shelf_failing self.new)) }
        ensures counts { CountsCall (shelf_failing self.old) (shelf_failing self.new) }
        ensures calm { IsCalm (shelf_failing self.new) }
        ensures noted { shelf_events self.new
            ≡ Read name.now limit (bytes_of result) ∷ shelf_events self.old }
    {
        let answer = self.found(name, limit);
        self.trail.note(&Note::Read(name, limit, &answer));
        answer
    }

    fn write(&mut self, name: &str, bytes: &[u8]) -> Result<(), ShelfFault>
        ensures written { OnOk result
            (SetsText (Some (shelf_texts self.old)) (Some (shelf_texts self.new)) name.now
            bytes.now) }
        ensures left { IfErr result (LeavesAfter (Some (shelf_texts self.old))
            (Some (shelf_texts self.new)) name.now) }
        ensures cause { IfErr result (WriteCause (Rose (shelf_faults self.old) (shelf_faults self.new))) }
        ensures memory { IsErrOf result ShelfFault.NoMemory
            → shelf_faults self.new ≡ shelf_faults self.old }
        ensures later { shelf_faults self.old ≤ shelf_faults self.new }
        ensures due { IsErrOf result ShelfFault.Failed ↔ IsTrue (is_due (shelf_failing self.new)) }
        ensures counts { CountsCall (shelf_failing self.old) (shelf_failing self.new) }
        ensures calm { IsCalm (shelf_failing self.new) }
        ensures noted { shelf_events self.new ≡ Write name.now bytes.now result ∷ shelf_events self.old }
    {
        let answer = self.set(name, bytes);
        self.trail.note(&Note::Write(name, bytes, answer));
        answer
    }
}
