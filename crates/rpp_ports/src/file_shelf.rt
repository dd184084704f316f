// The files of the system as a file store. What they contain is not known.
ghost use Rattle.std.specs.Prelude.{◌≡◌, ◌≤◌, ◌∷◌, [], None, IfOk, IfErr, IfSome, OnOk, OnErr, IsErrOf, length};
ghost use Rattle.rpp_ports.specs.Events.{Read, Write, bytes_of};
ghost use Rattle.rpp_ports.specs.Ports.{Rose, ReadCause, IsTextOf, WriteCause, SetsText, LeavesAfter};
ghost use Rattle.rpp_ports.specs.Failures.{risen};
ghost use Rattle.rpp_ports.specs.Files as files;

use crate::trail::{Note, Trail};
use crate::{Shelf, ShelfFault, replacing};
use std::fs::File;
use std::io;
use std::io::{ErrorKind, Read};
use std::rt::Files;

/// The files, by their paths. No clause says what they contain.
#[derive(Drop)]
pub struct FileShelf<'a, R: Files + AllocGlobal> {
    rt: &'a R,
    faults: u64,
    trail: Trail,
}

impl<'a, R: Files + AllocGlobal> FileShelf<'a, R> {
    /// The files of this runtime, with no failure so far, and no event.
    pub fn new(rt: &'a R) -> Self
        ensures calm { ⟦<FileShelf<'a, R> as Shelf>⟧.faults result ≡ 0 }
        ensures fresh { ⟦<FileShelf<'a, R> as Shelf>⟧.events result ≡ [] }
    {
        FileShelf {
            rt,
            faults: 0,
            trail: Trail::new(),
        }
    }
}

// The file's bytes, or nothing where there are more than the limit.
fn read_within<R: Files + AllocGlobal>(
    rt: &R,
    name: &str,
    limit: u64,
) -> io::Result<Option<Vec<u8>>>
    ensures { IfOk result (λ read. IfSome read (λ bytes. length bytes.items ≤ limit)) }
{
    let mut bytes = Vec::new(rt.alloc());
    File::open(rt, name)?
        .take(limit.saturating_add(1))
        .read_to_end(&mut bytes)?;
    if bytes.len() as u64 > limit {
        return Ok(None);
    }
    Ok(Some(bytes))
}

// What an error of a file is to the file store.
fn fault_of(kind: ErrorKind) -> ShelfFault
    ensures { result ≡ files.fault_of kind }
{
    match kind {
        ErrorKind::NotFound => ShelfFault::Missing,
        ErrorKind::OutOfMemory => ShelfFault::NoMemory,
        _ => ShelfFault::Failed,
    }
}

// Each error is counted, `Missing` and `TooLong` too. A call is made, and then noted with its
// answer. After an error of a write a file has its old text, except where `replacing` writes in
// place. No clause says so, since none knows what a file holds.
impl<'a, R: Files + AllocGlobal> Shelf for FileShelf<'a, R> {
    ghost texts = { λ _. None };

    ghost faults = { λ s. s.faults };

    ghost events = { λ s. s.trail.events };

    fn read(&mut self, name: &str, limit: u64) -> Result<Vec<u8>, ShelfFault>
        ensures within { IfOk result (λ bytes. length bytes.items ≤ limit) }
        ensures text { IfOk result (λ bytes. IsTextOf None name.now bytes.items) }
        ensures cause { IfErr result
            (ReadCause None name.now limit (Rose self.old.faults self.new.faults)) }
        ensures counts { OnErr result (self.new.faults ≡ risen self.old.faults) }
        ensures calm { OnOk result (self.new.faults ≡ self.old.faults) }
        ensures noted { self.new.trail.events
            ≡ Read name.now limit (bytes_of result) ∷ self.old.trail.events }
        ensures later { self.old.faults ≤ self.new.faults }
    {
        let answer = match read_within(self.rt, name, limit) {
            Ok(Some(bytes)) => Ok(bytes),
            Ok(None) => Err(ShelfFault::TooLong),
            Err(e) => Err(fault_of(e.kind())),
        };
        if answer.is_err() {
            self.faults = self.faults.saturating_add(1);
        }
        self.trail.note(&Note::Read(name, limit, &answer));
        answer
    }

    fn write(&mut self, name: &str, bytes: &[u8]) -> Result<(), ShelfFault>
        ensures written { OnOk result (SetsText None None name.now bytes.now) }
        ensures left { IfErr result (LeavesAfter None None name.now) }
        ensures cause { IfErr result (WriteCause (Rose self.old.faults self.new.faults)) }
        ensures memory { IsErrOf result ShelfFault.NoMemory → self.new.faults ≡ self.old.faults }
        ensures failed { OnErr result (IsErrOf result ShelfFault.Failed) }
        ensures counts { OnErr result (self.new.faults ≡ risen self.old.faults) }
        ensures calm { OnOk result (self.new.faults ≡ self.old.faults) }
        ensures noted { self.new.trail.events
            ≡ Write name.now bytes.now result ∷ self.old.trail.events }
        ensures later { self.old.faults ≤ self.new.faults }
    {
        let answer = match replacing::write(self.rt, name, bytes) {
            Ok(()) => Ok(()),
            Err(_) => {
                self.faults = self.faults.saturating_add(1);
                Err(ShelfFault::Failed)
            }
        };
        self.trail.note(&Note::Write(name, bytes, answer));
        answer
    }
}
