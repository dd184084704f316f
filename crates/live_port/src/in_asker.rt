// The lines of a reader. What they are is not known.
ghost use Rattle.std.specs.Prelude.{◌≡◌, ◌≤◌, ◌∷◌, [], None};
ghost use Rattle.live_port.specs.rpp_ports.Ports.{Rose};
ghost use Rattle.live_port.specs.Heard.{Heard, heard, IsWithin, TellsHeard};

use crate::asker::measured;
use crate::trail::{Note, Trail};
use crate::{Asked, Asker, MOST_LINE};
use std::alloc::Global;
use std::io::{BufRead, ErrorKind, Read};

// How many bytes of a line are read before it is too long: the most, and its line feed.
const MOST_READ: u64 = MOST_LINE as u64 + 1;

/// The lines of a reader, as standard input. No clause says what they are.
#[derive(Drop)]
pub struct InAsker<R: BufRead + Drop> {
    alloc: Global,
    reader: R,
    faults: u64,
    trail: Trail,
}

impl<R: BufRead + Drop> InAsker<R> {
    /// The lines of this reader, with no failure so far, and no event.
    pub fn new(alloc: Global, reader: R) -> Self
        ensures calm { ⟦<InAsker<R> as Asker>⟧.faults result ≡ 0 }
        ensures fresh { ⟦<InAsker<R> as Asker>⟧.events result ≡ [] }
    {
        InAsker {
            alloc,
            reader,
            faults: 0,
            trail: Trail::new(),
        }
    }

    // What is heard, which is neither counted nor noted yet.
    fn take(&mut self) -> Asked
        ensures within { IsWithin (heard result) }
        ensures unnoted { self.new.trail.events ≡ self.old.trail.events }
        ensures uncounted { self.new.faults ≡ self.old.faults }
    {
        let mut line = Vec::new(self.alloc);
        match self
            .reader
            .by_ref()
            .take(MOST_READ)
            .read_until(b'\n', &mut line)
        {
            Ok(0) => Asked::Over,
            Ok(_) => self.cut(line),
            Err(e) if e.kind() == ErrorKind::OutOfMemory => self.pass_over(Asked::Lost),
            Err(_) => Asked::Failed,
        }
    }

    // What is heard of a line of which so much was read. The last line may have no line feed.
    fn cut(&mut self, line: Vec<u8>) -> Asked
        ensures within { IsWithin (heard result) }
        ensures unnoted { self.new.trail.events ≡ self.old.trail.events }
        ensures uncounted { self.new.faults ≡ self.old.faults }
    {
        let mut line = line;
        if line.last() == Some(&b'\n') {
            line.pop();
            return measured(line);
        }
        if line.len() > MOST_LINE {
            return self.pass_over(Asked::Long);
        }
        measured(line)
    }

    // Passes over the rest of a line.
    fn pass_over(&mut self, asked: Asked) -> Asked
        requires { IsWithin (heard asked) }
        ensures within { IsWithin (heard result) }
        ensures unnoted { self.new.trail.events ≡ self.old.trail.events }
        ensures uncounted { self.new.faults ≡ self.old.faults }
    {
        match self.reader.skip_until(b'\n') {
            Ok(_) => asked,
            Err(_) => Asked::Failed,
        }
    }
}

impl<R: BufRead + Drop> Asker for InAsker<R> {
    ghost lines = { λ _. None };

    ghost faults = { λ s. s.faults };

    ghost events = { λ s. s.trail.events };

    // A failure is counted. What was heard is then noted.
    fn next(&mut self) -> Asked
        ensures within { IsWithin (heard result) }
        ensures told { TellsHeard None (heard result) None }
        ensures noted { self.new.trail.events ≡ heard result ∷ self.old.trail.events }
        ensures cause { heard result ≡ Heard.Failed → Rose self.old.faults self.new.faults }
        ensures later { self.old.faults ≤ self.new.faults }
    {
        let asked = self.take();
        if matches!(asked, Asked::Failed) {
            self.faults = self.faults.saturating_add(1);
        }
        self.trail.note(&Note { asked: &asked });
        asked
    }
}
