// Lines in memory.
ghost use Rattle.std.specs.Prelude.{◌≡◌, ◌≤◌, ◌∷◌, [], Some, map};
ghost use Rattle.live_port.specs.rpp_ports.Ports.{Rose};
ghost use Rattle.live_port.specs.Heard.{Heard, heard, IsWithin, TellsHeard};
ghost use Rattle.live_port.specs.Told.{asker_lines, asker_events};

use crate::asker::measured;
use crate::trail::{Note, Trail};
use crate::{Asked, Asker};

/// Lines in memory, one after the other. No call of it fails, and none needs memory.
#[derive(Drop)]
pub struct MemoryAsker {
    lines: Vec<Vec<u8>>,
    trail: Trail,
}

impl MemoryAsker {
    /// These lines, which have no line feeds.
    pub fn new(lines: Vec<Vec<u8>>) -> Self
        ensures lines { asker_lines result ≡ map (λ line. line.items) lines.items }
        ensures events { asker_events result ≡ [] }
    {
        MemoryAsker {
            lines,
            trail: Trail::new(),
        }
    }

    // What is heard, which is still to be noted.
    fn take(&mut self) -> Asked
        ensures within { IsWithin (heard result) }
        ensures told { TellsHeard (Some (asker_lines self.old)) (heard result)
            (Some (asker_lines self.new)) }
        ensures sound { heard result ≡ Heard.Failed → ⊥ }
        ensures unnoted { asker_events self.new ≡ asker_events self.old }
    {
        if self.lines.is_empty() {
            return Asked::Over;
        }
        measured(self.lines.remove(0))
    }
}

impl Asker for MemoryAsker {
    ghost lines = { λ s. Some (asker_lines s) };

    ghost faults = { λ _. 0 };

    ghost events = { asker_events };

    fn next(&mut self) -> Asked
        ensures within { IsWithin (heard result) }
        ensures told { TellsHeard (Some (asker_lines self.old)) (heard result)
            (Some (asker_lines self.new)) }
        ensures noted { asker_events self.new ≡ heard result ∷ asker_events self.old }
        ensures cause { heard result ≡ Heard.Failed → Rose 0 0 }
        ensures later { 0 ≤ 0 }
    {
        let asked = self.take();
        self.trail.note(&Note { asked: &asked });
        asked
    }
}
