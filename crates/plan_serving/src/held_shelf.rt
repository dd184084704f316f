// Texts that are held in memory, for code that may see them and no other file.
ghost use Rattle.std.specs.Prelude.{◌≡◌, []};
ghost use Rattle.command_plan.specs.rpp_ports.Shelves.{shelf_failing};

use command_plan::{MemoryShelf, Named, Shelf, ShelfFault};
use std::alloc::Global;

/// A file store of texts in memory. No call of it ever fails, unless there is no memory.
#[derive(Drop)]
pub struct HeldShelf {
    shelf: MemoryShelf,
    ghost calm: { (shelf_failing shelf).numbers.items ≡ [] },
}

impl HeldShelf {
    ghost use Rattle.command_plan.specs.rpp_ports.Memory.{file_text};
    ghost use Rattle.plan_serving.specs.Held.{held_texts};

    /// A file store with these texts; if two share a name, the first counts.
    pub fn new(alloc: Global, texts: Vec<Named>) -> Self
        ensures { held_texts result ≡ file_text texts.items }
    {
        HeldShelf {
            shelf: MemoryShelf::new(alloc, texts, Vec::new(alloc)),
        }
    }
}

impl Shelf for HeldShelf {
    ghost use Rattle.std.specs.Prelude.{Some};
    ghost use Rattle.plan_serving.specs.Held.{held_texts, held_events};

    ghost texts = { λ s. Some (held_texts s) };

    ghost faults = { λ _. 0 };

    ghost events = { held_events };

    fn read(&mut self, name: &str, limit: u64) -> Result<Vec<u8>, ShelfFault> {
        self.shelf.read(name, limit)
    }

    fn write(&mut self, name: &str, bytes: &[u8]) -> Result<(), ShelfFault> {
        self.shelf.write(name, bytes)
    }
}
