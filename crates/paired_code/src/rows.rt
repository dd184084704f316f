// How rows of cells grow: of two rows that are joined, the shorter one is copied.
ghost use Rattle.std.specs.Prelude.{◌≡◌, ◌≤◌, ◌<◌, ◌^◌, ◌++◌, ◌∷◌, [], length, OnOk};
ghost use Rattle.paired_code.specs.Stored.{symbols_in};

use crate::part::Symbol;
use crate::row::Row;
use code_conventions::NoMemory;
use std::alloc::Global;

// A row of fewer cells is copied to the end of another, however long that one is.
const FEW_CELLS: usize = 32;

impl Row {
    /// No cells.
    pub(crate) fn new(alloc: Global) -> Row
        ensures { symbols_in result ≡ [] }
    {
        Row {
            store: Vec::new(alloc),
            first: 0,
        }
    }

    /// The cells in order.
    pub(crate) fn as_slice(&self) -> &[Symbol]
        ensures { result.now ≡ symbols_in self.now }
    {
        &self.store[self.first..]
    }

    /// How many cells there are.
    pub(crate) fn len(&self) -> usize
        ensures count { result ≡ length (symbols_in self.now) }
        ensures few { length (symbols_in self.now) < 2 ^ 63 }
    {
        self.store.len() - self.first
    }

    /// Adds a cell after the others.
    pub(crate) fn push(&mut self, cell: Symbol) -> Result<(), NoMemory>
        ensures { OnOk result (symbols_in self.new ≡ symbols_in self.old ++ cell ∷ []) }
    {
        self.store.push(cell)?;
        Ok(())
    }

    /// Adds the cells of another row after those of this one.
    pub(crate) fn append(&mut self, other: Row) -> Result<(), NoMemory>
        ensures { OnOk result (symbols_in self.new ≡ symbols_in self.old ++ symbols_in other) }
    {
        if other.len() >= FEW_CELLS && other.len() > self.len() {
            let mut joined = other;
            joined.put_front(self.as_slice())?;
            *self = joined;
            return Ok(());
        }
        self.store.extend_from_slice(other.as_slice())?;
        Ok(())
    }

    // Adds cells in front of the others.
    fn put_front(&mut self, more: &[Symbol]) -> Result<(), NoMemory>
        ensures { OnOk result (symbols_in self.new ≡ more.now ++ symbols_in self.old) }
    {
        if more.len() <= self.first {
            self.fill_room(more);
            return Ok(());
        }
        self.move_behind(more)
    }

    // Writes cells into the space in front.
    fn fill_room(&mut self, more: &[Symbol])
        requires { length more.now ≤ self.old.first }
        ensures { symbols_in self.new ≡ more.now ++ symbols_in self.old }
    {
        let front = self.first - more.len();
        self.store[front..self.first].copy_from_slice(more);
        self.first = front;
    }

    // Moves the cells to a larger store, after other cells, with as much space in front as they all take.
    fn move_behind(&mut self, more: &[Symbol]) -> Result<(), NoMemory>
        ensures { OnOk result (symbols_in self.new ≡ more.now ++ symbols_in self.old) }
    {
        let room = more.len().saturating_add(self.len());
        let mut store = Vec::with_capacity(*self.store.allocator(), room.saturating_mul(2))?;
        store.resize(room, Symbol::Aim(false))?;
        store.extend_from_slice(more)?;
        store.extend_from_slice(self.as_slice())?;
        *self = Row { store, first: room };
        Ok(())
    }
}
