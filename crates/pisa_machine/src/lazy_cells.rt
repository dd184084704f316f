// Data cells: those after the last one that a run reached are 0, and are not stored yet.
ghost use Rattle.std.specs.Prelude.{◌≡◌, ◌<◌, ◌≤◌, ◌+◌, ◌^◌, ◌++◌, replicate, length, vec_len, vec_capacity, slice_get, slice_set, slice_index, IfOk};
ghost use Rattle.pisa_machine.specs.Reached.{words_of};

use pisa_isa::{Cells, NoMemory};

/// How many more cells are stored when a run reaches one.
const MORE_CELLS: u32 = 4096;

/// Data cells, of which the first are stored. Memory for all of them is reserved, so that storing
/// more of them allocates none.
#[derive(Drop)]
pub struct LazyCells {
    pub(crate) words: Vec<u32>,
    pub(crate) count: u32,
    ghost stored: { length words.items ≤ count },
    ghost room: { count ≤ vec_capacity words },
}

impl Cells for LazyCells {
    ghost words = { λ s. words_of s.words.items s.count };

    #[inline(always)]
    fn len(&self) -> u32 {
        self.count
    }

    #[inline(always)]
    fn exchange(&mut self, at: u32, word: &mut u32) {
        self.reach(at);
        self.swap(at, word);
    }
}

impl LazyCells {
    /// Cells with these words, and so many cells of 0 after them.
    pub(crate) fn of(words: Vec<u32>, zeros: u32) -> Result<LazyCells, NoMemory>
        requires { vec_len words + zeros < 2 ^ 32 }
        ensures { IfOk result (λ cells. words_of cells.words.items cells.count
            ≡ words.items ++ replicate zeros 0) }
    {
        let mut words = words;
        words.reserve_exact(zeros as usize)?;
        let count = words.len() as u32 + zeros;
        Ok(LazyCells { words, count })
    }

    /// The word in a cell, if there is the cell.
    pub(crate) fn get(&self, at: u32) -> Option<u32>
        ensures { result ≡ slice_get (words_of self.now.words.items self.now.count) at }
    {
        if at >= self.count {
            None
        } else if at as usize >= self.words.len() {
            Some(0)
        } else {
            Some(self.words[at as usize])
        }
    }

    // Stores a cell, if it is not stored yet.
    #[inline(always)]
    fn reach(&mut self, at: u32)
        requires { at < self.old.count }
        ensures words { words_of self.new.words.items self.new.count
            ≡ words_of self.old.words.items self.old.count }
        ensures count { self.new.count ≡ self.old.count }
        ensures stored { at < length self.new.words.items }
    {
        if at as usize >= self.words.len() {
            self.store_to(at);
        }
    }

    // Stores the cells up to one, and some after it.
    #[cold]
    #[inline(never)]
    fn store_to(&mut self, at: u32)
        requires there { at < self.old.count }
        requires not_stored { length self.old.words.items ≤ at }
        ensures words { words_of self.new.words.items self.new.count
            ≡ words_of self.old.words.items self.old.count }
        ensures count { self.new.count ≡ self.old.count }
        ensures stored { at < length self.new.words.items }
    {
        let end = at.saturating_add(MORE_CELLS).min(self.count);
        match self.words.resize(end as usize, 0) {
            Ok(()) => {}
            Err(_) => unreachable!(),
        }
    }

    // Swaps the word of a stored cell with another.
    #[inline(always)]
    fn swap(&mut self, at: u32, word: &mut u32)
        requires { at < length self.old.words.items }
        ensures words { self.new.words.items ≡ slice_set self.old.words.items at word.old }
        ensures count { self.new.count ≡ self.old.count }
        ensures word { word.new ≡ slice_index self.old.words.items at }
    {
        let old = self.words[at as usize];
        self.words[at as usize] = *word;
        *word = old;
    }
}
