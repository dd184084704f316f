// The free lists, with the allocated blocks.
ghost use Rattle.std.specs.Prelude.{◌≡◌, ◌+◌, ◌-◌, ◌*◌, ◌^◌, ◌%◌, ◌≤◌, [], Some, None, IfOk, IfSome, IfNone};
ghost use Rattle.buddy_book.specs.Book.{start, take, give_back};
ghost use Rattle.buddy_book.specs.Shown.{IsTaken, with_taken, without_taken, head_address};

use crate::lists::{empty_lists, give_block, head_of, take_block, zeros};
use rpp_words::{FIXED_CELLS, NoMemory};
use std::alloc::Global;
use std::marker::Model;

/// The free lists of a heap, and its allocated blocks with their orders.
#[derive(Drop)]
pub struct Book {
    /// The order of the heap.
    h: u32,
    /// The address of the heap.
    base: u32,
    /// For each order from 1 on the distances of its free blocks from the base, the head last.
    lists: Vec<Vec<u32>>,
    /// For each second word of the heap the order of the allocated block that begins there, or 0.
    orders: Vec<u32>,
}

impl Model for Book {
    ghost use Rattle.buddy_book.specs.Shown.{Shown};
    ghost use Rattle.buddy_book.specs.Stored.{shown_book, IsStored};

    ghost Value = { Shown };

    ghost view = { λ b. shown_book b.h b.base b.lists.items b.orders.items };

    ghost invariant = { λ b. IsStored b.h b.base b.lists.items b.orders.items };
}

impl Book {
    /// The free lists of an empty heap, with space for every block.
    pub fn new(alloc: Global, h: u32, base: u32) -> Result<Book, NoMemory>
        requires from { 1 ≤ h }
        requires to { h ≤ 20 }
        requires multiple { base % 2 ^ h ≡ 0 }
        requires base_from { FIXED_CELLS ≤ base }
        requires base_to { base ≤ 2 ^ 21 }
        ensures { IfOk result (λ book. book ≡ record { h = h; base = base; free = start h; taken = [] }) }
    {
        let lists = empty_lists(alloc, h)?;
        let orders = zeros(alloc, h)?;
        Ok(Book {
            h,
            base,
            lists,
            orders,
        })
    }

    /// Takes a block of order `k`, if there is one, and returns its address.
    pub fn take(&mut self, k: u32) -> Option<u32>
        requires { 1 ≤ k }
        ensures none { IfNone result (take self.old.free k ≡ None) }
        ensures stays { IfNone result (self.new ≡ self.old) }
        ensures from_base { IfSome result (λ at. self.old.base ≤ at) }
        ensures takes { IfSome result (λ at. take self.old.free k
            ≡ Some (at - self.old.base, self.new.free)) }
        ensures taken { IfSome result (λ at. self.new.taken
            ≡ with_taken (at - self.old.base) k self.old.taken) }
        ensures is_taken { IfSome result (λ at. IsTaken self.new at k) }
        ensures heap { self.new ≡ record self.old { free = self.new.free; taken = self.new.taken } }
        ensures undone { IfSome result (λ at. give_back self.new.free k (at - self.old.base) ≡ self.old.free) }
    {
        match take_block(&mut self.lists, k) {
            None => None,
            Some(block) => {
                self.orders[(block / 2) as usize] = k;
                Some(self.base + block)
            }
        }
    }

    /// Frees an allocated block.
    pub fn give(&mut self, k: u32, block: u32)
        requires { IsTaken self.old block k }
        ensures gives { self.new.free ≡ give_back self.old.free k (block - self.old.base) }
        ensures taken { self.new.taken ≡ without_taken (block - self.old.base) self.old.taken }
        ensures heap { self.new ≡ record self.old { free = self.new.free; taken = self.new.taken } }
        ensures undone { take self.new.free k ≡ Some (block - self.old.base, self.old.free) }
    {
        let at = block - self.base;
        self.orders[(at / 2) as usize] = 0;
        give_block(&mut self.lists, k, at);
    }

    /// The address of the head of the list of order `k`.
    pub fn head(&self, k: u32) -> Option<u32>
        requires from { 1 ≤ k }
        requires to { k ≤ self.now.h }
        ensures { result ≡ head_address self.now k }
    {
        match head_of(&self.lists[(k - 1) as usize]) {
            None => None,
            Some(block) => Some(self.base + block),
        }
    }
}

#[cfg(test)]
mod tests {
    use super::*;
    use std::test::Fail;

    #[test]
    fn blocks_are_taken_from_above(rt: HostRuntime) -> Result<(), Fail> {
        let mut book = Book::new(rt.alloc(), 2, 40)?;
        assert_eq!(rt; book.head(2), Some(40), "the whole heap is free");
        let taken = [book.take(1), book.take(1), book.take(1)];
        assert_eq!(rt; taken, [Some(42), Some(40), None], "upper halves first");
        assert_eq!(rt; book.head(1), None, "no block is left");
        Ok(())
    }

    #[test]
    fn a_block_given_back_merges(rt: HostRuntime) -> Result<(), Fail> {
        let mut book = Book::new(rt.alloc(), 2, 40)?;
        let taken = book.take(1);
        assert_eq!(rt; taken, Some(42), "the upper half is taken");
        if let Some(block) = taken {
            assert_eq!(rt; book.head(1), Some(40), "the lower half is free");
            book.give(1, block);
        }
        assert_eq!(rt; book.head(1), None, "both halves merged");
        assert_eq!(rt; book.head(2), Some(40), "the whole heap is free again");
        Ok(())
    }

    /// The order of the allocated block at an address, if there is one.
    fn order_at(book: &Book, at: u32) -> Option<u32>
        ensures { IfSome result (λ k. IsTaken book.now at k) }
    {
        if at < book.base || (at - book.base) % 2 != 0 {
            return None;
        }
        let entry = ((at - book.base) / 2) as usize;
        if entry >= book.orders.len() {
            return None;
        }
        let order = book.orders[entry];
        if order == 0 { None } else { Some(order) }
    }

    /// Frees the allocated block at an address, if there is one.
    fn give_at(book: &mut Book, at: u32)
        ensures { book.new.h ≡ book.old.h }
    {
        match order_at(book, at) {
            None => {}
            Some(k) => book.give(k, at),
        }
    }

    /// If an upper half is freed after its lower half, the two merge; if a lower half is freed
    /// after its upper half, they do not.
    #[test]
    fn either_half_comes_back_first(rt: HostRuntime) -> Result<(), Fail> {
        let mut book = Book::new(rt.alloc(), 2, 40)?;
        let taken = [book.take(1), book.take(1)];
        assert_eq!(rt; taken, [Some(42), Some(40)], "upper half first");
        give_at(&mut book, 40);
        give_at(&mut book, 42);
        assert_eq!(rt; book.head(1), None, "both halves merged");
        assert_eq!(rt; book.head(2), Some(40), "the whole heap is free");
        let mut other = Book::new(rt.alloc(), 2, 40)?;
        let taken = [other.take(1), other.take(1)];
        assert_eq!(rt; taken, [Some(42), Some(40)], "upper half first");
        give_at(&mut other, 42);
        give_at(&mut other, 40);
        assert_eq!(rt; other.head(1), Some(40), "the one that came back last");
        assert_eq!(rt; other.head(2), None, "no whole block is free");
        Ok(())
    }
}
