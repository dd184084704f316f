// The free lists, one for each order, and takes and gives on them.
ghost use Rattle.std.specs.Prelude.{IfOk, replicate, ◌-◌, ◌≡◌, ◌+◌, ◌*◌, ◌^◌, ◌<◌, ◌≤◌, [], ◌∷◌, ◌++◌, length, reverse, vec_len, vec_capacity, Some, None, IsTrue, IfSome, IfNone};
ghost use Rattle.buddy_book.specs.Book.{start, take, give_back, lower_half};
ghost use Rattle.buddy_book.specs.Shown.{first_block, is_sound, weight, size_of};
ghost use Rattle.buddy_book.specs.Stored.{list_of, free_of, HasRoom};

use rpp_words::NoMemory;
use std::alloc::Global;

/// Puts a block at the head of a list that has space.
fn put(list: &mut Vec<u32>, block: u32)
    requires { vec_len list.old < vec_capacity list.old }
    ensures items { list.new.items ≡ list.old.items ++ block ∷ [] }
    ensures capacity { vec_capacity list.old ≤ vec_capacity list.new }
{
    let _pushed = list.push(block);
}

/// The number of words of a block of order `k`.
pub(crate) fn block_size(k: u32) -> u32
    requires { k ≤ 20 }
    ensures { result ≡ 2 ^ k }
{
    1 << k
}

/// The lower half with which a block of this size merges: the only block of the list, and its buddy.
fn buddy_below(list: &[u32], size: u32, block: u32) -> Option<u32>
    requires some_words { 0 < size }
    requires in_word { 2 * size < 2 ^ 32 }
    ensures { result ≡ lower_half size block (reverse list.now) }
{
    if list.len() != 1 || block < size {
        return None;
    }
    let low = list[0];
    if low == block - size && low % (2 * size) == 0 {
        Some(low)
    } else {
        None
    }
}

/// Takes a block of order `k`, if there is one.
pub(crate) fn take_block(lists: &mut Vec<Vec<u32>>, k: u32) -> Option<u32>
    requires from_one { 1 ≤ k }
    requires in_limit { length lists.old.items ≤ 20 }
    requires sound { IsTrue (is_sound (2 ^ length lists.old.items) 2 (free_of lists.old.items)) }
    requires room { HasRoom lists.old.items }
    ensures some { IfSome result (λ block. take (free_of lists.old.items) k
        ≡ Some (block, free_of lists.new.items)) }
    ensures none { IfNone result (take (free_of lists.old.items) k ≡ None) }
    ensures stays { IfNone result (lists.new.items ≡ lists.old.items) }
    ensures count { length lists.new.items ≡ length lists.old.items }
    ensures has_room { HasRoom lists.new.items }
{
    let at = (k - 1) as usize;
    if at >= lists.len() {
        return None;
    }
    if !lists[at].is_empty() {
        return lists[at].pop();
    }
    match take_block(lists, k + 1) {
        None => None,
        Some(low) => {
            put(&mut lists[at], low);
            Some(low + block_size(k))
        }
    }
}

/// Frees a block of order `k`.
pub(crate) fn give_block(lists: &mut Vec<Vec<u32>>, k: u32, block: u32)
    requires from_one { 1 ≤ k }
    requires to_highest { k ≤ length lists.old.items }
    requires in_limit { length lists.old.items ≤ 20 }
    requires fits { block + 2 ^ k ≤ 2 ^ length lists.old.items }
    requires room { HasRoom lists.old.items }
    requires free_words { weight size_of 2 (free_of lists.old.items) + 2 ^ k
        ≤ 2 ^ length lists.old.items }
    ensures gives { free_of lists.new.items ≡ give_back (free_of lists.old.items) k block }
    ensures count { length lists.new.items ≡ length lists.old.items }
    ensures has_room { HasRoom lists.new.items }
{
    let at = (k - 1) as usize;
    match buddy_below(&lists[at], block_size(k), block) {
        None => put(&mut lists[at], block),
        Some(low) => {
            lists[at].clear();
            give_block(lists, k + 1, low);
        }
    }
}

/// The block at the head of a list, if there is one.
pub(crate) fn head_of(list: &[u32]) -> Option<u32>
    ensures { result ≡ first_block (reverse list.now) }
{
    match list.last() {
        None => None,
        Some(block) => Some(*block),
    }
}

/// A table of zeros for a heap of order `h`.
pub(crate) fn zeros(alloc: Global, h: u32) -> Result<Vec<u32>, NoMemory>
    requires from { 1 ≤ h }
    requires to { h ≤ 20 }
    ensures { IfOk result (λ table. table.items ≡ replicate (2 ^ (h - 1)) 0) }
{
    Ok(vec![in alloc; 0; block_size(h - 1) as usize]?)
}

/// Empty lists for a heap of order `h`, each with space for every block of its order.
fn lists_with_room(alloc: Global, h: u32) -> Result<Vec<Vec<u32>>, NoMemory>
    requires from { 1 ≤ h }
    requires to { h ≤ 20 }
    ensures free { IfOk result (λ lists. free_of lists.items ≡ replicate h []) }
    ensures room { IfOk result (λ lists. HasRoom lists.items) }
{
    let mut lists = Vec::new(alloc);
    for at in 0..h {
        let list = Vec::with_capacity(alloc, block_size(h - 1 - at) as usize)?;
        lists.push(list)?;
    }
    Ok(lists)
}

/// The lists of an empty heap of order `h`: the heap is one free block of the highest order.
pub(crate) fn empty_lists(alloc: Global, h: u32) -> Result<Vec<Vec<u32>>, NoMemory>
    requires from { 1 ≤ h }
    requires to { h ≤ 20 }
    ensures free { IfOk result (λ lists. free_of lists.items ≡ start h) }
    ensures room { IfOk result (λ lists. HasRoom lists.items) }
{
    let mut lists = lists_with_room(alloc, h)?;
    put(&mut lists[(h - 1) as usize], 0);
    Ok(lists)
}
