// The free blocks of a heap, which are taken to count them.
ghost use Rattle.std.specs.Prelude.{◌≡◌, ◌++◌, ◌+◌, ◌<◌, ◌≤◌, ◌^◌, IsTrue, IfOk, OnOk, string_bytes, replicate};
ghost use Rattle.source_debugger.specs.roopl_semantics.Execution.{order_of_cells};
ghost use Rattle.live_accounts.specs.Free.{free_line, free_lines, heap_lines};
ghost use Rattle.live_accounts.specs.Takes.{free_in, IsLast, TakesBlock, TookAll};

use source_debugger::{Head, Heap, Lack, Value};
use std::alloc::{AllocError, Global};

// The least number of cells of an array that gets a block of an order.
fn least_cells(order: u32) -> u32
    requires from { 1 ≤ order }
    requires to { order ≤ 21 }
    ensures order { order_of_cells result ≡ order }
    ensures small { result < 2 ^ 31 }
{
    (1 << (order - 1)) - 1
}

// Whether a heap is of this order.
fn has_order(heap: &Heap, order: u32) -> bool
    requires from { 1 ≤ order }
    requires to { order ≤ 20 }
    ensures { IsTrue result → heap.now.order ≡ order }
{
    if heap.is_too_large(least_cells(order)) {
        return false;
    }
    heap.is_too_large(least_cells(order + 1))
}

// So many cells of an array.
fn cells(alloc: Global, count: u32) -> Result<Vec<Value>, AllocError>
    ensures { IfOk result (λ cells. cells.items ≡ replicate count (Value.Word 0)) }
{
    vec![in alloc; Value::Word(0); count as usize]
}

// Takes a block of an order, if one is free. It returns whether one was.
fn take_one(alloc: Global, heap: &mut Heap, order: u32) -> Result<bool, Lack>
    requires from { 1 ≤ order }
    requires to { order ≤ 20 }
    requires last { IsLast order (free_in heap.old) }
    ensures { IfOk result (λ took. TakesBlock took order heap.old heap.new) }
{
    let room = cells(alloc, least_cells(order))?;
    match heap.take(Head::Ints(0), room)? {
        None => Ok(false),
        Some(_name) => Ok(true),
    }
}

// One block more. More than 2 ^ 64 are refused as `Full`.
fn one_more(count: u64) -> Result<u64, Lack>
    ensures { IfOk result (λ more. more ≡ count + 1) }
{
    match count.checked_add(1) {
        None => Err(Lack::Full),
        Some(more) => Ok(more),
    }
}

// Takes all free blocks of an order, and counts them.
fn take_all(alloc: Global, heap: &mut Heap, order: u32) -> Result<u64, Lack>
    requires from { 1 ≤ order }
    requires to { order ≤ 20 }
    requires last { IsLast order (free_in heap.old) }
    ensures { IfOk result (λ count. TookAll count order heap.old heap.new) }
{
    let mut count = 0;
    loop {
        if !take_one(alloc, heap, order)? {
            return Ok(count);
        }
        count = one_more(count)?;
    }
}

// The line of an order, if it has free blocks.
fn add_count(text: &mut String, order: u32, count: u64) -> Result<(), AllocError>
    ensures { OnOk result (string_bytes text.new
        ≡ string_bytes text.old ++ free_line order count) }
{
    if count == 0 {
        return Ok(());
    }
    write!(text, "free {order} {count}\n")
}

// The lines of the orders up to one, from the smallest. The blocks are taken from the largest
// order down, so that none is halved.
fn add_free(alloc: Global, heap: &mut Heap, order: u32, text: &mut String) -> Result<(), Lack>
    requires to { order ≤ 20 }
    requires last { IsLast order (free_in heap.old) }
    ensures { OnOk result (string_bytes text.new
        ≡ string_bytes text.old ++ free_lines order (free_in heap.old)) }
{
    if order == 0 {
        return Ok(());
    }
    let count = take_all(alloc, heap, order)?;
    add_free(alloc, heap, order - 1, text)?;
    Ok(add_count(text, order, count)?)
}

/// The lines of a heap of this order. One of another order is refused as `Full`: no run has one.
pub(crate) fn blocks_text(alloc: Global, heap: &mut Heap, order: u32) -> Result<String, Lack>
    requires from { 1 ≤ order }
    requires to { order ≤ 20 }
    ensures { IfOk result (λ text. string_bytes text
        ≡ heap_lines order heap.old.store heap.old.log) }
{
    if !has_order(heap, order) {
        return Err(Lack::Full);
    }
    let live = heap.live();
    let next = heap.names();
    let mut text = String::new(alloc);
    write!(text, "order {order}\nlive {live}\nnext #{next}\n")?;
    add_free(alloc, heap, order, &mut text)?;
    Ok(text)
}
