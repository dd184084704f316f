// The data cells that a run's memory begins with, before the static ones: FIXED_CELLS of rpp_words
// is their number.

/// The cell with the order of the heap.
pub const ORDER_CELL: u32 = 1;
/// The cell with the address of the heap.
pub const HEAP_CELL: u32 = 2;
/// The cell with the address of the stack, which is the first after the heap.
pub const STACK_CELL: u32 = 3;
/// The cell with the address after the stack.
pub const END_CELL: u32 = 4;
/// What is added to an order for the cell with the head of its free list.
pub const LIST_HEADS: u32 = 8;
