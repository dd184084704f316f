// The registers of the allocator, and its rows: instructions that are run one after the other.

use paired_code::{HEAP_CELL, LIST_HEADS, ORDER_CELL, Op, registers};

/// An instruction: its operation, its registers a, b and c, and its immediate word.
pub type Instruction = (Op, u8, u8, u8, u32);

/// The register of the order that is asked for: 1 or more.
pub const ORDER: u8 = registers::VALUE;

/// The register of the block's address, 0 if none is taken.
pub const BLOCK: u8 = registers::BLOCK;

/// The register of the flag of both loops: 1 before and after each.
pub const LOOP_FLAG: u8 = 16;

/// The register that counts the orders above the one that is asked for.
pub const LEVEL: u8 = 17;

/// The register of the cell that holds the head of the order's free list.
pub const HEAD: u8 = 18;

/// The register of the size of the order's blocks, in words.
pub const SIZE: u8 = 19;

/// The register of the address of the first block of the list, 0 if there is none.
pub const FIRST: u8 = 20;

/// The register of the first block's link: the address of the next block, 0 if there is none.
pub const NEXT: u8 = 21;

/// The register that is not 0 if the block is no upper half.
pub const UPPER: u8 = 22;

/// The register that is not 0 if the list is not exactly the block's lower half.
pub const EITHER: u8 = 23;

/// The register that is not 0 if UPPER or EITHER is not 0. LIMITS_ROW holds the address of a fixed cell in it.
pub const ANY: u8 = 24;

/// The register that is 0, except in a check.
pub const ZERO: u8 = 25;

/// The register of the highest order, and then of the cell of its list's head.
pub const TOP: u8 = 26;

/// The register of the address where the heap begins.
pub const BASE: u8 = 27;

/// Reads TOP, the heap's order, and BASE, its address, from the fixed cells of the memory.
pub const LIMITS_ROW: [Instruction; 9] = [
    (Op::Addi, ANY, 0, 0, ORDER_CELL),
    (Op::Exch, FIRST, ANY, 0, 0),
    (Op::Xor, TOP, FIRST, 0, 0),
    (Op::Exch, FIRST, ANY, 0, 0),
    (Op::Addi, ANY, 0, 0, HEAP_CELL - ORDER_CELL),
    (Op::Exch, FIRST, ANY, 0, 0),
    (Op::Xor, BASE, FIRST, 0, 0),
    (Op::Exch, FIRST, ANY, 0, 0),
    (Op::Addi, ANY, 0, 0, u32::MAX - HEAP_CELL + 1),
];

/// ZERO becomes 1 if the order is above the highest one, or negative as a signed word. EITHER is 0
/// there.
pub const OVER_ROW: [Instruction; 2] = [
    (Op::Sltx, ZERO, TOP, ORDER, 0),
    (Op::Sltx, ZERO, ORDER, EITHER, 0),
];

/// From the order: HEAD is the cell of its list's head, SIZE the size of its blocks, and TOP the
/// cell of the last list's head.
pub const ORDER_ROW: [Instruction; 5] = [
    (Op::Xori, LOOP_FLAG, 0, 0, 1),
    (Op::Sllvx, SIZE, LOOP_FLAG, ORDER, 0),
    (Op::Addi, TOP, 0, 0, LIST_HEADS),
    (Op::Add, HEAD, ORDER, 0, 0),
    (Op::Addi, HEAD, 0, 0, LIST_HEADS),
];

/// Flips LOOP_FLAG if LEVEL is 0.
pub const BOTTOM_ROW: [Instruction; 2] = [
    (Op::Sltx, LOOP_FLAG, ZERO, LEVEL, 0),
    (Op::Xori, LOOP_FLAG, 0, 0, 1),
];

/// Exchanges FIRST with the head of the list: FIRST becomes the first block.
pub const FIRST_ROW: [Instruction; 1] = [(Op::Exch, FIRST, HEAD, 0, 0)];

/// Flips LOOP_FLAG if the list has a first block.
pub const SOME_ROW: [Instruction; 1] = [(Op::Sltx, LOOP_FLAG, ZERO, FIRST, 0)];

/// Goes to the next order: LEVEL and HEAD go up by 1, and SIZE doubles.
pub const UP_ROW: [Instruction; 3] = [
    (Op::Addi, LEVEL, 0, 0, 1),
    (Op::Addi, HEAD, 0, 0, 1),
    (Op::Rl, SIZE, 0, 0, 1),
];

/// Sets ZERO to 1 if there is no such order.
pub const ABOVE_ROW: [Instruction; 1] = [(Op::Sltx, ZERO, TOP, HEAD, 0)];

/// Takes the first block of the list: its link becomes the head, and its first word 0.
pub const TAKE_ROW: [Instruction; 3] = [
    (Op::Exch, BLOCK, HEAD, 0, 0),
    (Op::Exch, FIRST, BLOCK, 0, 0),
    (Op::Exch, FIRST, HEAD, 0, 0),
];

/// ANY becomes 0 if the block is the upper half of the only block of the list. Then that block and
/// the size are the block, it has no link, and the block's distance from the base has the bit of
/// the size. The base is taken away since it may have that bit itself.
pub const MERGE_ROW: [Instruction; 10] = [
    (Op::Exch, FIRST, HEAD, 0, 0),
    (Op::Exch, NEXT, FIRST, 0, 0),
    (Op::Add, FIRST, SIZE, 0, 0),
    (Op::Xor, FIRST, BLOCK, 0, 0),
    (Op::Sub, BLOCK, BASE, 0, 0),
    (Op::Orx, UPPER, BLOCK, SIZE, 0),
    (Op::Xor, UPPER, BLOCK, 0, 0),
    (Op::Add, BLOCK, BASE, 0, 0),
    (Op::Orx, EITHER, FIRST, NEXT, 0),
    (Op::Orx, ANY, EITHER, UPPER, 0),
];

/// Flips LOOP_FLAG if ANY is not 0.
pub const APART_ROW: [Instruction; 1] = [(Op::Sltx, LOOP_FLAG, ZERO, ANY, 0)];

/// The block becomes the only one of the list, and its upper half the block.
pub const HALF_ROW: [Instruction; 3] = [
    (Op::Xor, FIRST, BLOCK, 0, 0),
    (Op::Exch, FIRST, HEAD, 0, 0),
    (Op::Add, BLOCK, SIZE, 0, 0),
];
