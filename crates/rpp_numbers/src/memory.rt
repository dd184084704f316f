// The memory of a run.
ghost use Rattle.std.specs.Prelude.{◌≡◌};

use bennett_wrap::memory::{
    COUNT_WORD, EXPRESSION_WORDS, FIRST_FIELD, FIRST_VARIABLE, LINK_WORD, MAIN_OBJECT,
    MOST_VARIABLES, OBJECT_WORD, PLACE_WORD, TABLE_HEADER,
};
use bennett_wrap::{END_CELL, HEAP_CELL, LIST_HEADS, ORDER_CELL, STACK_CELL};
use source_meaning::MOST_OPEN;
use two_way_debugger::{FIXED_CELLS, FRAME_WORDS, HEADER_WORDS, MOST_DEEP, MOST_HEAP};

/// The numbers of the memory.
pub fn memory_numbers()
    // The orders of a heap and the depths of calls in a run, and the depths in `explain`.
    ensures sizes { (MOST_HEAP ≡ 20) × (MOST_DEEP ≡ 8_192) × (MOST_OPEN ≡ 32) }
    // The cells before the static ones.
    ensures cells { (ORDER_CELL ≡ 1) × (HEAP_CELL ≡ 2) × (STACK_CELL ≡ 3) × (END_CELL ≡ 4)
        × (LIST_HEADS ≡ 8) × (FIXED_CELLS ≡ 40) }
    // Objects, arrays and the tables of classes.
    ensures objects { (HEADER_WORDS ≡ 2) × (COUNT_WORD ≡ 1) × (TABLE_HEADER ≡ 1) }
    ensures main { (MAIN_OBJECT ≡ 40) × (FIRST_FIELD ≡ 42) }
    // The frame of a call.
    ensures frames { (FRAME_WORDS ≡ 512) × (LINK_WORD ≡ 0) × (OBJECT_WORD ≡ 1) × (PLACE_WORD ≡ 2)
        × (FIRST_VARIABLE ≡ 16) × (MOST_VARIABLES ≡ 48) }
    // The words of expressions.
    ensures expressions { EXPRESSION_WORDS ≡ 1_000 }
{}
