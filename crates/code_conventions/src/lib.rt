//! The conventions of compiled code. They say what each register is for, where the words of a
//! frame, of an object and of an array are, the numbers and names of the faults, and the instructions of all
//! code. The crates of code, their contracts and proofs cite these names; the page
//! docs/reference/conventions.md shows them as pictures.
#![tactic(auto)]

pub mod cells;
pub mod faults;
pub mod memory;
pub mod registers;

pub use pisa_isa::{
    Cell, Cells, Core, END_CELL, FRAME_WORDS, FieldName, HEADER_WORDS, HEAP_CELL, Image,
    LAST_PLACE, LIST_HEADS, MOST_CELLS, MOST_MARKS, MOST_STATICS, Mark, NoMemory, NoteText, Noted,
    Notes, ORDER_CELL, Op, STACK_CELL, Stop, step, wrap_add,
};
