//! Closed fragments of reversible machine code. Entered at one end they leave at the other, trap,
//! stop at a bad address, or never leave, in either direction. The contracts of the calls that make
//! and join them say which cells there are, what the cells do, and where their marks are. `link`
//! makes an image of them, with all marks.
#![tactic(auto)]

mod marking;
mod part;
mod piece;
mod row;
mod rows;
mod span;
mod writer;

pub use code_conventions::{
    Cell, Cells, Core, END_CELL, FRAME_WORDS, FieldName, HEAP_CELL, Image, LIST_HEADS, NoMemory,
    NoteText, Noted, Notes, ORDER_CELL, Op, STACK_CELL, Stop, cells, faults, memory, registers,
    step,
};
pub use part::{StaticWord, Symbol};
pub use piece::{
    Piece, branch_if, cells_of, check_differ, check_equal, check_positive, check_zero, empty,
    enter, enter_at, marked, marks_in, mirror, plain, seq, turn_while,
};
pub use span::Span;
pub use writer::link;
