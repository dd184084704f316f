//! The form of a law of a code fragment of a program. It says what the code of a statement, a
//! block, a method, a condition or a value does at any code address, in both directions. It follows
//! only from the laws of its parts and from what is assumed about the routines of the image for
//! less fuel. The crates of code prove their rules in this form without knowing each other; the
//! laws of `laws` join blocks, and all routines by an induction over fuel. The relation of cells
//! and current frames is `Stands`.
#![tactic(auto)]

pub mod laws;
mod pieces;
mod spot;

pub use paired_code::{
    Cell, END_CELL, FRAME_WORDS, FieldName, NoMemory, NoteText, Noted, Notes, Op, Piece,
    STACK_CELL, StaticWord, branch_if, cells, check_differ, check_equal, check_positive, empty,
    enter, enter_at, faults, link, marked, memory, mirror, plain, registers, seq, turn_while,
};
pub use pieces::around;
pub use spot::Spot;
