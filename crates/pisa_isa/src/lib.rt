//! The reversible machine PISA: its instructions, its single steps, and images. An image is a
//! program of the machine, with notes on where its cells come from. A step goes forward or back.
//! The contracts of all layers above share the definitions in this crate: the table of
//! instructions, states, stops, steps, runs, and the memory that a run begins with.
#![tactic(auto)]

mod cell;
mod fixed;
mod image;
mod laws;
mod machine;
mod notes;

pub use cell::{Cell, Op, ROWS};
pub use fixed::{END_CELL, HEAP_CELL, LIST_HEADS, ORDER_CELL, STACK_CELL};
pub use image::{Image, MOST_CELLS, MOST_STATICS, SealError};
pub use laws::{
    back_undoes_next, back_undoes_steps, flipped_image_is_image, flipped_notes_fit,
    flipped_run_restores,
};
pub use machine::{Cells, Core, Stop, step, unstep};
pub use notes::{
    FieldName, LAST_PLACE, MOST_MARKS, MOST_NAME_BYTES, MOST_NAMES, Mark, NoteText, Noted, Notes,
    fits, is_name, mark_fits, name_fits,
};
pub use rpp_words::{
    FIXED_CELLS, FRAME_WORDS, FieldWord, HEADER_WORDS, Input, Limits, MOST_DEEP, MOST_HEAP,
    NoMemory, Text, is_name_byte, less, shift_left, shift_right, shift_right_signed, turn_left,
    turn_right, wrap_add, wrap_sub,
};
