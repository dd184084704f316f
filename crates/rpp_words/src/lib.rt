//! Words of 32 bits, and the small types that many layers share. These are the limits of a run, its
//! input, the bytes of a text, and `NoMemory`. Every operation on words is here; no layer above adds one.
#![tactic(auto)]

mod input;
mod memory;
mod names;
mod order;
mod text;
mod words;

pub use input::{
    FIXED_CELLS, FRAME_WORDS, FieldWord, HEADER_WORDS, Input, Limits, MOST_DEEP, MOST_HEAP,
};
pub use memory::NoMemory;
pub use names::is_name_byte;
pub use order::order_for;
pub use text::Text;
pub use words::{
    less, shift_left, shift_right, shift_right_signed, turn_left, turn_right, wrap_add, wrap_sub,
};

#[cfg(test)]
mod tests;
