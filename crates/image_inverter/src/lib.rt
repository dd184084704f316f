//! The inverse image: the code of an image as it runs from its other end. A layer above may use
//! that `flip` returns the image of the definition `flipped_image`, that flipping it again gives
//! the image back, and that its runs lead back along the runs of the image.
#![tactic(auto)]

mod inverter;

pub use inverter::flip;
pub use pisa_isa::{
    Cell, Core, END_CELL, FieldName, Image, Input, LAST_PLACE, Limits, MOST_CELLS, MOST_DEEP,
    MOST_MARKS, MOST_NAME_BYTES, MOST_NAMES, MOST_STATICS, Mark, NoMemory, Noted, Notes, Op, ROWS,
    Stop, wrap_sub,
};
