//! What the next step of a run of the source tests, and where it is in the text. If the step fails, a
//! layer above may use the values that the failing test or check compares.
#![tactic(auto)]

mod accesses;
mod checks;
mod closings;
mod places;
mod testing;
mod touched;

pub use places::{line_place, place_at};
pub use source_blocks::{
    Caller, FieldWord, Frame, Heap, Input, Lack, Limits, Line, Object, Part, Run, Task, Value,
    line_at, turn,
};
pub use source_compared::{Compared, Head, NoMemory};
pub use testing::{Tested, test_next};
