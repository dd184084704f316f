//! The lines of the objects and arrays of a run of the source. A reference is shown by its name.
#![tactic(auto)]

mod objects;
mod values;

pub use objects::{add_head, objects_text};
pub use source_steps::{Checked, Head, Heap, Lack, Stop, Value};
pub use values::{add_class_fields, add_name_line, add_value};
