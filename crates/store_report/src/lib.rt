//! The printed report of a machine's memory. It follows the references in the cells. The layers
//! above may use `report`, the lines that a report of a store has too, and `specs/Told.antt`, which
//! says what any memory means.
#![tactic(auto)]

mod leads;
mod lines;
mod memories;
mod walking;

pub use lines::{add_bytes, add_live, add_name, add_word, class_name};
pub use memories::report;
pub use pisa_machine::{
    Image, Input, Limits, MOST_DEEP, Machine, NoMemory, Probes, RunEnd, Steps, Stop, word_at,
};
pub use static_layout::{Checked, memory, tree};
