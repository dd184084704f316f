//! The code of a checked program. It has a routine for the heap's allocator and one for each
//! method, and the fragment that runs `main`, linked over the main object and the class tables. The
//! layer above may use `compile`, whose image implements its program and has notes on the cells of
//! its statements and int fields.
#![tactic(auto)]

mod images;
mod laws;
mod notes;
mod numbers;
mod routines;
mod statics;

pub use images::compile;
pub use laws::{calls_enter_by_swapbr, endless_images_run_on};
