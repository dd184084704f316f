//! The parts of a test case: texts with names, the files that a command finds and leaves, and what it
//! prints and answers, compared with what is expected.
#![tactic(auto)]

mod answers;
mod digits;
mod fault;
pub mod files;
mod names;
mod pieces;
mod printed;
mod sums;
mod texts;

pub use answers::Answer;
pub use fault::{Fault, ensure};
pub use names::{Names, filled};
pub use printed::Numbers;
pub use sums::holds;
pub use texts::{is_word, words};
