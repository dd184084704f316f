//! The rules of types for programs that can be run backward. `check` returns the program with its
//! class table if every rule accepts it, and else the first refusal in the order of the text. The
//! rules themselves are in class_rules's specs/; each function here computes one of them, and none
//! allocates memory.
#![tactic(auto)]

mod calls;
mod error;
mod expressions;
mod program;
mod scope;
mod statements;

pub use class_table::{Checked, ClassError, ClassTable};
pub use error::TypeError;
pub use program::check;
