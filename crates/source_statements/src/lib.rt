//! The begin of statements in a run of the source, and the end of their blocks. These are choices,
//! loops, local variables, `construct` and calls. A layer above may use that `step` is a step of
//! the machine of the semantics, also of the reversed one, with the fuel that is left. Fuel and
//! enclosing statements bound the steps. It may also use `method_at`, the source of a method.
#![tactic(auto)]

mod begins;
mod calls;
mod ends;
mod methods;
mod steps;

pub use methods::method_at;
pub use source_blocks::{Checked, Setting, Stop, Text, put_value, tree, zeros};
pub use steps::step;

/// An alias hands on this enum, which contains itself: Rattle does not find one that is handed on by `pub use`.
pub type Stmt = source_blocks::Stmt;
