//! The inverses of statements, blocks and programs. Each function returns the syntax tree that the
//! definition of `inverse_rules` gives, offset by offset. A layer above may use these three functions.
#![tactic(auto)]

mod code;
mod form;
mod whole;

pub use code::{invert_block, invert_stmt};
pub use tree_walks::{NoMemory, Text, alike, copy_program, depth, nodes, tree};
pub use whole::invert_program;

/// An alias hands on this enum, which contains itself: Rattle does not find one that is handed on by `pub use`.
pub type Expr = tree_walks::Expr;

/// An alias hands on this enum, which contains itself: Rattle does not find one that is handed on by `pub use`.
pub type Stmt = tree_walks::Stmt;
