//! Walks over syntax trees: copies of expressions, statements and programs, equality up to offsets, and counts.
//! Names and variables have copies of their own in `rpp_tree`, as have lists of them.
#![tactic(auto)]

mod alike_code;
mod alike_values;
mod copy_code;
mod copy_values;
mod copy_whole;
mod count;

pub use alike_code::alike;
pub use copy_code::{copy_block, copy_statement};
pub use copy_values::{copy_expr, copy_made, copy_place, copy_receiver};
pub use copy_whole::{copy_class, copy_method, copy_program};
pub use count::{depth, nodes};
pub use rpp_tree::{NoMemory, Text, copy_names, copy_parent, copy_vars, tree};

/// An alias hands on this enum, which contains itself: Rattle does not find one that is handed on by `pub use`.
pub type Stmt = rpp_tree::Stmt;

/// An alias hands on this enum, which contains itself: Rattle does not find one that is handed on by `pub use`.
pub type Expr = rpp_tree::Expr;
