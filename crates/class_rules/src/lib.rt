//! The rules of classes and types, as definitions: numbers of classes, fields, method slots, dispatch
//! and inheritance, and what refuses a program. The types that they cite are here, and the laws of
//! `laws`; `class_table` has the code that computes a class table.
#![tactic(auto)]

mod error;
mod kind;
mod laws;
mod mains;
mod method;

pub use error::ClassError;
pub use kind::Kind;
pub use laws::{
    calls_find_methods, chain_ends_within, fields_come_first, first_is_first,
    inheritance_goes_through, table_reads_classes,
};
pub use mains::Main;
pub use method::MethodId;
pub use rpp_tree::{
    FieldWord, Input, Limits, NoMemory, Text, copy_vars, less, limits, place_of, tree, wrap_add,
    wrap_sub,
};

/// An alias hands on this enum, which contains itself: Rattle does not find one that is handed on by `pub use`.
pub type Expr = rpp_tree::Expr;

/// An alias hands on this enum, which contains itself: Rattle does not find one that is handed on by `pub use`.
pub type Stmt = rpp_tree::Stmt;
