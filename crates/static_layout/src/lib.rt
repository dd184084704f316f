//! The addresses of the class tables among the static cells of a program's image. The code that
//! makes objects, the image and the report of a memory use these calls.
#![tactic(auto)]

mod tables;

pub use class_table::{
    Checked, ClassTable, MethodId, NoMemory, Text, methods_at, place_of, tree, wrap_sub,
};
pub use roopl_semantics::{cells, faults, memory, order_for, registers};
pub use tables::{table_addresses, table_at};

/// An alias hands on this enum, which contains itself: Rattle does not find one that is handed on by `pub use`.
pub type Expr = class_table::Expr;

/// An alias hands on this enum, which contains itself: Rattle does not find one that is handed on by `pub use`.
pub type Stmt = class_table::Stmt;
