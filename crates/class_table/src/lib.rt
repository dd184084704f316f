//! The class table of a program: numbers of classes, fields, method slots, dispatch and
//! inheritance. `ClassTable::build` refuses a program that has none, at the first rule that refuses
//! it. A `Checked` holds a program that every rule accepts, together with its table. The
//! definitions are those of `class_rules`.
#![tactic(auto)]

mod chains;
mod checked;
mod fields;
mod mains;
mod names;
mod overrides;
mod phases;
mod slots;
mod table;

pub use checked::Checked;
pub use class_rules::{
    ClassError, FieldWord, Input, Kind, Limits, MethodId, NoMemory, Text, copy_vars, less, limits,
    place_of, tree, wrap_add, wrap_sub,
};
pub use mains::is_main;
pub use overrides::same_type;
pub use slots::methods_at;
pub use table::ClassTable;

/// An alias hands on this enum, which contains itself: Rattle does not find one that is handed on by `pub use`.
pub type Expr = class_rules::Expr;

/// An alias hands on this enum, which contains itself: Rattle does not find one that is handed on by `pub use`.
pub type Stmt = class_rules::Stmt;
