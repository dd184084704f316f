//! Single steps of the interpreter: expressions, updates, swaps, copies, `new` and `delete`. These
//! are also undone. Further steps move values into a call and back. A layer above may use that each
//! returns exactly what the semantics says with so much fuel: the state and the fuel that is left,
//! the fault, or that no fuel is left.
#![tactic(auto)]

mod apart;
mod back;
mod calls;
mod cell;
mod copies;
mod expressions;
mod locals;
mod marks;
mod objects;
mod scope;
mod simple;
mod steps;
mod stop;

pub use back::{undelete_object, undeleted, unmade};
pub use calls::{cells_of, move_back, move_out, read_cells, return_values};
pub use cell::{Cell, cell_of_name, put_value, read_cell};
pub use class_table::{
    Checked, FieldWord, Input, Limits, MethodId, Text, methods_at, place_of, tree,
};
pub use copies::{copy, uncopy};
pub use expressions::Setting;
pub use locals::{element_place, whole_place};
pub use marks::{with_mark, with_marks};
pub use objects::{delete_made, delete_object, new_made, new_object, zeros};
pub use scope::Scope;
pub use simple::{swap, turned_call, undone, update};
pub use source_store::{Head, Heap, Lack, Object, Value, faults};
pub use steps::{evaluate, is_true, refuse, spend};
pub use stop::Stop;

/// An alias hands on this enum, which contains itself: Rattle does not find one that is handed on by `pub use`.
pub type Expr = class_table::Expr;

/// An alias hands on this enum, which contains itself: Rattle does not find one that is handed on by `pub use`.
pub type Stmt = class_table::Stmt;
