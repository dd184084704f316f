//! The code of copies, `new` and `delete` over the memory of current frames. From what it does with
//! words follow the laws of its statements, and for its inverse fragments those of their inverses.
//! The layers above cite the laws of `copied` (`copy` and `uncopy`) and `made` (`new` and
//! `delete`); `opened` says what a new object and one that goes do to a current frame. The
//! fragments themselves are those of object_codegen, and are handed on.
#![tactic(auto)]

pub mod copied;
pub mod made;
pub mod opened;

pub use object_codegen::{ClassTable, Text, class_code, copy_code, new_code, place_of, tree};
pub use refine_expressions::{call_on, local_block, main_code, method_code, own_call};

/// An alias hands on this enum, which contains itself: Rattle does not find one that is handed on by `pub use`.
pub type Stmt = object_codegen::Stmt;

/// An alias hands on this enum, which contains itself: Rattle does not find one that is handed on by `pub use`.
pub type Expr = refine_expressions::Expr;
