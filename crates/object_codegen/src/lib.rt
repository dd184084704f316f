//! The code of objects and arrays: `copy` and `uncopy`, `new` and `delete`. Each pair is one
//! fragment with the law of its runs in both directions. A relation of states and memories gives
//! what the source says about them. The layer above may use the calls, and the laws of
//! specs/Promises.antt, News.antt and Creations.antt. It may also use the instructions of
//! proofs/CopyRows.antt, ObjectRows.antt and ArrayRows.antt. Which cells a fragment has is this
//! crate's own matter.
#![tactic(auto)]

mod calls;
mod cells;
mod copies;
mod guards;
mod news;
mod orders;
mod shape;
mod tables;

pub use calls::{array_code, class_code, copy_code, new_code, object_code};
pub use shape::Shape;
pub use static_layout::{ClassTable, Text, place_of, tree};

/// An alias hands on this enum, which contains itself: Rattle does not find one that is handed on by `pub use`.
pub type Stmt = static_layout::Stmt;
