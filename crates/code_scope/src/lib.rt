//! The storage slots of a method's visible variables while its statements are compiled. Parameters
//! and locals are in words of the current frame, fields in the current object. The layers above may
//! use `Scope`, what it lends as `Names` with `spot_of` and `free_word`, and specs/Visible.antt.
#![tactic(auto)]

mod known;
mod names;
mod scope;

pub use class_table::{NoMemory, Text, tree, wrap_sub};
pub use known::Names;
pub use names::{free_word, spot_of};
pub use refine_form::{
    Cell, Op, Piece, Spot, cells, check_differ, check_equal, check_positive, empty, enter, faults,
    memory, mirror, plain, registers, seq, turn_while,
};
pub use scope::Scope;

/// An alias hands on this enum, which contains itself: Rattle does not find one that is handed on by `pub use`.
pub type Expr = class_table::Expr;
