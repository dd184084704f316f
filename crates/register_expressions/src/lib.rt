//! Expressions whose subexpressions are in registers, from single cells up. Words of memory are
//! taken out, operators and checks are rows of cells. The value or the truth value of an expression
//! with few operators is opened in registers and closed again. The layer above may use the calls,
//! the cells of specs/Code.antt, what an expression is by specs/Number.antt, and the lemmas of
//! proofs/, which say what the cells do in both directions.
#![tactic(auto)]

pub mod cells;
pub mod held;
pub mod rows;

pub use code_scope::{
    Names, NoMemory, Piece, Scope, Spot, Text, check_differ, check_equal, check_positive, empty,
    enter, faults, free_word, memory, mirror, plain, registers, seq, spot_of, tree, turn_while,
    wrap_sub,
};

/// An alias hands on this enum, which contains itself: Rattle does not find one that is handed on by `pub use`.
pub type Expr = code_scope::Expr;
