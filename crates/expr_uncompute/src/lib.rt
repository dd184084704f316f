//! The code of expressions: values, conditions, and updates and swaps of lvalues. Each is a
//! fragment of reversible code with the law of its runs in both directions. A `Scope` has the
//! storage slots of a method's visible variables. The layer above may use the calls, `Scope`,
//! `Spot`, and the laws of specs/Promises.antt; which cells a fragment has is this crate's own
//! matter.
#![tactic(auto)]

mod apart;
mod around;
mod expressions;
mod found;
mod middles;
mod places;
mod values;

pub use around::{place_and_value_around, place_around, places_around};
pub use expressions::{swap_code, test_code, update_code, value_code};
pub use register_expressions::{
    Piece, Scope, Spot, check_differ, check_equal, check_positive, empty, enter, mirror, plain,
    seq, spot_of, turn_while,
};

/// An alias hands on this enum, which contains itself: Rattle does not find one that is handed on by `pub use`.
pub type Expr = register_expressions::Expr;
