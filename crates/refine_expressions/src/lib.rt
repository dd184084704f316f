//! The code of expressions, updates and swaps over the memory of current frames. It reads the words
//! of the values that the source reads, and writes those that the source writes. So it has the laws
//! of conditions, values and statements. The layers above cite the laws of `laws`, and hand the
//! registers `FLAG` and `VALUE` to the code of conditions and values.
#![tactic(auto)]

pub mod laws;

pub use expr_uncompute::{Scope, Spot, spot_of, swap_code, test_code, update_code, value_code};
pub use refine_calls::{call_on, local_block, main_code, method_code, own_call};

/// An alias hands on this enum, which contains itself: Rattle does not find one that is handed on by `pub use`.
pub type Expr = expr_uncompute::Expr;
