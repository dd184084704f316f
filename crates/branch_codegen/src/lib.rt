//! The code of conditionals and of loops. It is made over the fragments of their conditions and
//! blocks, and in a scope from their expressions. Each simulates the rule of its statement in both
//! directions if the inner fragments simulate theirs. Every fault occurs at its condition, and the
//! code does not end if the source does not. The marks of the parts stay on their cells.
//! It hands on the scope, and the fragments of expr_uncompute that statements begin with.
#![tactic(auto)]

mod branches;
mod scoped;

pub use branches::{conditional, repetition};
pub use refine_expressions::{Scope, Spot, spot_of, swap_code, update_code, value_code};
pub use scoped::{from_code, if_code};
