//! The interpreter of the source. It does what the semantics says, statement by statement. A layer
//! above may use that `interpret` ends in the same case as the definition, with the same code, cost
//! and store. More fuel gives the same. The reference counts in a `Store` are the numbers of
//! references, and the inverse undoes what was done.
#![tactic(auto)]

mod outcome;
mod store;
mod whole;

pub use outcome::Outcome;
pub use source_execution::{Head, Heap, Input, Limits, Value};
pub use store::{Object, Store};
pub use whole::{MOST_OPEN, interpret};
