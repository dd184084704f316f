//! The inverses of statements, blocks and programs, as definitions, and the law that what is inverted
//! twice is as it was. `stmt_inverter` has the functions that return them.
#![tactic(auto)]

pub mod laws;

pub use rpp_tree::NoMemory;
