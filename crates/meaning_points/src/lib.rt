//! The trace points of a run of the source. Each is a statement about to execute, with its state,
//! in order. The layers above cite these definitions and the laws of `laws`.
#![tactic(auto)]

pub mod laws;

pub use roopl_semantics::{Book, HEADER_WORDS, NoMemory, faults, order_for};
