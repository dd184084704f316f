//! A small-step machine for the source. A list holds what is active, one step does one part of one
//! statement, and the reversed machine steps back. Its steps are the semantics, with the trace
//! points of a run. The layers above cite these definitions and the laws of `laws`.
#![tactic(auto)]

pub mod laws;

pub use meaning_points::{Book, HEADER_WORDS, NoMemory, faults, order_for};
