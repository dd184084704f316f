//! What a run has cost up to a position, and the free blocks of its heap there. The layer above may
//! use that both are those of the machine of the semantics at that position, with their texts, and
//! that the machine is in one place at each position of a run.
#![tactic(auto)]

mod accounts;
mod arriving;
mod blocks;
pub mod laws;

pub use accounts::{tell_cost, tell_heap};
