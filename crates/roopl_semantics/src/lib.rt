//! The semantics of ROOPL++ programs, as definitions. They say what each statement does with its
//! faults and its cost, how memory represents a store, and when an image of the machine implements
//! a program. The layers above cite these definitions and the laws of `laws`, and nothing of the
//! proofs.
#![tactic(auto)]

pub mod laws;

pub use buddy_book::{Book, MOST_DEEP, order_for};
pub use class_rules::{Input, Limits, limits};
pub use code_conventions::{HEADER_WORDS, Image, cells, faults, memory, registers};
pub use inverse_rules::NoMemory;
