//! The premises about current frames in the laws of calls, locals and `main`. They hold for the one
//! relation `Stands` of cells and current frames: its addresses, and the values that move into the
//! frame above and back. They say that a callee's frame begins and ends, that a variable's word is
//! free and determines its value, and that the loaded memory is the frame of `main`. The layers
//! above cite the laws of `laws`.
#![tactic(auto)]

pub mod laws;

pub use buddy_pisa::allocator;
pub use method_calls::{call_on, local_block, main_code, method_code, own_call};
