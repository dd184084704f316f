//! The memory of a current frame. It says how a machine's cells and its two registers of addresses
//! represent a state inside a method. It holds for any store, allocator state and frame, with any
//! contents of the frames below. The layers above cite `Open`, the laws of `laws` and the lemmas on
//! reads, writes, and frames that are opened and left.
#![tactic(auto)]

pub mod laws;
