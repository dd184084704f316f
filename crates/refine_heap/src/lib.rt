//! The joint between the allocator and the layout. The memory that represents a store holds its
//! free lists, and a call of the allocator leads to the memory that represents the same store over
//! the free lists that are left. The layer above may use the laws of specs/; there is no code here.
#![tactic(auto)]

mod laws;

pub use buddy_pisa::{Cell, Op};
pub use laws::{
    calls_lead_to_laid, layout_holds_its_book, rooms_stand_apart, what_is_left_is_laid,
};
