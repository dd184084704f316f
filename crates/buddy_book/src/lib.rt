//! The buddy allocator's free lists of a heap, by orders. Blocks are halved when they are
//! allocated, and merged with their buddies when they are freed. A give undoes a take and a take
//! undoes a give; the layer above may use `Book`, and the definitions of `specs/Book.antt` and
//! `specs/Place.antt`.
#![tactic(auto)]

mod book;
mod lists;

pub use book::Book;
pub use rpp_words::{MOST_DEEP, order_for};
