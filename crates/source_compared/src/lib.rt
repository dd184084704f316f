//! What a check of a run of the source compares, and the words of its tests. A layer above may use
//! the one of two checks that fails first, an element that is not there, and what a test compares.
#![tactic(auto)]

mod comparing;
mod elements;
mod outcomes;
mod words;

pub use comparing::{Compared, first_of, to_be_zero};
pub use elements::access_at;
pub use outcomes::{compare_truth, compare_values};
pub use source_store::{Head, Heap, Lack, NoMemory, Value};
pub use words::{choice_word, local_word, loop_word};
