//! The objects and arrays of a run by their object ids. Each has its reference count and its block
//! of the heap. A layer above may use the readers and the seven changes of `Heap`, each with the
//! change of the definition's store and requests that it implements. The last two undo the newest
//! request.
#![tactic(auto)]

mod back;
mod changes;
mod heap;
mod lack;
mod object;
mod requests;
mod value;

pub use heap::Heap;
pub use lack::Lack;
pub use meaning_machine::{NoMemory, faults};
pub use object::{Head, Object};
pub use value::Value;
