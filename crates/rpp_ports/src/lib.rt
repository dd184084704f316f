//! The I/O interface of the program: a file store by name, and a sink for output. The layers above
//! work over any `Shelf` and `Sink`, and use only the traits' clauses. Only `main` makes the
//! `FileShelf` and the `OutSink`. The I/O interfaces in memory are for tests and for callers that
//! hold their texts. They fix which of their calls fail.
#![tactic(auto)]

mod failing;
mod file_shelf;
mod memory_shelf;
mod memory_sink;
mod out_sink;
mod replacing;
mod shelf;
mod sink;
mod trail;

pub use file_shelf::FileShelf;
pub use memory_shelf::{MemoryShelf, Named};
pub use memory_sink::MemorySink;
pub use out_sink::OutSink;
pub use shelf::{Shelf, ShelfFault};
pub use sink::{Sink, SinkFault};
