//! Lines that come in, one after the other. The layers above work over any `Asker`, and use only the
//! trait's clauses. Only `main` makes the `InAsker`, over standard input. The `MemoryAsker` is for
//! tests and for callers that hold their lines.
#![tactic(auto)]

mod asker;
mod in_asker;
mod memory_asker;
mod trail;

pub use asker::{Asked, Asker, MOST_LINE};
pub use in_asker::InAsker;
pub use memory_asker::MemoryAsker;
pub use rpp_ports::{Sink, SinkFault};
