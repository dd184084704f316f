//! The top call of the program. It does what the arguments say, over any file store and any sink.
#![tactic(auto)]

mod going;
mod reading;
mod top;

pub use image_commands::{Coverage, DeepestPlace, Probe, StepTally};
pub use plan_serving::{FileShelf, MemoryShelf, MemorySink, Named, NoMemory, OutSink};
pub use program_commands::Probes;
pub use top::rooplpp;
