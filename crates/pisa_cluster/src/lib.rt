//! A cluster of processors that run their images on one memory. One of them makes a step at a time.
//! The cluster keeps the steps that were made, and undoes the last step of any processor if no
//! later step of another touched the same cell. Its state is always where the kept steps lead, made
//! again from the start in their order.
#![tactic(auto)]

mod cluster;
mod laws;
mod processor;
mod search;

pub use cluster::{Cluster, Moved, Undone};
pub use laws::{last_step_is_free, schedules_replay};
pub use pisa_isa::{Core, Image, Stop};
pub use processor::{Kept, Processor};
