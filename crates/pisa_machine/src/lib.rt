//! Machines that own their image and their memory. They run at most so many steps, and step back. A
//! machine is always at a position of its run, so each step that it made can be undone. Every step,
//! forward or back, is counted by the caller's counter. Probes may watch a run; none of them
//! changes it.
#![tactic(auto)]

mod lazy_cells;
mod machine;
mod noting;
mod rows;
mod run;
mod steps;
mod telling;

pub use machine::{Machine, word_at};
pub use pisa_isa::{
    FIXED_CELLS, FRAME_WORDS, FieldWord, HEADER_WORDS, Image, Input, Limits, MOST_DEEP, MOST_HEAP,
    MOST_STATICS, NoMemory, Stop, Text, wrap_sub,
};
pub use rpp_probes::{Coverage, DeepestPlace, Probe, Probes, StepAt, StepTally};
pub use run::RunEnd;
pub use steps::Steps;
