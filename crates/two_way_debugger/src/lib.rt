//! A debugger that goes both ways along the run of a machine. It makes steps and undoes them, so many
//! or up to a code address, and shows what the registers and cells hold. A layer above may use that
//! after any list of commands the position and the text are those of the definitions.
#![tactic(auto)]

mod debugger;
mod moves;
mod shown;

pub use debugger::Debugger;
pub use moves::LAST_POSITION;
pub use pisa_machine::{
    Coverage, DeepestPlace, FIXED_CELLS, FRAME_WORDS, HEADER_WORDS, Image, MOST_DEEP, MOST_HEAP,
    Machine, NoMemory, Probe, Probes, RunEnd, StepAt, StepTally, Steps, word_at,
};
pub use pisa_scripts::{Cell, MOST_CELLS, Op, Stop};
