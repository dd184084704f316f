//! The commands on images: `asm`, `list`, `flip`, `run` and `debug`. Each reads its files and makes
//! a plan; the top call carries it out.
#![tactic(auto)]

mod debugging;
mod images;
mod run_texts;
mod running;

pub use debugging::debug;
pub use images::{asm, flip, list};
pub use running::run;
pub use two_way_debugger::{Coverage, Debugger, DeepestPlace, Machine, Probe, StepTally, Steps};
