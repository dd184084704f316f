//! Probes that watch a run. Each keeps a state of the counted steps that it observes, and may end
//! at one of them. A list of probes observes step by step; a probe that ends is dropped, and its
//! line is kept. The layers above use only the clauses of `Probe` and `Probes`, so a caller may
//! pass probes of its own.
#![tactic(auto)]

mod coverage;
mod deepest_place;
mod one_probe;
mod probe;
mod step_tally;
mod telling;

pub use coverage::Coverage;
pub use deepest_place::DeepestPlace;
pub use probe::{Probe, StepAt};
pub use step_tally::StepTally;
pub use telling::Probes;
