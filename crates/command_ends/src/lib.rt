//! The ends of a command: verdicts and failures, with the status of the program. Each verdict and
//! each failure has one status.
#![tactic(auto)]

mod status;
mod verdict;

pub use status::{Broken, status_of};
pub use verdict::Verdict;
