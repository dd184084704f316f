//! The command `cluster`: a script of steps and undoings of several processors on one memory. It
//! reads its files and makes a plan; the top call carries it out.
#![tactic(auto)]

mod error;
mod following;
mod planning;
mod script;
mod shown;

pub use planning::cluster;
pub use script::{Event, MOST_AT_ONCE};
