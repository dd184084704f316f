//! Runs of the source along their trace points, under a watch. A layer above may use that a run comes
//! to the trace point that the watch looks for, or to its end, and where moves from a position lead.
//! A run goes on from where it is, and steps back if it has gone too far.
#![tactic(auto)]

mod moves;
mod places;
mod running;
mod watching;

pub use moves::{Ending, LAST_POSITION, Walk, backward, forward};
pub use pisa_scripts::{Command, Stop, add_stop};
pub use places::{Place, place_at};
pub use running::{Arrival, Course, Run, begin};
pub use source_execution::{
    Active, CallState, Compared, Execution, Input, Limits, NoMemory, Tested, Variable, find_failing,
};
