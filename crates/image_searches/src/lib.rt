//! Searches along the positions of an image's machine, and lists of them. The layer above may use
//! that they lead where the definitions say, with their texts, and that only moves were made if
//! memory runs out.
#![tactic(auto)]

mod goals;
pub mod laws;
mod lists;
mod making;
mod moves;
mod searches;
mod watches;

pub use goals::is_served;
pub use live_requests::{Debugger, Machine, Steps};
pub use making::make;
pub use moves::{Moved, Outcome};
