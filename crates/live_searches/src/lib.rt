//! Moves that no script has: searches along the trace points of a run, and lists of them. And the
//! value of a name. The layer above may use that they lead where the definitions say, with their
//! texts, and that the position stays if memory runs out.
#![tactic(auto)]

mod goals;
pub mod laws;
mod lists;
mod making;
mod moves;
mod searches;
mod values;
mod watches;

pub use making::{Lost, make};
pub use moves::{Moved, Outcome};
pub use source_debugger::{Detail, SourceDebugger};
pub use values::tell_value;
