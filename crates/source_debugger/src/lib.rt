//! A debugger of the source. By the commands of a script it goes both ways along the trace points
//! of a program's run, and shows variables and objects. A layer above may use that after any list
//! of commands the position and the text are those of the definitions on the trace points of the
//! semantics. It keeps the run where the last command left it: a move forward goes on from there,
//! and a move back steps back from there.
#![tactic(auto)]

mod debugger;
mod failing;
pub mod laws;
mod lines;
mod looking;
mod shown;
mod stacks;

pub use debugger::SourceDebugger;
pub use failing::Detail;
pub use looking::Seen;
pub use source_courses::{Execution, Input, LAST_POSITION, Limits, NoMemory};
pub use source_lines::{Checked, Head, Heap, Lack, Stop, Value};
