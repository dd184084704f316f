//! A live session: a run of a source that is held open. It hears lines, and puts one reply to each. The
//! layer above may use that the replies are those of the definitions on the trace points of the run,
//! in order, and that nothing else is put.
#![tactic(auto)]

mod ends;
pub mod laws;
mod replying;
mod session;
mod telling;

pub use live_searches::SourceDebugger;
pub use session::serve;
