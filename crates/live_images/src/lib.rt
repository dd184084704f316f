//! A live session along the run of an image. It hears lines, and puts one reply to each. The layer
//! above may use that the replies are those of the definitions at the positions of the machine, in
//! order, and that nothing else is put.
#![tactic(auto)]

mod ends;
pub mod laws;
mod replying;
mod run;
mod session;
mod telling;

pub use live_talks::{Asker, InAsker, say, status_by};
pub use run::Run;
pub use session::serve;
