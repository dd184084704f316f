//! The top call of live sessions. It reads the words that begin a session and the files that they name,
//! refuses as `trace` or `debug` does, or holds the run open over any lines that come in and any sink.
#![tactic(auto)]

mod beginning;
mod image;
mod reporting;
mod texts;
mod top;

pub use live_images::InAsker;
pub use plan_serving::{FileShelf, OutSink};
pub use top::live;
