//! The check of a source: lexer, parser, class table and types in their order. The layer above may
//! use `judge` and the laws `one_judgement` and `judged_is_accepted`.
#![tactic(auto)]

mod error;
mod judging;
mod laws;

pub use error::SourceError;
pub use judging::judge;
pub use laws::{judged_is_accepted, one_judgement};
pub use reversible_types::Checked;
pub use token_limits::tree;
