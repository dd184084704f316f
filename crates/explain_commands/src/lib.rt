//! The command `explain`: a program is interpreted, and the store that it gives is reported. It
//! reads its files and makes a plan; the top call carries it out.
#![tactic(auto)]

mod explaining;
mod meeting;
mod stores;

pub use explaining::explain;
