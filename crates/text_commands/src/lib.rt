//! The commands that write source texts: `generate` and `show-inverse`. Each reads its files and
//! makes a plan; the top call carries it out.
#![tactic(auto)]

mod generating;
mod inverting;
mod writing;

pub use generating::generate;
pub use inverting::show_inverse;
