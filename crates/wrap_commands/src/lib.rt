//! The command `wrap`: a program is run, its results are copied, and it is run backward. The
//! results are named int fields of its main object, which are copied after its memory. It reads its
//! files and makes a plan; the top call carries it out.
#![tactic(auto)]

mod error;
mod names;
mod planning;
mod running;
mod shown;

pub use planning::wrap;
