//! The command `trace`: a script of moves both ways along a program's run. The script also looks at
//! variables and objects. It reads its files and makes a plan; the top call carries it out.
#![tactic(auto)]

mod planning;

pub use planning::trace;
