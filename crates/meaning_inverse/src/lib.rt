//! The inverse law of the semantics. The inverse of an accepted program is accepted, and it undoes
//! what the program did. It has the same cost, and leads to a state that differs only in object
//! ids. The layers above cite the laws of `laws` and `AgreeStates`.
#![tactic(auto)]

pub mod laws;
