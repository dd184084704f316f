//! The reversed machine of the source. One of its steps undoes each step of a run of an accepted
//! program, object ids included. The layers above cite the laws of `laws`.
#![tactic(auto)]

pub mod laws;
