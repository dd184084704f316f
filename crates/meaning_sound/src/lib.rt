//! The invariants that the execution of an accepted program keeps. Values have their types,
//! reference counts are the numbers of references, and object ids and blocks are in order. A state
//! for which this holds is sound. The start is sound, and every checked block keeps it. So the
//! reference counts are right at the end. The layers above cite `Sound` and the laws of `laws`.
#![tactic(auto)]

pub mod laws;
