//! The law that no live object is ever lost. Whatever the statements of an accepted program do,
//! each live object or array is reachable from the main object, the variables and the references
//! from elsewhere. The layers above cite `IsReached` of a final store: the report's walk from the
//! main object meets every live object, and the store is unambiguous.
#![tactic(auto)]

pub mod laws;
