//! The tests of the top call that no command shows. Calls of file store and sink fail, and a caller
//! has probes of its own. It holds only tests: no layer uses it.
#![tactic(auto)]

#[cfg(test)]
mod call_tests;
#[cfg(test)]
mod probe_tests;
#[cfg(test)]
mod serving;
