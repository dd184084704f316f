//! The tests of file stores and sinks that no command shows. It holds only tests: no layer uses it.
#![tactic(auto)]

#[cfg(test)]
mod rpp_ports_tests;
