//! The tests of machines that no command shows: of probes, and of a hand-written image's run. It
//! holds only tests: no layer uses it.
#![tactic(auto)]

#[cfg(test)]
mod pisa_machine_tests;
#[cfg(test)]
mod rpp_probes_tests;
