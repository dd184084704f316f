//! The tests of the interpreter that no command shows: the numbers in the store of a finished run.
//! It holds only tests: no layer uses it.
#![tactic(auto)]

#[cfg(test)]
mod source_meaning_tests;
