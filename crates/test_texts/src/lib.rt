//! The tests of syntax trees that no command shows: copies, comparisons and inverses. It holds only
//! tests: no layer uses it.
#![tactic(auto)]

#[cfg(test)]
mod rpp_tree_tests;
