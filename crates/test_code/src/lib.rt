//! The tests of compiled code that no command shows. They run the allocator's routine in a linked
//! image of its own, and the check of a register. It holds only tests: no layer uses it.
#![tactic(auto)]

#[cfg(test)]
mod buddy_pisa_tests;
