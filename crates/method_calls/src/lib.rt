//! The code of calls, of methods, of `main` and of blocks with a local variable. It is made over
//! the fragments of their parts. Each simulates the rule of its statement in both directions, with
//! every fault at its check. This needs that its parts do what theirs must do, and that the
//! routines of the image do what their methods do for less fuel. A routine runs the body; it is
//! entered at the code address that the table of the object's class has for the method.
#![tactic(auto)]

mod calls;
mod locals;
mod receivers;

pub use calls::{main_code, method_code, own_call};
pub use locals::local_block;
pub use receivers::call_on;
