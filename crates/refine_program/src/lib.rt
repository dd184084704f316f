//! The theorem on an image of a whole program, from what its parts do. If it is linked of the code
//! of `main` and of one routine for each method, in the order of the source, it implements the
//! program. A compiler makes the parts, each with its law, and cites `linked_programs_stand`; the
//! other laws of `laws` say which routine is whose, and that the code is made method by method. The
//! addresses of class tables are those of static_layout, and are handed on.
#![tactic(auto)]

pub mod laws;

pub use refine_calls::allocator;
pub use static_layout::{Checked, MethodId, methods_at, table_at};
