//! A step-by-step run of the source: a list on the heap holds what is active. A layer above may use
//! that a step is one of the machine of the semantics, that a run is its steps, and that a fault
//! leaves a run where it was. It may also use the active calls, and which step stops with a fault.
#![tactic(auto)]

mod calls;
mod execution;
mod falling;
pub mod laws;
mod places;
mod variables;

pub use calls::{Active, CallState};
pub use execution::{Execution, breaks};
pub use falling::{Failing, find_failing};
pub use source_checks::{
    Compared, Head, Heap, Input, Lack, Limits, NoMemory, Object, Tested, Value,
};
pub use source_statements::{Checked, Stop};
pub use variables::Variable;
