//! The position of a run of the source, and its work inside a block. The position has the block
//! that runs, the enclosing statements, and the variables and objects there. A layer above may use
//! that the code does what the machine of the semantics does at the position of a `Run`: each move
//! between blocks, each value and each statement that holds no block. It may also use what the block
//! that runs ends in, with the innermost variable. A reversed `Run` is at the
//! position of the reversed machine.
#![tactic(auto)]

mod ending;
mod frames;
mod requests;
mod run;
mod simple;
mod task;
mod values;

pub use ending::{Ending, block_ending, innermost};
pub use frames::{Caller, Closing, Frame, Local, Loop, Part, Receiver};
pub use requests::{is_request, take_line_back};
pub use run::{Run, close_block, go_over, open_block, pass, scope_of, turn};
pub use simple::{carry_line, carry_out};
pub use source_steps::{
    Cell, Checked, FieldWord, Heap, Input, Lack, Limits, MethodId, Object, Scope, Setting, Stop,
    Text, Value, cell_of_name, cells_of, element_place, faults, is_true, methods_at, move_out,
    place_of, put_value, read_cell, read_cells, refuse, return_values, spend, tree, turned_call,
    with_mark, with_marks, zeros,
};
pub use task::{Calls, Construct, Line, Task, line_at, statement_in};
pub use values::{closing_value, value_in};

/// An alias hands on this enum, which contains itself: Rattle does not find one that is handed on by `pub use`.
pub type Expr = source_steps::Expr;

/// An alias hands on this enum, which contains itself: Rattle does not find one that is handed on by `pub use`.
pub type Stmt = source_steps::Stmt;
