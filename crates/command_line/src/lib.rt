//! The arguments of a call, and the command with its files and numbers. The layer above may use
//! `Line` and `read_words`; `line_of` of specs/Lines.antt says which arguments are a command.
#![tactic(auto)]

mod line;

pub use command_plan::{
    Broken, MOST_IMAGE, MOST_INPUT, MOST_SCRIPT, MOST_STATE, MOST_TEXT, NoPlan, OLD_VERSION, Plan,
    Room, Sizes, StateNames, VERSION, Verdict, limits, status_of,
};
pub use line::{Line, MOST_COMMON, MOST_ITEMS, MOST_PROCESSORS, read_words};
