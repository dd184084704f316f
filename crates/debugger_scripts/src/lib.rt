//! Scripts of debuggers: the commands of their lines. A script is refused exactly at its first line that
//! is no command.
#![tactic(auto)]

mod error;
mod script;

pub use error::ScriptError;
pub use pisa_scripts::{
    Command, MOST_DIGITS, MOST_SCRIPT, add_registers, add_stop, direction, number_up_to, pieces,
    short_number,
};
pub use script::{MOST_SHOWN, read_script};
