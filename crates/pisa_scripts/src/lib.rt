//! The texts that the commands on machines share. They are the lines on stops, registers and cells,
//! and the lines of scripts with their words and numbers. A layer above may use that each call
//! gives exactly the text of its definition.
#![tactic(auto)]

mod command;
mod lines;
mod numbers;
mod stops;
mod words;

pub use code_conventions::{Cell, MOST_CELLS, Noted, Op, Stop};
pub use command::Command;
pub use lines::{MOST_SCRIPT, is_blank, pieces, without_returns};
pub use numbers::{LAST_POSITION, MOST_DIGITS, number_up_to, short_number};
pub use stops::add_stop;
pub use words::{add_cell, add_registers, direction};
