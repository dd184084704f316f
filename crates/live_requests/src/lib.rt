//! What a line of a live session asks: what a script of this one line does, a search, a look at the
//! run, or the end of the session. A limit bounds the moves of a request.
//! A layer above may use that each line is read as its definition says.
#![tactic(auto)]

mod asks;
mod limits;
mod request;

pub use asks::{Ask, Goal, MOST_POINTS, arguments, read_ask};
pub use debugger_scripts::{Command, number_up_to, pieces, short_number};
pub use limits::{is_cut, is_cut_ask, limit_of, limited, limited_ask, most_of};
pub use request::{Request, name_in, read_request};
pub use two_way_debugger::{Debugger, Machine, NoMemory, Steps};
