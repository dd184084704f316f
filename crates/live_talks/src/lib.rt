//! What live sessions of both kinds of runs share: how replies end, what is put, the limit on the
//! moves of a request, and what a session is. A layer above may use that a text is put once, and
//! the definitions of a session over what its replies are.
#![tactic(auto)]

mod ends;
mod limits;
mod saying;

pub use ends::{End, end_line};
pub use limits::end_cut;
pub use live_port::{Asked, Asker, InAsker, Sink};
pub use live_requests::{
    Ask, Command, Goal, NoMemory, Request, arguments, is_cut, is_cut_ask, limit_of, limited,
    limited_ask, most_of, name_in, pieces, read_ask, read_request,
};
pub use saying::{say, say_bye, say_bytes, say_end, say_text, status_by};
