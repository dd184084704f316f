//! How plans are served: the texts of files are read first, what makes a plan sees these and no
//! other file, and then the plan is carried out. No command is named here.
#![tactic(auto)]

mod fetching;
mod finishing;
mod held_shelf;
mod placing;

pub use command_plan::{
    FileShelf, MOST_INPUT, MemoryShelf, MemorySink, Named, NoMemory, OutSink, Shelf, Sink, limits,
};
pub use fetching::{Wanted, fetch};
pub use finishing::{finish, say};
pub use held_shelf::HeldShelf;
pub use placing::{place_images, place_input, place_states};
