//! The memory that a machine begins with, and the files that come with an image. These files have
//! the limits of a run, its input, and states. The layer above may use that the cells of a machine
//! which `load` makes are the loaded memory. Those of `load_more` are the same followed by zeros,
//! and those of `load_state` are the memory of the state. Each refusal is the first one.
#![tactic(auto)]

mod error;
mod input;
mod laws;
mod limits;
mod lines;
mod memory;
mod state;

pub use error::LoadError;
pub use input::{InputField, MOST_INPUT, read_input};
pub use laws::lines_have_one_form;
pub use limits::check_limits;
pub use memory::{load, load_more};
pub use pisa_image::{ImageError, OLD_VERSION, VERSION, read_image, write_image};
pub use state::{load_state, save_state};
