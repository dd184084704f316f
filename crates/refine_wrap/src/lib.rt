//! The wrapping of an image that implements a program. Its run ends as the source does, and a
//! finish adds only the results to the memory. A layer above may use the two laws.
#![tactic(auto)]

mod laws;

pub use bennett_wrap::wrap_image;
pub use laws::{int_fields_stand_in_static_cells, wrapped_programs_follow};
