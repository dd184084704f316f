//! The checks before a run of a program: of its text, of the sizes of heap and stack, and of the
//! input, in this order. The layers above may use `ready`, which gives what the run is made with or
//! the plan that reports the first refusal. They may also use `input_fields`, and the definitions of
//! specs/Runnable.antt, which say what the texts of a run must be.
#![tactic(auto)]

mod readying;
mod settable;
mod setting;

pub use command_plan::{
    ImageError, InputField, LoadError, MOST_IMAGE, MOST_INPUT, MOST_STATE, NoPlan, Plan, Room,
    Shelf, Sizes, Verdict, bad_command_line, check_limits, fault_line, image_line, load, load_line,
    load_more, load_state, pieces, read_file, read_given, read_image, read_input, read_input_file,
    refuse_source, short_number,
};
pub use readying::ready;
pub use roopl_judge::{Checked, SourceError, judge};
pub use roopl_semantics::{Image, Input, Limits, MOST_DEEP, NoMemory, limits};
pub use settable::input_fields;
pub use setting::{Ready, RunSetting};
