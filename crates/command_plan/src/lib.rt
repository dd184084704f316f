//! The plan of a command: a status, a text and at most one file. Instead of a plan there may be the
//! reason that stops the command. Here are also the files that commands read, and the lines on
//! refusals and faults. Commands live in crates above this one, and the top call above them.
#![tactic(auto)]

mod plan;
mod reading;
mod texts;
mod writing;

pub use class_table::{NoMemory, limits};
pub use command_ends::{Broken, Verdict, status_of};
pub use pisa_asm::{AsmError, MOST_TEXT, assemble, list};
pub use pisa_loader::{
    ImageError, InputField, LoadError, MOST_INPUT, OLD_VERSION, VERSION, check_limits, load,
    load_more, load_state, read_image, read_input, save_state, write_image,
};
pub use pisa_scripts::{
    MOST_SCRIPT, add_cell, add_stop, direction, is_blank, number_up_to, pieces, short_number,
    without_returns,
};
pub use plan::{NoPlan, Plan, Room, Sizes, Writing};
pub use reading::{
    Both, Given, Images, MOST_IMAGE, MOST_STATE, StateNames, read_both, read_file, read_given,
    read_images, read_input_file,
};
pub use rpp_ports::{
    FileShelf, MemoryShelf, MemorySink, Named, OutSink, Shelf, ShelfFault, Sink, SinkFault,
};
pub use texts::{
    asm_line, bad_command_line, fault_line, image_line, load_line, refuse_source, report_bound,
    report_fault, with_steps,
};
pub use writing::{cells_line, write_as};
