//! The numbers of the program, each with its value. Contracts elsewhere name a limit, a cell or a
//! fault, and say no number; those here do. They hold by computation, and no layer uses them.
#![tactic(auto)]

mod faults;
mod files;
mod images;
mod memory;
mod registers;
mod sources;

pub use faults::fault_numbers;
pub use files::file_numbers;
pub use images::image_numbers;
pub use memory::memory_numbers;
pub use registers::register_numbers;
pub use sources::source_numbers;
