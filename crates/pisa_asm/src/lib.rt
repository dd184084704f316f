//! Assembly text of the machine PISA, read and written. `assemble` reads an image with its notes,
//! or returns the first refusal. `list` writes the one listing of an image with its notes. The
//! layers above use these two calls, the errors, what lines write (specs/AssemblyText), the order
//! of refusals (specs/Passes) and the listing (specs/Listing). They also use the two laws: what is
//! read is what is written, and a listing reads back.
#![tactic(auto)]

mod assembler;
mod error;
mod item;
mod label;
mod laws;
mod line;
mod link;
mod listing;
mod mnemonic;
mod notes;
mod number;
mod operand;
mod survey;

pub use assembler::{MOST_TEXT, assemble};
pub use error::AsmError;
pub use laws::{listing_reads_back, what_is_read_is_written};
pub use listing::list;
