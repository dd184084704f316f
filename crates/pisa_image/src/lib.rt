//! The bytes of image files. One function, `image_bytes`, gives the bytes of an image with its
//! notes. The reader accepts exactly those bytes and those of the version before, which has no
//! notes. Otherwise it returns the first field that is wrong. A layer above may use both, and the
//! reading and writing of numbers of 32 bits, which state files share.
#![tactic(auto)]

mod error;
mod note_reading;
mod note_writing;
mod numbers;
mod ranges;
mod reading;
mod rows;
mod writing;

pub use error::{ImageError, NumberError};
pub use numbers::{word_at, words_at};
pub use reading::{OLD_VERSION, VERSION, read_image};
pub use writing::{add_word, add_words, write_image};
