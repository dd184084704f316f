//! The printer of programs. It writes a program token by token in the order of the grammar, with
//! one space or one line feed between two tokens. A layer above may use `print`, whose text is
//! `printed` of `specs/Spelled.antt`, and two laws. The lexer gives the tokens that were printed,
//! and the parser reads them as a program that is equal up to offsets.
#![tactic(auto)]

mod code;
pub mod laws;
mod list;
mod token;
mod value;
mod whole;

pub use whole::print;
