//! The limits that the tokens of a program pass, counted token by token, as definitions, and the law
//! that the parser finds the same. The layers above use `parse` and its errors, which this hands on.
#![tactic(auto)]

pub mod laws;

pub use roopl_parser::{LexError, ParseError, Token, lex, parse, tree};
