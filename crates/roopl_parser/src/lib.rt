//! The parser of token lists. It reads the tokens of a source as the one syntax tree that the
//! grammar gives them, within the limits. It refuses the first token with which no program begins
//! or that passes a limit. The layers above use `parse` and its errors.
#![tactic(auto)]

mod arguments;
mod class;
mod error;
mod expression;
mod kinds;
mod laws;
mod params;
mod parser;
mod simple;
mod single;
mod statement;

pub use error::ParseError;
pub use laws::{no_limit_passed, one_tree};
pub use parser::parse;
pub use roopl_lexer::{LexError, NoMemory, Token, lex, tree};

/// An alias hands on this enum, which contains itself: Rattle does not find one that is handed on by `pub use`.
pub type Expr = roopl_lexer::Expr;

/// An alias hands on this enum, which contains itself: Rattle does not find one that is handed on by `pub use`.
pub type Stmt = roopl_lexer::Stmt;
