//! The lexer of source texts. It takes the longest token at each offset, or refuses the text at the
//! first offset where that fails. The layers above use `lex`, its tokens and its errors.
#![tactic(auto)]

mod error;
mod laws;
mod lexer;
mod number;
mod pieces;
mod sign;
mod token;
mod word;

pub use error::LexError;
pub use laws::one_cutting;
pub use lexer::lex;
pub use rpp_tree::{NoMemory, limits, tree};
pub use token::{Keyword, Symbol, Token, TokenKind};

/// An alias hands on this enum, which contains itself: Rattle does not find one that is handed on by `pub use`.
pub type Expr = rpp_tree::Expr;

/// An alias hands on this enum, which contains itself: Rattle does not find one that is handed on by `pub use`.
pub type Stmt = rpp_tree::Stmt;
