//! The syntax tree of a program, with the language's names and the limits of sources. The layers
//! above build syntax trees, and state their rules over the ordinary syntax trees of `specs/`; what
//! copies and compares whole trees is in `tree_walks`.
#![tactic(auto)]

mod copy;
pub mod limits;
mod places;
pub mod tree;

pub use copy::{copy_names, copy_parent, copy_vars};
pub use limits::{
    LimitKind, MOST_BYTES, MOST_CLASSES, MOST_FIELDS, MOST_INDEX_DEPTH, MOST_LOCALS, MOST_METHODS,
    MOST_NESTING, MOST_NODES, MOST_NUMBER, MOST_PARAMETERS, MOST_PARENS, MOST_TOKENS,
};
pub use places::place_of;
pub use rpp_words::{
    FieldWord, Input, Limits, NoMemory, Text, is_name_byte, less, wrap_add, wrap_sub,
};
pub use tree::{
    BinOp, Block, Class, Expr, Ident, Made, Method, Place, Program, Stmt, UpdateOp, Var, VarType,
};
