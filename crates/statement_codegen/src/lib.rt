//! The code of statements, of whole blocks and of methods, in a scope. Each simulates the rule of
//! its statement in every current frame of a scope with these names, in both directions, with every
//! fault at its code address. Each statement of a block has a mark over its cells. The layer above
//! may use `block_code`, `method_code`, and the definitions of specs/: what a block must keep
//! (`StandsIn`), and which marks a fragment has (`HaveMarks`). It finds the scope here too, and the
//! code that calls `main`.
#![tactic(auto)]

mod blocks;
mod calls;
mod elements;
mod locals;

pub use blocks::block_code;
pub use branch_codegen::Scope;
pub use calls::method_code;
pub use refine_form::{
    FieldName, NoMemory, NoteText, Noted, Notes, Piece, StaticWord, link, memory,
};
pub use refine_objects::{main_code, tree};
