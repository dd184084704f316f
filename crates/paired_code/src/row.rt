// Rows of cells.
ghost use Rattle.std.specs.Prelude.{◌≤◌, length};

use crate::part::Symbol;

/// Cells with space in front of them, so that a row grows at both ends.
#[derive(Drop)]
pub struct Row {
    pub(crate) store: Vec<Symbol>,
    pub(crate) first: usize,
    ghost room: { first ≤ length store.items },
}
