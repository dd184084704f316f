// The offset of a statement.
ghost use Rattle.std.specs.Prelude.{◌≡◌};
ghost use Rattle.rpp_tree.specs.Places.{statement_place};
ghost use Rattle.rpp_tree.specs.Views.{statement_of};

use crate::tree::Stmt;

/// The place of a statement in its source.
pub fn place_of(s: &Stmt) -> u32
    ensures { result ≡ statement_place (statement_of s.now) }
{
    match s {
        Stmt::Update { at, .. }
        | Stmt::Swap { at, .. }
        | Stmt::If { at, .. }
        | Stmt::From { at, .. }
        | Stmt::Construct { at, .. }
        | Stmt::Local { at, .. }
        | Stmt::New { at, .. }
        | Stmt::Delete { at, .. }
        | Stmt::Copy { at, .. }
        | Stmt::Uncopy { at, .. }
        | Stmt::Call { at, .. }
        | Stmt::Skip { at } => *at,
    }
}
