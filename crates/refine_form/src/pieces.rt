// A fragment between another and its inverse.
ghost use Rattle.std.specs.Prelude.{◌≡◌, List, [], IfOk};
ghost use Rattle.refine_form.specs.Cells.{around as around_cells};
ghost use Rattle.refine_form.specs.Held.{HoldsCode};

use paired_code::{NoMemory, Piece, mirror, seq};
use std::alloc::Global;

/// The inner fragment between the outer one, which has no marks, and the outer one run the other
/// way.
#[tactic(auto, using(crate::proofs::Holding::around_clause))]
pub fn around(alloc: Global, outer: Piece, inner: Piece) -> Result<Piece, NoMemory>
    requires none { outer.marks ≡ [] }
    ensures cells { IfOk result (λ p. p.cells ≡ around_cells outer.cells inner.cells) }
    ensures held { IfOk result (λ p. HoldsCode inner p) }
{
    let back = mirror(alloc, &outer)?;
    seq(outer, seq(inner, back)?)
}
