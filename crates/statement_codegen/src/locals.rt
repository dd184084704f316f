// Blocks with a local variable, and those of `construct`.
ghost use Rattle.std.specs.Prelude.{◌≡◌, ◌≤◌, ◌+◌, ◌*◌, [], ◌++◌, length, IfOk};
ghost use Rattle.branch_codegen.specs.paired_code.Layout.{mirror_cells};
ghost use Rattle.refine_objects.specs.rpp_tree.declared.tree.VarType.TheVariants.{Class};
ghost use Rattle.refine_objects.specs.rpp_tree.Tree.{Object, Whole};
ghost use Rattle.refine_objects.specs.rpp_tree.Views.{expression_of, source_of};
ghost use Rattle.branch_codegen.specs.code_scope.Visible.{spot_of, free_words_of, known_in};
ghost use Rattle.branch_codegen.specs.register_expressions.Code.{words as words_of};
ghost use Rattle.branch_codegen.specs.register_expressions.Steps.{token_count};
ghost use Rattle.refine_form.specs.Held.{HoldsCode};
ghost use Rattle.refine_objects.specs.object_codegen.Creations.{NewLaw, creation_size};
ghost use Rattle.statement_codegen.specs.Laws.{LocalLaw, ConstructLaw};

use branch_codegen::{Scope, value_code};
use refine_form::memory::EXPRESSION_WORDS;
use refine_form::registers::VALUE;
use refine_form::{NoMemory, Piece, mirror, seq};
use refine_objects::tree::{Ident, Place, Var, VarType};
use refine_objects::{Expr, class_code, local_block};
use std::alloc::Global;

/// The code of `local var = value body delocal var = last`, over the piece of its block, which is
/// made in the scope with the variable. The variable has the first free word of the frame; where it
/// ends with another value than the last, it stops with fault 3. The only error is that memory ran out.
pub fn local_code(
    alloc: Global,
    _var: &Var,
    value: &Expr,
    body: Piece,
    last: &Expr,
    scope: &Scope,
) -> Result<Piece, NoMemory>
    requires value_room { words_of (expression_of value.now) ≤ EXPRESSION_WORDS }
    requires last_room { words_of (expression_of last.now) ≤ EXPRESSION_WORDS }
    ensures law { IfOk result (λ p.
        LocalLaw (known_in scope.now) _var.now (expression_of value.now) (expression_of last.now)
        body.cells p.cells) }
    ensures held { IfOk result (λ p. HoldsCode body p) }
    ensures size { IfOk result (λ p.
        length p.cells ≤ 58 * (token_count (expression_of value.now) + token_count (expression_of last.now)) +
        length body.cells + 12) }
{
    let word = scope.free();
    let begins = value_code(alloc, value, scope, VALUE)?;
    let ends = value_code(alloc, last, scope, VALUE)?;
    local_block(alloc, word, begins, body, ends)
}

// A body after a piece, and before the mirror of that piece.
#[tactic(auto, using(refine_form::proofs::Holding::around_clause))]
fn between_piece(alloc: Global, making: Piece, body: Piece) -> Result<Piece, NoMemory>
    requires none { making.marks ≡ [] }
    ensures cells { IfOk result (λ p. p.cells
        ≡ making.cells ++ (body.cells ++ mirror_cells making.cells)) }
    ensures held { IfOk result (λ p. HoldsCode body p) }
{
    let ending = mirror(alloc, &making)?;
    seq(making, seq(body, ending)?)
}

/// The variable of a `construct`.
pub fn object_var(alloc: Global, class: &Ident, name: &Ident) -> Result<Var, NoMemory>
    ensures { IfOk result (λ var. var ≡ record { kind = Class class.now; name = name.now }) }
{
    Ok(Var {
        kind: VarType::Class(class.copy(alloc)?),
        name: name.copy(alloc)?,
    })
}

/// The code of the `new` that begins a `construct`, in the scope with its variable. The only error
/// is that memory ran out.
pub fn making_piece(
    alloc: Global,
    class: &Ident,
    name: &Ident,
    scope: &Scope,
) -> Result<Piece, NoMemory>
    ensures law { IfOk result (λ p.
        NewLaw (source_of scope.now.program) (spot_of (known_in scope.now)) (free_words_of (known_in scope.now))
        (Object class.now) (Whole name.now) p.cells) }
    ensures marks { IfOk result (λ p. p.marks ≡ []) }
    ensures size { IfOk result (λ p.
        length p.cells ≤ creation_size (Object class.now) (Whole name.now)) }
{
    let place = Place {
        name: name.copy(alloc)?,
        index: None,
    };
    class_code(alloc, class, &place, scope)
}

/// The code of `construct class name body destruct name`, over the code of `new`, which is made in
/// the scope with the variable, as the fragment of the block is. It makes the object, and deletes
/// it after the block. The variable has the first free word of the frame; where it does not
/// end with nil, it stops with fault 3. The only error is that memory ran
/// out.
pub fn construct_code(
    alloc: Global,
    at: u32,
    _var: &Var,
    making: Piece,
    body: Piece,
    scope: &Scope,
) -> Result<Piece, NoMemory>
    requires none { making.marks ≡ [] }
    ensures law { IfOk result (λ p. ConstructLaw scope.now at _var.now making.cells body.cells p.cells) }
    ensures held { IfOk result (λ p. HoldsCode body p) }
    ensures size { IfOk result (λ p. length p.cells ≤ 2 * length making.cells + length body.cells + 128) }
{
    let nothing = Expr::Nil { at };
    let inside = between_piece(alloc, making, body)?;
    local_code(alloc, _var, &nothing, inside, &nothing, scope)
}
