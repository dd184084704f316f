// The code of blocks, and of each of their statements.
ghost use Rattle.std.specs.Prelude.{◌≡◌, ◌*◌, ◌≤◌, Some, length, IfOk, OnOk};
ghost use Rattle.refine_objects.specs.rpp_tree.Parts.{block_tokens};
ghost use Rattle.refine_objects.specs.rpp_tree.Places.{statement_place};
ghost use Rattle.refine_objects.specs.rpp_tree.Tree.{Call};
ghost use Rattle.refine_objects.specs.rpp_tree.Views.{lvalue_of, optional_lvalue_of, statement_of, block_of};
ghost use Rattle.branch_codegen.specs.pisa_isa.declared.notes.TheConstants.{LAST_PLACE};
ghost use Rattle.branch_codegen.specs.paired_code.Code.{seq_code, marked_code};
ghost use Rattle.statement_codegen.specs.Codes.{IsBlockCode};
ghost use Rattle.statement_codegen.specs.Ranges.{IsCovered};
ghost use Rattle.statement_codegen.specs.Pieces.{StatementStands, StandsIn, HaveMarks, cells_a_token, InnerPiece, BlockPiece};

use crate::calls::{call_code, skip_code};
use crate::elements::element_call_code;
use crate::locals::{construct_code, local_code, making_piece, object_var};
use branch_codegen::{Scope, from_code, if_code, swap_code, update_code};
use refine_form::{NoMemory, Piece, empty, marked, mirror, seq};
use refine_objects::tree::{Block, Ident, Place};
use refine_objects::{Stmt, copy_code, new_code, place_of};
use std::alloc::Global;

/// The code of a block in this scope: the code of its statements, one after the other, with a mark
/// over the cells of each. If it is made, the scope is as before; after an error nothing is said
/// about it. It has at most 200 cells for each token of the block. The only error is that memory
/// ran out.
pub fn block_code(alloc: Global, body: &Block, scope: &mut Scope) -> Result<Piece, NoMemory>
    requires stands { StandsIn scope.old (block_of body.now) }
    ensures law { IfOk result (λ p. IsBlockCode scope.old (block_of body.now) p.cells) }
    ensures marks { IfOk result (λ p. HaveMarks scope.old (block_of body.now) p) }
    ensures covered { IfOk result (λ p. IsCovered p) }
    ensures size { IfOk result (λ p. length p.cells ≤ cells_a_token * block_tokens (block_of body.now)) }
    ensures few { IfOk result (λ p. length p.marks ≤ block_tokens (block_of body.now)) }
    ensures scope { OnOk result (scope.new ≡ scope.old) }
{
    block_piece(alloc, body, scope)
}

// A fragment, and then the fragment of a statement with its mark.
fn then_marked(before: Piece, s: &Stmt, inner: Piece) -> Result<Piece, NoMemory>
    requires place { statement_place (statement_of s.now) ≤ LAST_PLACE }
    ensures code { IfOk result (λ p. p ≡
        seq_code before (marked_code (statement_place (statement_of s.now)) inner)) }
{
    seq(before, marked(place_of(s), inner)?)
}

// A call or uncall on the object of a variable, or on an element.
fn call_piece_on(
    alloc: Global,
    at: u32,
    back: bool,
    receiver: &Place,
    method: &Ident,
    args: &[Ident],
    scope: &mut Scope,
) -> Result<Piece, NoMemory>
    requires stands { StatementStands scope.old
        (Call at back (Some (lvalue_of receiver.now)) method.now args.now) }
    requires few { length args.now ≤ 32 }
    ensures piece { IfOk result (λ p. InnerPiece scope.old
        (Call at back (Some (lvalue_of receiver.now)) method.now args.now) p) }
    ensures scope { OnOk result (scope.new ≡ scope.old) }
{
    match &receiver.index {
        None => call_code(alloc, back, Some(&receiver.name), method, args, scope),
        Some(_index) => element_call_code(alloc, at, back, receiver, method, args, scope),
    }
}

// A call or uncall.
fn call_piece(
    alloc: Global,
    at: u32,
    back: bool,
    receiver: &Option<Place>,
    method: &Ident,
    args: &[Ident],
    scope: &mut Scope,
) -> Result<Piece, NoMemory>
    requires stands { StatementStands scope.old
        (Call at back (optional_lvalue_of receiver.now) method.now args.now) }
    requires few { length args.now ≤ 32 }
    ensures piece { IfOk result (λ p. InnerPiece scope.old
        (Call at back (optional_lvalue_of receiver.now) method.now args.now) p) }
    ensures scope { OnOk result (scope.new ≡ scope.old) }
{
    match receiver {
        None => call_code(alloc, back, None, method, args, scope),
        Some(place) => call_piece_on(alloc, at, back, place, method, args, scope),
    }
}

#[cycle(blocks)]
fn block_piece(alloc: Global, body: &Block, scope: &mut Scope) -> Result<Piece, NoMemory>
    requires stands { StandsIn scope.old (block_of body.now) }
    ensures piece { IfOk result (λ p. BlockPiece scope.old (block_of body.now) p) }
    ensures scope { OnOk result (scope.new ≡ scope.old) }
{
    let mut piece = empty(alloc);
    for stmt in &body.list {
        let inner = inner_piece(alloc, stmt, scope)?;
        piece = then_marked(piece, stmt, inner)?;
    }
    Ok(piece)
}

// A statement with the marks of those that it holds. The code of a delete is that of the new,
// inverted, and that of an uncopy that of the copy.
#[cycle(blocks)]
fn inner_piece(alloc: Global, s: &Stmt, scope: &mut Scope) -> Result<Piece, NoMemory>
    requires stands { StatementStands scope.old (statement_of s.now) }
    ensures piece { IfOk result (λ p. InnerPiece scope.old (statement_of s.now) p) }
    ensures scope { OnOk result (scope.new ≡ scope.old) }
{
    match s {
        Stmt::If {
            test,
            yes,
            no,
            after,
            ..
        } => {
            let yes = block_piece(alloc, yes, scope)?;
            let no = block_piece(alloc, no, scope)?;
            if_code(alloc, test, yes, no, after, scope)
        }
        Stmt::From {
            entry,
            first,
            again,
            until,
            ..
        } => {
            let first = block_piece(alloc, first, scope)?;
            let again = block_piece(alloc, again, scope)?;
            from_code(alloc, entry, first, again, until, scope)
        }
        Stmt::Local {
            var,
            value,
            body,
            end_value,
            ..
        } => {
            scope.push(alloc, var)?;
            let body = block_piece(alloc, body, scope)?;
            scope.pop();
            local_code(alloc, var, value, body, end_value, scope)
        }
        Stmt::Construct {
            at,
            class,
            name,
            body,
            ..
        } => {
            let var = object_var(alloc, class, name)?;
            scope.push(alloc, &var)?;
            let making = making_piece(alloc, class, name, scope)?;
            let body = block_piece(alloc, body, scope)?;
            scope.pop();
            construct_code(alloc, *at, &var, making, body, scope)
        }
        Stmt::Update {
            op,
            place,
            value,
            ..
        } => update_code(alloc, *op, place, value, scope),
        Stmt::Swap { left, right, .. } => swap_code(alloc, left, right, scope),
        Stmt::New { made, place, .. } => new_code(alloc, made, place, scope),
        Stmt::Delete { made, place, .. } => {
            let new = new_code(alloc, made, place, scope)?;
            mirror(alloc, &new)
        }
        Stmt::Copy { source, target, .. } => copy_code(alloc, source, target, scope),
        Stmt::Uncopy { source, target, .. } => {
            let copy = copy_code(alloc, source, target, scope)?;
            mirror(alloc, &copy)
        }
        Stmt::Call {
            at,
            back,
            receiver,
            method,
            args,
        } => {
            let _program = scope.checked().program(); // proof: says what the program is
            call_piece(alloc, *at, *back, receiver, method, args, scope)
        }
        Stmt::Skip { .. } => skip_code(alloc),
    }
}
