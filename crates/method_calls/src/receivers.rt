// The cells of calls on the object of a variable, one fragment after the other.
ghost use Rattle.std.specs.Prelude.{◌≡◌, ◌<◌, ◌≤◌, ◌^◌, ◌+◌, ◌*◌, ◌++◌, List, [], ◌∷◌, length, IfOk};
ghost use Rattle.std.specs.List.{All};
ghost use Rattle.refine_form.specs.paired_code.Code.{unmarked};
ghost use Rattle.refine_form.specs.paired_code.Layout.{enter_at_cells};
ghost use Rattle.refine_form.specs.paired_code.Rows.{line};
ghost use Rattle.refine_form.specs.Cells.{around};
ghost use Rattle.refine_form.specs.pisa_isa.Table.{IsCell};
ghost use Rattle.refine_form.specs.code_conventions.Cells.{exch};
ghost use Rattle.refine_form.specs.code_conventions.declared.registers.TheConstants.{CONTENT, VALUE};
ghost use Rattle.method_calls.specs.CallCode.{base_of, peek_row, nil_code, onto_code, last_cells, depth_code, moves_of, behind_of, checked_of, front_on_of};
ghost use Rattle.method_calls.specs.Facts.{IsNear};
ghost use Rattle.method_calls.specs.Laws.{CallOnCode};

use crate::calls::{
    above_piece, bare_around, depth_piece, fetch_piece, moves_piece, reach, take_piece, then,
};
use refine_form::cells::{add, exch, sub};
use refine_form::faults::NIL;
use refine_form::memory::OBJECT_WORD;
use refine_form::registers::{CONTENT, FRAME, MOVED, OBJECT, VALUE};
use refine_form::{Cell, NoMemory, Piece, Spot, check_positive, enter_at, plain, seq};
use std::alloc::Global;

// CONTENT changes places with the word to which the base has gone.
fn content_at(spot: Spot) -> Cell
    ensures row { result ≡ exch CONTENT (base_of spot) }
    ensures cell { IsCell result }
{
    match spot {
        Spot::Field(_) => exch(CONTENT, OBJECT),
        Spot::Frame(_) => exch(CONTENT, FRAME),
    }
}

// CONTENT gets the word of a storage slot.
fn peek_piece(alloc: Global, spot: Spot) -> Result<Piece, NoMemory>
    requires near { IsNear spot }
    ensures code { IfOk result (λ p. p ≡ unmarked (line (peek_row spot))) }
{
    then(alloc, plain(alloc, reach(spot))?, content_at(spot))
}

fn nil_piece(alloc: Global, spot: Spot) -> Result<Piece, NoMemory>
    requires near { IsNear spot }
    ensures code { IfOk result (λ p. p ≡ unmarked (nil_code spot)) }
{
    bare_around(
        alloc,
        peek_piece(alloc, spot)?,
        check_positive(alloc, CONTENT, NIL)?,
    )
}

fn onto_piece(alloc: Global) -> Result<Piece, NoMemory>
    ensures code { IfOk result (λ p. p ≡ unmarked (onto_code)) }
{
    let swap = then(alloc, plain(alloc, add(OBJECT, MOVED))?, sub(MOVED, OBJECT))?;
    seq(above_piece(alloc, OBJECT_WORD, exch(OBJECT, FRAME))?, swap)
}

#[tactic(auto, unfolding(crate::specs::CallCode::behind_of))]
fn behind_moves(alloc: Global, spot: Spot, slot: u32) -> Result<Piece, NoMemory>
    requires near { IsNear spot }
    requires slot { slot < 2 ^ 20 }
    ensures code { IfOk result (λ p. p ≡ unmarked (behind_of spot slot)) }
{
    let end = seq(onto_piece(alloc)?, fetch_piece(alloc, slot)?)?;
    seq(take_piece(alloc, spot)?, end)
}

fn arguments_piece(alloc: Global, spot: Spot, slot: u32, args: &[Spot]) -> Result<Piece, NoMemory>
    requires near { IsNear spot }
    requires all { All IsNear args.now }
    requires few { length args.now ≤ 32 }
    requires slot { slot < 2 ^ 20 }
    ensures code { IfOk result (λ p. p ≡ unmarked (moves_of args.now ++ behind_of spot slot)) }
{
    seq(moves_piece(alloc, args)?, behind_moves(alloc, spot, slot)?)
}

#[tactic(auto, unfolding(crate::specs::CallCode::checked_of))]
fn checked_piece(alloc: Global, spot: Spot, slot: u32, args: &[Spot]) -> Result<Piece, NoMemory>
    requires near { IsNear spot }
    requires all { All IsNear args.now }
    requires few { length args.now ≤ 32 }
    requires slot { slot < 2 ^ 20 }
    ensures code { IfOk result (λ p. p ≡ unmarked (checked_of spot slot args.now)) }
{
    seq(
        depth_piece(alloc)?,
        arguments_piece(alloc, spot, slot, args)?,
    )
}

#[tactic(auto, unfolding(crate::specs::CallCode::front_on_of))]
fn front_piece(alloc: Global, spot: Spot, slot: u32, args: &[Spot]) -> Result<Piece, NoMemory>
    requires near { IsNear spot }
    requires all { All IsNear args.now }
    requires few { length args.now ≤ 32 }
    requires slot { slot < 2 ^ 20 }
    ensures code { IfOk result (λ p. p ≡ unmarked (front_on_of spot slot args.now)) }
{
    seq(
        nil_piece(alloc, spot)?,
        checked_piece(alloc, spot, slot, args)?,
    )
}

fn on_piece(
    alloc: Global,
    back: bool,
    spot: Spot,
    slot: u32,
    args: &[Spot],
) -> Result<Piece, NoMemory>
    requires near { IsNear spot }
    requires all { All IsNear args.now }
    requires few { length args.now ≤ 32 }
    requires slot { slot < 2 ^ 20 }
    ensures code { IfOk result (λ p. p
        ≡ unmarked (around (front_on_of spot slot args.now) (enter_at_cells VALUE back))) }
{
    bare_around(
        alloc,
        front_piece(alloc, spot, slot, args)?,
        enter_at(alloc, VALUE, back)?,
    )
}

/// A call or uncall on the object of the variable in a storage slot, of the method in a slot, with
/// arguments in these storage slots.
#[tactic(auto, using(crate::proofs::Clauses::on_clause, crate::proofs::Clauses::on_length))]
pub fn call_on(
    alloc: Global,
    back: bool,
    spot: Spot,
    slot: u32,
    args: &[Spot],
) -> Result<Piece, NoMemory>
    requires near { IsNear spot }
    requires all { All IsNear args.now }
    requires few { length args.now ≤ 32 }
    requires slot { slot < 2 ^ 20 }
    ensures law { IfOk result (λ p. CallOnCode back spot slot args.now p.cells) }
    ensures none { IfOk result (λ p. p.marks ≡ []) }
    ensures size { IfOk result (λ p. length p.cells ≡ 18 * length args.now + 77) }
{
    on_piece(alloc, back, spot, slot, args)
}
