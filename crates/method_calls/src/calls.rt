// The cells of calls, of methods and of main, one fragment after the other.
ghost use Rattle.std.specs.Prelude.{◌≡◌, ◌<◌, ◌≤◌, ◌^◌, ◌+◌, ◌*◌, ◌++◌, List, [], ◌∷◌, length, IsTrue, IfOk};
ghost use Rattle.std.specs.List.{All};
ghost use Rattle.refine_form.specs.rpp_words.Words.{negated};
ghost use Rattle.refine_form.specs.pisa_isa.Table.{IsCell};
ghost use Rattle.refine_form.specs.paired_code.Machine.{is_single};
ghost use Rattle.refine_form.specs.paired_code.Code.{unmarked};
ghost use Rattle.refine_form.specs.paired_code.Layout.{check_equal_cells, enter_at_cells};
ghost use Rattle.refine_form.specs.paired_code.Rows.{line};
ghost use Rattle.refine_form.specs.Cells.{around};
ghost use Rattle.refine_form.specs.Held.{HoldsCode};
ghost use Rattle.refine_form.specs.code_conventions.Cells.{addi, exch};
ghost use Rattle.refine_form.specs.code_conventions.declared.faults.TheConstants.{TOUCHED};
ghost use Rattle.refine_form.specs.code_conventions.declared.registers.TheConstants.{MOVED, NOUGHT};
ghost use Rattle.method_calls.specs.CallCode.{base_of, offset_of, above_cells, take_code, move_code, end_row, depth_code, last_cells, save_row, method_code, main_row, main_cells, moves_of, own_cells};
ghost use Rattle.method_calls.specs.Facts.{IsNear};
ghost use Rattle.method_calls.specs.Laws.{MethodCode, MainCode, OwnCallCode};

use refine_form::cells::{add, addi, exch};
use refine_form::faults::{TOO_DEEP, TOUCHED};
use refine_form::memory::{FIRST_VARIABLE, HEADER_WORDS, MAIN_OBJECT, PLACE_WORD, TABLE_HEADER};
use refine_form::registers::{ADDRESS, CONTENT, FRAME, LINK, MOVED, NOUGHT, OBJECT, VALUE};
use refine_form::{
    Cell, END_CELL, FRAME_WORDS, NoMemory, Piece, STACK_CELL, Spot, around, check_differ,
    check_equal, empty, enter, enter_at, mirror, plain, seq,
};
use std::alloc::Global;

// A fragment and one instruction more.
pub(crate) fn then(alloc: Global, piece: Piece, cell: Cell) -> Result<Piece, NoMemory>
    requires single { IsTrue (is_single cell) }
    requires cell { IsCell cell }
    requires none { piece.marks ≡ [] }
    ensures { IfOk result (λ p. p ≡ unmarked (piece.cells ++ line (cell ∷ []))) }
{
    seq(piece, plain(alloc, cell)?)
}

// A fragment between another and its inverse, if neither has marks.
pub(crate) fn bare_around(alloc: Global, outer: Piece, inner: Piece) -> Result<Piece, NoMemory>
    requires outer_none { outer.marks ≡ [] }
    requires inner_none { inner.marks ≡ [] }
    ensures code { IfOk result (λ p. p ≡ unmarked (around outer.cells inner.cells)) }
{
    let back = mirror(alloc, &outer)?;
    seq(outer, seq(inner, back)?)
}

// The base goes to a storage slot.
pub(crate) fn reach(spot: Spot) -> Cell
    requires near { IsNear spot }
    ensures row { result ≡ addi (base_of spot) (offset_of spot) }
    ensures cell { IsCell result }
{
    match spot {
        Spot::Field(number) => addi(OBJECT, HEADER_WORDS + number),
        Spot::Frame(word) => addi(FRAME, word),
    }
}

// MOVED changes places with the word to which the base has gone.
fn moved_at(spot: Spot) -> Cell
    ensures row { result ≡ exch MOVED (base_of spot) }
    ensures cell { IsCell result }
{
    match spot {
        Spot::Field(_) => exch(MOVED, OBJECT),
        Spot::Frame(_) => exch(MOVED, FRAME),
    }
}

// The word of a storage slot leaves its cell, which is checked when the word comes back.
fn taken_piece(alloc: Global, spot: Spot) -> Result<Piece, NoMemory>
    ensures code { IfOk result (λ p. p
        ≡ unmarked (check_equal_cells MOVED NOUGHT TOUCHED ++ line (exch MOVED (base_of spot) ∷ []))) }
{
    seq(
        check_equal(alloc, MOVED, NOUGHT, TOUCHED)?,
        plain(alloc, moved_at(spot))?,
    )
}

pub(crate) fn take_piece(alloc: Global, spot: Spot) -> Result<Piece, NoMemory>
    requires near { IsNear spot }
    ensures code { IfOk result (λ p. p ≡ unmarked (take_code spot)) }
{
    bare_around(alloc, plain(alloc, reach(spot))?, taken_piece(alloc, spot)?)
}

// A cell that runs while FRAME is the address of a word of the frame above.
pub(crate) fn above_piece(alloc: Global, word: u32, inner: Cell) -> Result<Piece, NoMemory>
    requires word { word < 2 ^ 16 }
    requires single { IsTrue (is_single inner) }
    requires cell { IsCell inner }
    ensures code { IfOk result (λ p. p ≡ unmarked (around (line (above_cells word)) (line (inner ∷ [])))) }
{
    bare_around(
        alloc,
        plain(alloc, addi(FRAME, FRAME_WORDS + word))?,
        plain(alloc, inner)?,
    )
}

// The value of a variable moves into the word of variable j of the frame above, and back.
#[tactic(auto, unfolding(crate::specs::CallCode::move_code))]
fn move_piece(alloc: Global, spot: Spot, j: u32) -> Result<Piece, NoMemory>
    requires near { IsNear spot }
    requires few { j < 32 }
    ensures code { IfOk result (λ p. p ≡ unmarked (move_code spot j)) }
{
    seq(
        take_piece(alloc, spot)?,
        above_piece(alloc, FIRST_VARIABLE + j, exch(MOVED, FRAME))?,
    )
}

// CONTENT gets the end of the stack, a frame less: where the last frame begins.
fn end_piece(alloc: Global) -> Result<Piece, NoMemory>
    ensures code { IfOk result (λ p. p ≡ unmarked (line end_row)) }
{
    let end = then(
        alloc,
        plain(alloc, addi(ADDRESS, END_CELL))?,
        exch(CONTENT, ADDRESS),
    )?;
    then(alloc, end, addi(CONTENT, negated(FRAME_WORDS)))
}

pub(crate) fn depth_piece(alloc: Global) -> Result<Piece, NoMemory>
    ensures code { IfOk result (λ p. p ≡ unmarked (depth_code)) }
{
    bare_around(
        alloc,
        end_piece(alloc)?,
        check_differ(alloc, FRAME, CONTENT, TOO_DEEP)?,
    )
}

// The last cells before a call: FRAME goes up, and VALUE gets the method's place.
#[tactic(auto, unfolding(crate::specs::CallCode::last_cells))]
pub(crate) fn fetch_piece(alloc: Global, slot: u32) -> Result<Piece, NoMemory>
    requires { slot < 2 ^ 20 }
    ensures code { IfOk result (λ p. p ≡ unmarked (last_cells slot)) }
{
    let entry = TABLE_HEADER + slot;
    let piece = plain(alloc, addi(FRAME, FRAME_WORDS))?;
    let piece = then(alloc, piece, exch(MOVED, OBJECT))?;
    let piece = then(alloc, piece, addi(MOVED, entry))?;
    let piece = then(alloc, piece, exch(CONTENT, MOVED))?;
    let piece = then(alloc, piece, add(VALUE, CONTENT))?;
    let piece = then(alloc, piece, exch(CONTENT, MOVED))?;
    let piece = then(alloc, piece, addi(MOVED, negated(entry)))?;
    then(alloc, piece, exch(MOVED, OBJECT))
}

fn negated(word: u32) -> u32
    requires { 0 < word }
    ensures { result ≡ negated word }
{
    u32::MAX - word + 1
}

fn save_piece(alloc: Global) -> Result<Piece, NoMemory>
    ensures code { IfOk result (λ p. p ≡ unmarked (line save_row)) }
{
    let save = then(
        alloc,
        plain(alloc, exch(LINK, FRAME))?,
        addi(FRAME, PLACE_WORD),
    )?;
    let save = then(alloc, save, exch(VALUE, FRAME))?;
    then(alloc, save, addi(FRAME, negated(PLACE_WORD)))
}

/// The code of a method, over the fragment of its block: the link and the place are saved around
/// it.
#[tactic(auto, using(crate::proofs::Clauses::method_clause, crate::proofs::Clauses::method_length))]
pub fn method_code(alloc: Global, body: Piece) -> Result<Piece, NoMemory>
    ensures law { IfOk result (λ p. MethodCode body.cells p.cells) }
    ensures held { IfOk result (λ p. HoldsCode body p) }
    ensures size { IfOk result (λ p. length p.cells ≡ length body.cells + 8) }
{
    saved_piece(alloc, body)
}

fn saved_piece(alloc: Global, body: Piece) -> Result<Piece, NoMemory>
    ensures cells { IfOk result (λ p. p.cells ≡ method_code body.cells) }
    ensures held { IfOk result (λ p. HoldsCode body p) }
{
    around(alloc, save_piece(alloc)?, body)
}

fn main_front(alloc: Global) -> Result<Piece, NoMemory>
    ensures code { IfOk result (λ p. p ≡ unmarked (line main_row)) }
{
    let open = then(
        alloc,
        plain(alloc, addi(OBJECT, MAIN_OBJECT))?,
        addi(ADDRESS, STACK_CELL),
    )?;
    let open = then(alloc, open, exch(CONTENT, ADDRESS))?;
    let open = then(alloc, open, add(FRAME, CONTENT))?;
    let open = then(alloc, open, exch(CONTENT, ADDRESS))?;
    then(alloc, open, addi(ADDRESS, negated(STACK_CELL)))
}

#[tactic(auto, unfolding(crate::specs::CallCode::main_cells))]
fn main_piece(alloc: Global, routine: u32) -> Result<Piece, NoMemory>
    ensures code { IfOk result (λ p. p ≡ unmarked (main_cells routine)) }
{
    bare_around(alloc, main_front(alloc)?, enter(alloc, routine, false)?)
}

/// The main fragment: from the loaded memory it runs the routine of `main`, by its number.
#[tactic(auto, using(crate::proofs::Clauses::main_clause, crate::proofs::Clauses::main_length))]
pub fn main_code(alloc: Global, routine: u32) -> Result<Piece, NoMemory>
    ensures law { IfOk result (λ p. MainCode routine p.cells) }
    ensures none { IfOk result (λ p. p.marks ≡ []) }
    ensures size { IfOk result (λ p. length p.cells ≡ 13) }
{
    main_piece(alloc, routine)
}

// What moves the arguments, the last one first.
pub(crate) fn moves_piece(alloc: Global, spots: &[Spot]) -> Result<Piece, NoMemory>
    requires near { All IsNear spots.now }
    requires few { length spots.now ≤ 32 }
    ensures code { IfOk result (λ p. p ≡ unmarked (moves_of spots.now)) }
{
    match spots.split_first() {
        None => Ok(empty(alloc)),
        Some((first, rest)) => {
            let before = moves_piece(alloc, rest)?;
            seq(before, move_piece(alloc, *first, rest.len() as u32)?)
        }
    }
}

fn arguments_piece(alloc: Global, slot: u32, args: &[Spot]) -> Result<Piece, NoMemory>
    requires near { All IsNear args.now }
    requires few { length args.now ≤ 32 }
    requires slot { slot < 2 ^ 20 }
    ensures code { IfOk result (λ p. p ≡ unmarked (moves_of args.now ++ last_cells slot)) }
{
    seq(moves_piece(alloc, args)?, fetch_piece(alloc, slot)?)
}

fn front_piece(alloc: Global, slot: u32, args: &[Spot]) -> Result<Piece, NoMemory>
    requires near { All IsNear args.now }
    requires few { length args.now ≤ 32 }
    requires slot { slot < 2 ^ 20 }
    ensures code { IfOk result (λ p. p
        ≡ unmarked (depth_code ++ (moves_of args.now ++ last_cells slot))) }
{
    seq(depth_piece(alloc)?, arguments_piece(alloc, slot, args)?)
}

#[tactic(auto, unfolding(crate::specs::CallCode::own_cells))]
fn own_piece(alloc: Global, back: bool, slot: u32, args: &[Spot]) -> Result<Piece, NoMemory>
    requires near { All IsNear args.now }
    requires few { length args.now ≤ 32 }
    requires slot { slot < 2 ^ 20 }
    ensures code { IfOk result (λ p. p ≡ unmarked (own_cells back slot args.now)) }
{
    bare_around(
        alloc,
        front_piece(alloc, slot, args)?,
        enter_at(alloc, VALUE, back)?,
    )
}

/// A call or uncall on the current object of the method in a slot, with arguments in these storage
/// slots.
#[tactic(auto, using(crate::proofs::Clauses::own_clause, crate::proofs::Clauses::own_length))]
pub fn own_call(alloc: Global, back: bool, slot: u32, args: &[Spot]) -> Result<Piece, NoMemory>
    requires near { All IsNear args.now }
    requires few { length args.now ≤ 32 }
    requires slot { slot < 2 ^ 20 }
    ensures law { IfOk result (λ p. OwnCallCode back slot args.now p.cells) }
    ensures none { IfOk result (λ p. p.marks ≡ []) }
    ensures size { IfOk result (λ p. length p.cells ≡ 18 * length args.now + 41) }
{
    own_piece(alloc, back, slot, args)
}
