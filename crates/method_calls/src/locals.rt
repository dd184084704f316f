// The cells of a block with a local variable, one fragment after the other.
ghost use Rattle.std.specs.Prelude.{◌≡◌, ◌<◌, ◌^◌, ◌+◌, ◌++◌, [], length, IfOk};
ghost use Rattle.refine_form.specs.paired_code.Code.{unmarked};
ghost use Rattle.refine_form.specs.paired_code.Layout.{mirror_cells};
ghost use Rattle.refine_form.specs.Held.{HoldsCode};
ghost use Rattle.method_calls.specs.CallCode.{store_code, local_open, local_code};
ghost use Rattle.method_calls.specs.Laws.{LocalCode};

use crate::calls::{bare_around, reach};
use refine_form::cells::exch;
use refine_form::faults::DELOCAL;
use refine_form::registers::{FRAME, NOUGHT, VALUE};
use refine_form::{NoMemory, Piece, Spot, check_equal, mirror, plain, seq};
use std::alloc::Global;

// VALUE changes places with a word of the frame.
fn store_piece(alloc: Global, word: u32) -> Result<Piece, NoMemory>
    requires word { word < 2 ^ 16 }
    ensures code { IfOk result (λ p. p ≡ unmarked (store_code word)) }
{
    bare_around(
        alloc,
        plain(alloc, reach(Spot::Frame(word)))?,
        plain(alloc, exch(VALUE, FRAME))?,
    )
}

fn open_piece(alloc: Global, word: u32, value: Piece) -> Result<Piece, NoMemory>
    requires word { word < 2 ^ 16 }
    requires none { value.marks ≡ [] }
    ensures code { IfOk result (λ p. p ≡ unmarked (local_open word value.cells)) }
{
    seq(
        check_equal(alloc, VALUE, NOUGHT, DELOCAL)?,
        seq(value, store_piece(alloc, word)?)?,
    )
}

fn close_piece(alloc: Global, word: u32, last: Piece) -> Result<Piece, NoMemory>
    requires word { word < 2 ^ 16 }
    requires none { last.marks ≡ [] }
    ensures code { IfOk result (λ p. p ≡ unmarked (mirror_cells (local_open word last.cells))) }
{
    let close = open_piece(alloc, word, last)?;
    mirror(alloc, &close)
}

#[tactic(auto, using(refine_form::proofs::Holding::holds_left))]
fn ended_piece(alloc: Global, word: u32, body: Piece, last: Piece) -> Result<Piece, NoMemory>
    requires word { word < 2 ^ 16 }
    requires none { last.marks ≡ [] }
    ensures cells { IfOk result (λ p. p.cells ≡ body.cells ++ mirror_cells (local_open word last.cells)) }
    ensures held { IfOk result (λ p. HoldsCode body p) }
{
    seq(body, close_piece(alloc, word, last)?)
}

#[tactic(auto, using(refine_form::proofs::Holding::behind_clause))]
fn local_piece(
    alloc: Global,
    word: u32,
    value: Piece,
    body: Piece,
    last: Piece,
) -> Result<Piece, NoMemory>
    requires word { word < 2 ^ 16 }
    requires value_none { value.marks ≡ [] }
    requires last_none { last.marks ≡ [] }
    ensures cells { IfOk result (λ p. p.cells ≡ local_code word value.cells body.cells last.cells) }
    ensures held { IfOk result (λ p. HoldsCode body p) }
{
    seq(
        open_piece(alloc, word, value)?,
        ended_piece(alloc, word, body, last)?,
    )
}

/// The code of a block with a local variable in this word of the frame, over the fragments of its
/// value, its block and the closing value.
#[tactic(auto, using(crate::proofs::Clauses::local_clause, crate::proofs::Clauses::local_length))]
pub fn local_block(
    alloc: Global,
    word: u32,
    value: Piece,
    body: Piece,
    last: Piece,
) -> Result<Piece, NoMemory>
    requires word { word < 2 ^ 16 }
    requires value_none { value.marks ≡ [] }
    requires last_none { last.marks ≡ [] }
    ensures law { IfOk result (λ p. LocalCode word value.cells body.cells last.cells p.cells) }
    ensures held { IfOk result (λ p. HoldsCode body p) }
    ensures size { IfOk result (λ p. length p.cells
        ≡ length value.cells + length body.cells + length last.cells + 12) }
{
    local_piece(alloc, word, value, body, last)
}
