// A conditional and a loop, one fragment after the other.
ghost use Rattle.std.specs.Prelude.{◌≡◌, ◌+◌, ◌∷◌, ◌++◌, List, [], length, IfOk};
ghost use Rattle.refine_expressions.specs.paired_code.Code.{unmarked};
ghost use Rattle.refine_expressions.specs.paired_code.Layout.{branch_cells, loop_cells};
ghost use Rattle.refine_expressions.specs.paired_code.Rows.{line};
ghost use Rattle.refine_form.specs.Held.{HoldsCode, HoldsBoth};
ghost use Rattle.branch_codegen.specs.Branches.{flips, part_code, if_code, check, turn_code, from_code};
ghost use Rattle.branch_codegen.specs.Laws.{IfCode, FromCode};

use refine_form::cells::xori;
use refine_form::faults::{FI, LOOP};
use refine_form::registers::{FLAG, NOUGHT};
use refine_form::{NoMemory, Piece, around, branch_if, check_equal, plain, seq, turn_while};
use std::alloc::Global;

/// The code of `if test then yes else no fi after`, over the fragments of its conditions, which
/// have no marks, and of its blocks.
#[tactic(auto, using(crate::proofs::Clauses::if_clause, crate::proofs::Clauses::if_length))]
pub fn conditional(
    alloc: Global,
    test: Piece,
    yes: Piece,
    no: Piece,
    after: Piece,
) -> Result<Piece, NoMemory>
    requires test_none { test.marks ≡ [] }
    requires after_none { after.marks ≡ [] }
    ensures law { IfOk result (λ p. IfCode test.cells yes.cells no.cells after.cells p.cells) }
    ensures held { IfOk result (λ p. HoldsBoth no yes p) }
    ensures size { IfOk result (λ p. length p.cells
        ≡ length test.cells + length yes.cells + length no.cells + length after.cells + 18) }
{
    if_piece(alloc, test, yes, no, after)
}

/// The code of `from entry do first loop again until exit`, over the fragments of its conditions,
/// which have no marks, and of its blocks.
#[tactic(auto, using(crate::proofs::Clauses::from_clause, crate::proofs::Clauses::from_length))]
pub fn repetition(
    alloc: Global,
    entry: Piece,
    first: Piece,
    again: Piece,
    exit: Piece,
) -> Result<Piece, NoMemory>
    requires entry_none { entry.marks ≡ [] }
    requires exit_none { exit.marks ≡ [] }
    ensures law { IfOk result (λ p. FromCode entry.cells first.cells again.cells exit.cells p.cells) }
    ensures held { IfOk result (λ p. HoldsBoth again first p) }
    ensures size { IfOk result (λ p. length p.cells
        ≡ length entry.cells + length first.cells + length again.cells + length exit.cells + 18) }
{
    from_piece(alloc, entry, first, again, exit)
}

// The flag, which is to be 0.
fn check_piece(alloc: Global, code: u32) -> Result<Piece, NoMemory>
    ensures code { IfOk result (λ p. p ≡ unmarked (check code)) }
{
    check_equal(alloc, FLAG, NOUGHT, code)
}

fn flip_piece(alloc: Global) -> Result<Piece, NoMemory>
    ensures code { IfOk result (λ p. p ≡ unmarked (line (flips ∷ []))) }
{
    plain(alloc, xori(FLAG, 1))
}

fn part_piece(alloc: Global, part: Piece) -> Result<Piece, NoMemory>
    ensures cells { IfOk result (λ p. p.cells ≡ part_code part.cells) }
    ensures held { IfOk result (λ p. HoldsCode part p) }
{
    around(alloc, flip_piece(alloc)?, part)
}

#[tactic(auto, using(refine_form::proofs::Holding::branch_clause))]
fn chosen_piece(alloc: Global, yes: Piece, no: Piece) -> Result<Piece, NoMemory>
    ensures cells { IfOk result (λ p. p.cells ≡ branch_cells FLAG (part_code yes.cells) no.cells) }
    ensures held { IfOk result (λ p. HoldsBoth no yes p) }
{
    branch_if(alloc, FLAG, part_piece(alloc, yes)?, no)
}

fn last_piece(alloc: Global, after: Piece) -> Result<Piece, NoMemory>
    requires none { after.marks ≡ [] }
    ensures code { IfOk result (λ p. p ≡ unmarked (after.cells ++ check FI)) }
{
    seq(after, check_piece(alloc, FI)?)
}

#[tactic(auto, using(refine_form::proofs::Holding::both_before))]
fn ended_piece(alloc: Global, yes: Piece, no: Piece, last: Piece) -> Result<Piece, NoMemory>
    requires none { last.marks ≡ [] }
    ensures cells { IfOk result (λ p. p.cells ≡ branch_cells FLAG (part_code yes.cells) no.cells
        ++ last.cells) }
    ensures held { IfOk result (λ p. HoldsBoth no yes p) }
{
    seq(chosen_piece(alloc, yes, no)?, last)
}

#[tactic(auto, using(refine_form::proofs::Holding::both_behind))]
fn tested_piece(
    alloc: Global,
    test: Piece,
    yes: Piece,
    no: Piece,
    last: Piece,
) -> Result<Piece, NoMemory>
    requires test_none { test.marks ≡ [] }
    requires last_none { last.marks ≡ [] }
    ensures cells { IfOk result (λ p. p.cells
        ≡ test.cells ++ (branch_cells FLAG (part_code yes.cells) no.cells ++ last.cells)) }
    ensures held { IfOk result (λ p. HoldsBoth no yes p) }
{
    seq(test, ended_piece(alloc, yes, no, last)?)
}

#[tactic(auto, using(refine_form::proofs::Holding::both_behind))]
fn if_piece(
    alloc: Global,
    test: Piece,
    yes: Piece,
    no: Piece,
    after: Piece,
) -> Result<Piece, NoMemory>
    requires test_none { test.marks ≡ [] }
    requires after_none { after.marks ≡ [] }
    ensures cells { IfOk result (λ p. p.cells ≡ if_code test.cells yes.cells no.cells after.cells) }
    ensures held { IfOk result (λ p. HoldsBoth no yes p) }
{
    let last = last_piece(alloc, after)?;
    let tested = tested_piece(alloc, test, yes, no, last)?;
    seq(check_piece(alloc, FI)?, tested)
}

fn exit_piece(alloc: Global, exit: Piece) -> Result<Piece, NoMemory>
    requires none { exit.marks ≡ [] }
    ensures code { IfOk result (λ p. p ≡ unmarked (check LOOP ++ exit.cells)) }
{
    seq(check_piece(alloc, LOOP)?, exit)
}

#[tactic(auto, using(refine_form::proofs::Holding::holds_left))]
fn left_piece(alloc: Global, first: Piece, exit: Piece) -> Result<Piece, NoMemory>
    requires none { exit.marks ≡ [] }
    ensures cells { IfOk result (λ p. p.cells ≡ first.cells ++ (check LOOP ++ exit.cells)) }
    ensures held { IfOk result (λ p. HoldsCode first p) }
{
    seq(first, exit_piece(alloc, exit)?)
}

fn entry_piece(alloc: Global, entry: Piece) -> Result<Piece, NoMemory>
    requires none { entry.marks ≡ [] }
    ensures code { IfOk result (λ p. p ≡ unmarked (entry.cells ++ check LOOP)) }
{
    seq(entry, check_piece(alloc, LOOP)?)
}

#[tactic(auto, using(refine_form::proofs::Holding::behind_clause, crate::proofs::Clauses::turn_cells))]
fn turn_piece(alloc: Global, entry: Piece, first: Piece, exit: Piece) -> Result<Piece, NoMemory>
    requires entry_none { entry.marks ≡ [] }
    requires exit_none { exit.marks ≡ [] }
    ensures cells { IfOk result (λ p. p.cells ≡ turn_code entry.cells first.cells exit.cells) }
    ensures held { IfOk result (λ p. HoldsCode first p) }
{
    seq(entry_piece(alloc, entry)?, left_piece(alloc, first, exit)?)
}

#[tactic(auto, using(crate::proofs::Clauses::loop_held))]
fn turns_piece(
    alloc: Global,
    entry: Piece,
    first: Piece,
    again: Piece,
    exit: Piece,
) -> Result<Piece, NoMemory>
    requires entry_none { entry.marks ≡ [] }
    requires exit_none { exit.marks ≡ [] }
    ensures cells { IfOk result (λ p. p.cells
        ≡ loop_cells FLAG (turn_code entry.cells first.cells exit.cells) again.cells) }
    ensures held { IfOk result (λ p. HoldsBoth again first p) }
{
    turn_while(alloc, FLAG, turn_piece(alloc, entry, first, exit)?, again)
}

#[tactic(auto, using(refine_form::proofs::Holding::both_in))]
fn from_piece(
    alloc: Global,
    entry: Piece,
    first: Piece,
    again: Piece,
    exit: Piece,
) -> Result<Piece, NoMemory>
    requires entry_none { entry.marks ≡ [] }
    requires exit_none { exit.marks ≡ [] }
    ensures cells { IfOk result (λ p. p.cells
        ≡ from_code entry.cells first.cells again.cells exit.cells) }
    ensures held { IfOk result (λ p. HoldsBoth again first p) }
{
    let turns = turns_piece(alloc, entry, first, again, exit)?;
    around(alloc, flip_piece(alloc)?, turns)
}
