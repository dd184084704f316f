// The order of an array's block, from its length.
ghost use Rattle.std.specs.Prelude.{◌≡◌, ◌<◌, ◌≤◌, ◌-◌, ◌^◌, [], ◌∷◌, ◌++◌, IfOk};
ghost use Rattle.refine_heap.specs.rpp_words.Words.{negated};
ghost use Rattle.refine_heap.specs.paired_code.Code.{unmarked};
ghost use Rattle.expr_uncompute.specs.register_expressions.Code.{addi as addi_cell, xori as xori_cell, sltx as sltx_cell, add as add_cell, around};
ghost use Rattle.object_codegen.specs.Code.{turn_left, srlvx as srlvx_cell, andix as andix_cell, order_bit as bit_cells, order_cells};

use crate::cells::{add, addi, andix, enclosed, rl, sltx, srlvx, xori};
use expr_uncompute::{Piece, seq};
use static_layout::memory::HEADER_WORDS;
use static_layout::registers::{AT_LENGTH, LEFT_TRUTH, NOUGHT, RIGHT_TRUTH, VALUE};
use static_layout::{NoMemory, wrap_sub};
use std::alloc::Global;

const SHIFTED: u8 = LEFT_TRUTH;

const ONE_BIT: u8 = RIGHT_TRUTH;

const ORDER: u8 = VALUE;

// Whether the length is not below 2 to the order with this bit.
fn tried(alloc: Global, bit: u32) -> Result<Piece, NoMemory>
    ensures { IfOk result (λ p.
        p ≡ unmarked (around (addi_cell ORDER bit ∷ srlvx_cell SHIFTED AT_LENGTH ORDER ∷ [])
        (sltx_cell ONE_BIT NOUGHT SHIFTED ∷ []))) }
{
    let raised = addi(alloc, ORDER, bit)?;
    let right = srlvx(alloc, SHIFTED, AT_LENGTH, ORDER)?;
    let outer = seq(raised, right)?;
    let above = sltx(alloc, ONE_BIT, NOUGHT, SHIFTED)?;
    enclosed(alloc, outer, above)
}

// The bit added to the order, if it is in it.
fn added(alloc: Global, number: u32, bit: u32) -> Result<Piece, NoMemory>
    requires { number < 32 }
    ensures { IfOk result (λ p.
        p ≡ unmarked (turn_left ONE_BIT number ∷ add_cell ORDER ONE_BIT ∷ andix_cell ONE_BIT ORDER
        bit ∷ [])) }
{
    let turned = rl(alloc, ONE_BIT, number)?;
    let more = add(alloc, ORDER, ONE_BIT)?;
    let gone = andix(alloc, ONE_BIT, ORDER, bit)?;
    let front = seq(turned, more)?;
    seq(front, gone)
}

fn order_bit(alloc: Global, number: u32, bit: u32) -> Result<Piece, NoMemory>
    requires number { number < 32 }
    requires power { bit ≡ 2 ^ number }
    ensures { IfOk result (λ p. p ≡ unmarked (bit_cells number)) }
{
    let test = tried(alloc, bit)?;
    let rest = added(alloc, number, bit)?;
    seq(test, rest)
}

fn bits(alloc: Global, last: Piece) -> Result<Piece, NoMemory>
    requires { last.marks ≡ [] }
    ensures { IfOk result (λ p.
        p ≡ unmarked (bit_cells 4 ++ (bit_cells 3 ++ (bit_cells 2 ++ (bit_cells 1 ++ (bit_cells 0
        ++ last.cells)))))) }
{
    let first = order_bit(alloc, 4, 16)?;
    let second = order_bit(alloc, 3, 8)?;
    let third = order_bit(alloc, 2, 4)?;
    let fourth = order_bit(alloc, 1, 2)?;
    let fifth = order_bit(alloc, 0, 1)?;
    let rest = seq(fifth, last)?;
    let rest = seq(fourth, rest)?;
    let rest = seq(third, rest)?;
    let rest = seq(second, rest)?;
    seq(first, rest)
}

fn one_more(alloc: Global) -> Result<Piece, NoMemory>
    ensures { IfOk result (λ p.
        p ≡ unmarked (addi_cell ORDER 1 ∷ addi_cell AT_LENGTH (negated (HEADER_WORDS - 1)) ∷ [])) }
{
    let more = addi(alloc, ORDER, 1)?;
    let back = addi(alloc, AT_LENGTH, wrap_sub(0, HEADER_WORDS - 1))?;
    seq(more, back)
}

/// The order of the block of an array, whose length is in register 15: 43 cells, straight on.
pub fn order_code(alloc: Global) -> Result<Piece, NoMemory>
    ensures { IfOk result (λ p. p ≡ unmarked order_cells) }
{
    let last_word = addi(alloc, AT_LENGTH, HEADER_WORDS - 1)?;
    let last = one_more(alloc)?;
    let rest = bits(alloc, last)?;
    seq(last_word, rest)
}

/// An order that is known, in its register.
pub fn fixed_order(alloc: Global, order: u32) -> Result<Piece, NoMemory>
    ensures { IfOk result (λ p. p ≡ unmarked (xori_cell ORDER order ∷ [])) }
{
    xori(alloc, ORDER, order)
}
