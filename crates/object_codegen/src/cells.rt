// Single cells as fragments.
ghost use Rattle.std.specs.Prelude.{◌≡◌, ◌≢◌, ◌<◌, ◌≤◌, ◌^◌, [], ◌∷◌, IfOk};
ghost use Rattle.refine_heap.specs.paired_code.Code.{unmarked};
ghost use Rattle.expr_uncompute.specs.register_expressions.Code.{two as two_of, three as three_of, with_word as with_word_of, around};
ghost use Rattle.object_codegen.specs.Code.{turn_left, srlvx as srlvx_of, andix as andix_of};

use expr_uncompute::{Piece, mirror, plain, seq};
use refine_heap::{Cell, Op};
use static_layout::NoMemory;
use static_layout::cells::{
    add as add_cell, addi as addi_cell, exch as exch_cell, sltx as sltx_cell, with_word,
    xor as xor_cell, xori as xori_cell,
};
use std::alloc::Global;

/// `EXCH d s`: exchanges register d with the memory cell that register s addresses.
pub fn exch(alloc: Global, d: u8, s: u8) -> Result<Piece, NoMemory>
    requires d { d < 32 }
    requires s { s < 32 }
    requires apart { d ≢ s }
    ensures { IfOk result (λ p. p ≡ unmarked (two_of Op.Exch d s ∷ [])) }
{
    plain(alloc, exch_cell(d, s))
}

/// `XOR d s`: combines register d with register s by exclusive or.
pub fn xor(alloc: Global, d: u8, s: u8) -> Result<Piece, NoMemory>
    requires d { d < 32 }
    requires s { s < 32 }
    requires apart { d ≢ s }
    ensures { IfOk result (λ p. p ≡ unmarked (two_of Op.Xor d s ∷ [])) }
{
    plain(alloc, xor_cell(d, s))
}

/// `ADD d s`: adds register s to register d.
pub fn add(alloc: Global, d: u8, s: u8) -> Result<Piece, NoMemory>
    requires d { d < 32 }
    requires s { s < 32 }
    requires apart { d ≢ s }
    ensures { IfOk result (λ p. p ≡ unmarked (two_of Op.Add d s ∷ [])) }
{
    plain(alloc, add_cell(d, s))
}

/// `ADDI d word`: adds the word to register d.
pub fn addi(alloc: Global, d: u8, word: u32) -> Result<Piece, NoMemory>
    requires { d < 32 }
    ensures { IfOk result (λ p. p ≡ unmarked (with_word_of Op.Addi d word ∷ [])) }
{
    plain(alloc, addi_cell(d, word))
}

/// `XORI d word`: combines register d with the word by exclusive or.
pub fn xori(alloc: Global, d: u8, word: u32) -> Result<Piece, NoMemory>
    requires { d < 32 }
    ensures { IfOk result (λ p. p ≡ unmarked (with_word_of Op.Xori d word ∷ [])) }
{
    plain(alloc, xori_cell(d, word))
}

/// `SLTX d s t`: flips the last bit of register d if register s is less than register t.
pub fn sltx(alloc: Global, d: u8, s: u8, t: u8) -> Result<Piece, NoMemory>
    requires d { d < 32 }
    requires s { s < 32 }
    requires t { t < 32 }
    requires apart_s { d ≢ s }
    requires apart_t { d ≢ t }
    ensures { IfOk result (λ p. p ≡ unmarked (three_of Op.Sltx d s t ∷ [])) }
{
    plain(alloc, sltx_cell(d, s, t))
}

/// `RL d bits`: rotates register d to the left by so many bits.
pub fn rl(alloc: Global, d: u8, bits: u32) -> Result<Piece, NoMemory>
    requires register { d < 32 }
    requires bits { bits < 32 }
    ensures { IfOk result (λ p. p ≡ unmarked (turn_left d bits ∷ [])) }
{
    plain(alloc, with_word(Op::Rl, d, bits))
}

/// `SRLVX d s t`: combines register d with register s, shifted right by register t, by exclusive or.
pub fn srlvx(alloc: Global, d: u8, s: u8, t: u8) -> Result<Piece, NoMemory>
    requires d { d < 32 }
    requires s { s < 32 }
    requires t { t < 32 }
    requires apart_s { d ≢ s }
    requires apart_t { d ≢ t }
    ensures { IfOk result (λ p. p ≡ unmarked (srlvx_of d s t ∷ [])) }
{
    let cell = Cell {
        op: Op::Srlvx,
        a: d,
        b: s,
        c: t,
        imm: 0,
    };
    plain(alloc, cell)
}

/// `ANDIX d s word`: combines register d with the bits that register s and the word share, by exclusive or.
pub fn andix(alloc: Global, d: u8, s: u8, word: u32) -> Result<Piece, NoMemory>
    requires d { d < 32 }
    requires s { s < 32 }
    requires apart { d ≢ s }
    ensures { IfOk result (λ p. p ≡ unmarked (andix_of d s word ∷ [])) }
{
    let cell = Cell {
        op: Op::Andix,
        a: d,
        b: s,
        c: 0,
        imm: word,
    };
    plain(alloc, cell)
}

/// The middle fragment between the outer fragment and its inverse.
pub fn enclosed(alloc: Global, outer: Piece, middle: Piece) -> Result<Piece, NoMemory>
    requires outer { outer.marks ≡ [] }
    requires middle { middle.marks ≡ [] }
    ensures { IfOk result (λ p. p ≡ unmarked (around outer.cells middle.cells)) }
{
    let back = mirror(alloc, &outer)?;
    let rest = seq(middle, back)?;
    seq(outer, rest)
}
