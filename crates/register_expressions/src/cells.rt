// Single cells as fragments.
ghost use Rattle.std.specs.Prelude.{◌≡◌, ◌≢◌, ◌<◌, [], ◌∷◌, IfOk};
ghost use Rattle.code_scope.specs.paired_code.Code.{unmarked};
ghost use Rattle.register_expressions.specs.Code.{two as two_of, three as three_of, with_word as with_word_of, around};

use code_scope::{Cell, NoMemory, Op, Piece, cells, mirror, plain, seq};
use std::alloc::Global;

/// A register exchanged with the cell at the address in another.
pub fn exch(alloc: Global, d: u8, s: u8) -> Result<Piece, NoMemory>
    requires d { d < 32 }
    requires s { s < 32 }
    requires apart { d ≢ s }
    ensures { IfOk result (λ p. p ≡ unmarked (two_of Op.Exch d s ∷ [])) }
{
    plain(alloc, cells::exch(d, s))
}

/// A register xored into another.
pub fn xor(alloc: Global, d: u8, s: u8) -> Result<Piece, NoMemory>
    requires d { d < 32 }
    requires s { s < 32 }
    requires apart { d ≢ s }
    ensures { IfOk result (λ p. p ≡ unmarked (two_of Op.Xor d s ∷ [])) }
{
    plain(alloc, cells::xor(d, s))
}

/// A register added to another.
pub fn add(alloc: Global, d: u8, s: u8) -> Result<Piece, NoMemory>
    requires d { d < 32 }
    requires s { s < 32 }
    requires apart { d ≢ s }
    ensures { IfOk result (λ p. p ≡ unmarked (two_of Op.Add d s ∷ [])) }
{
    plain(alloc, cells::add(d, s))
}

/// A register subtracted from another.
pub fn sub(alloc: Global, d: u8, s: u8) -> Result<Piece, NoMemory>
    requires d { d < 32 }
    requires s { s < 32 }
    requires apart { d ≢ s }
    ensures { IfOk result (λ p. p ≡ unmarked (two_of Op.Sub d s ∷ [])) }
{
    plain(alloc, cells::sub(d, s))
}

/// A word added to a register.
pub fn addi(alloc: Global, d: u8, word: u32) -> Result<Piece, NoMemory>
    requires { d < 32 }
    ensures { IfOk result (λ p. p ≡ unmarked (with_word_of Op.Addi d word ∷ [])) }
{
    plain(alloc, cells::addi(d, word))
}

/// A word xored into a register.
pub fn xori(alloc: Global, d: u8, word: u32) -> Result<Piece, NoMemory>
    requires { d < 32 }
    ensures { IfOk result (λ p. p ≡ unmarked (with_word_of Op.Xori d word ∷ [])) }
{
    plain(alloc, cells::xori(d, word))
}

// The conjunction of two registers xored into a third.
pub(crate) fn andx(alloc: Global, d: u8, s: u8, t: u8) -> Result<Piece, NoMemory>
    requires d { d < 32 }
    requires s { s < 32 }
    requires t { t < 32 }
    requires apart_s { d ≢ s }
    requires apart_t { d ≢ t }
    ensures { IfOk result (λ p. p ≡ unmarked (three_of Op.Andx d s t ∷ [])) }
{
    let cell = Cell {
        op: Op::Andx,
        a: d,
        b: s,
        c: t,
        imm: 0,
    };
    plain(alloc, cell)
}

// The disjunction of two registers xored into a third.
pub(crate) fn orx(alloc: Global, d: u8, s: u8, t: u8) -> Result<Piece, NoMemory>
    requires d { d < 32 }
    requires s { s < 32 }
    requires t { t < 32 }
    requires apart_s { d ≢ s }
    requires apart_t { d ≢ t }
    ensures { IfOk result (λ p. p ≡ unmarked (three_of Op.Orx d s t ∷ [])) }
{
    let cell = Cell {
        op: Op::Orx,
        a: d,
        b: s,
        c: t,
        imm: 0,
    };
    plain(alloc, cell)
}

/// Whether a register is less than another, with signs, xored into a third.
pub fn sltx(alloc: Global, d: u8, s: u8, t: u8) -> Result<Piece, NoMemory>
    requires d { d < 32 }
    requires s { s < 32 }
    requires t { t < 32 }
    requires apart_s { d ≢ s }
    requires apart_t { d ≢ t }
    ensures { IfOk result (λ p. p ≡ unmarked (three_of Op.Sltx d s t ∷ [])) }
{
    plain(alloc, cells::sltx(d, s, t))
}

/// A fragment between another and its inverse.
pub fn enclosed(alloc: Global, outer: Piece, middle: Piece) -> Result<Piece, NoMemory>
    requires outer { outer.marks ≡ [] }
    requires middle { middle.marks ≡ [] }
    ensures { IfOk result (λ p. p ≡ unmarked (around outer.cells middle.cells)) }
{
    let back = mirror(alloc, &outer)?;
    let rest = seq(middle, back)?;
    seq(outer, rest)
}
