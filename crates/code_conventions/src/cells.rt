// The instructions that all code is made of.
ghost use Rattle.std.specs.Prelude.{◌≡◌};
ghost use Rattle.code_conventions.specs.Cells.{two, with_word, add, sub, xor, exch, addi, xori, sltx, neg};

use pisa_isa::{Cell, Op};

/// An instruction on two registers.
pub fn two(op: Op, to: u8, from: u8) -> Cell
    ensures { result ≡ two op to from }
{
    Cell {
        op,
        a: to,
        b: from,
        c: 0,
        imm: 0,
    }
}

/// An instruction on a register and a word.
pub fn with_word(op: Op, to: u8, word: u32) -> Cell
    ensures { result ≡ with_word op to word }
{
    Cell {
        op,
        a: to,
        b: 0,
        c: 0,
        imm: word,
    }
}

/// The other register's word is added.
pub fn add(to: u8, from: u8) -> Cell
    ensures { result ≡ add to from }
{
    two(Op::Add, to, from)
}

/// The other register's word is subtracted.
pub fn sub(to: u8, from: u8) -> Cell
    ensures { result ≡ sub to from }
{
    two(Op::Sub, to, from)
}

/// The bits of the other register's word are turned.
pub fn xor(to: u8, from: u8) -> Cell
    ensures { result ≡ xor to from }
{
    two(Op::Xor, to, from)
}

/// The register and the cell whose address the other register has exchange their words.
pub fn exch(reg: u8, at: u8) -> Cell
    ensures { result ≡ exch reg at }
{
    two(Op::Exch, reg, at)
}

/// A word is added.
pub fn addi(to: u8, word: u32) -> Cell
    ensures { result ≡ addi to word }
{
    with_word(Op::Addi, to, word)
}

/// The bits of a word are turned.
pub fn xori(to: u8, word: u32) -> Cell
    ensures { result ≡ xori to word }
{
    with_word(Op::Xori, to, word)
}

/// The last bit is turned if one register's word is less than another's.
pub fn sltx(to: u8, left: u8, right: u8) -> Cell
    ensures { result ≡ sltx to left right }
{
    Cell {
        op: Op::Sltx,
        a: to,
        b: left,
        c: right,
        imm: 0,
    }
}

/// The register's word is negated.
pub fn neg(to: u8) -> Cell
    ensures { result ≡ neg to }
{
    Cell {
        op: Op::Neg,
        a: to,
        b: 0,
        c: 0,
        imm: 0,
    }
}
