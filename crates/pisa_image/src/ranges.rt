// The ranges of the fields of each row, by the rows' own test.
ghost use Rattle.std.specs.Prelude.{◌≡◌, nat_lt};
ghost use Rattle.pisa_isa.specs.Table.{has_a, has_b, c_is_source, register_end, imm_end};

use pisa_isa::{Cell, Op};

/// The end of the range of `a`.
pub(crate) fn a_end(op: Op) -> u8
    ensures { result ≡ register_end (has_a op) }
{
    let one = Cell {
        op,
        a: 1,
        b: 0,
        c: 0,
        imm: 0,
    };
    if one.is_in_range() { 32 } else { 1 }
}

/// The end of the range of `b`.
pub(crate) fn b_end(op: Op) -> u8
    ensures { result ≡ register_end (has_b op) }
{
    let one = Cell {
        op,
        a: 0,
        b: 1,
        c: 0,
        imm: 0,
    };
    if one.is_in_range() { 32 } else { 1 }
}

/// The end of the range of `c`.
pub(crate) fn c_end(op: Op) -> u8
    ensures { result ≡ register_end (c_is_source op) }
{
    let one = Cell {
        op,
        a: 0,
        b: 0,
        c: 1,
        imm: 0,
    };
    if one.is_in_range() { 32 } else { 1 }
}

/// Whether a word is in the range of `imm`.
pub(crate) fn is_word_of(op: Op, imm: u32) -> bool
    ensures { result ≡ nat_lt imm (imm_end op) }
{
    let cell = Cell {
        op,
        a: 0,
        b: 0,
        c: 0,
        imm,
    };
    cell.is_in_range()
}
