// A fragment, and the calls that put fragments together.

ghost use Rattle.std.specs.Prelude.{◌≡◌, ◌≢◌, ℕ, ◌+◌, ◌-◌, ◌%◌, ◌^◌, ◌<◌, ◌≤◌, IsTrue, List, [], ◌∷◌, ◌++◌, length, map, reverse, IfOk, OnOk};
ghost use Rattle.code_conventions.specs.pisa_isa.Table.{IsCell};
ghost use Rattle.code_conventions.specs.Cells.{bra};
ghost use Rattle.paired_code.specs.Cells.{swapbr, beq, bne, bgtz, bltz, data_word};
ghost use Rattle.paired_code.specs.Machine.{reversed, is_single};
ghost use Rattle.paired_code.specs.Layout.{between, fork, branch_cells, loop_cells, mirror_cells, inverse_sym, check_cells, check_equal_cells, check_differ_cells, check_positive_cells, Equal, Differ, Positive, place_register, enter_at_cells};
ghost use Rattle.paired_code.specs.Laws.{SeqLaw, MirrorLaw, BranchLaw, WhileLaw, PlainLaw, CheckLaw, BranchTestLaw, EmptyLaw, EnterLaw, EnterAtLaw};
ghost use Rattle.paired_code.specs.Fit.{AllSymbolsFit};
ghost use Rattle.paired_code.specs.Stored.{symbols_in};
ghost use Rattle.paired_code.specs.Code.{Code, KeptCode, AllWithin, shift, unmarked, seq_code, branch_code, loop_code, marked_code, parts};

use crate::part::Symbol;
use crate::row::Row;
use crate::span::{Span, cover, put_spans};
use code_conventions::cells::{add, with_word};
use code_conventions::registers::LINK;
use code_conventions::{Cell, LAST_PLACE, NoMemory, Op, wrap_add};
use std::alloc::Global;
use std::marker::Model;

// There are so many words.
const WORDS: usize = 0x1_0000_0000;

/// Closed code of any number of cells, with the places of the source that made it.
#[derive(Drop)]
pub struct Piece {
    cells: Row,
    marks: Vec<Span>,
}

impl Model for Piece {
    ghost use Rattle.paired_code.specs.Code.{Code, KeptCode};
    ghost use Rattle.paired_code.specs.Stored.{symbols_in};

    ghost Value = { Code };

    ghost view = { λ p. record { cells = symbols_in p.cells; marks = p.marks.items } };

    ghost invariant = { λ p. KeptCode (symbols_in p.cells) p.marks.items };
}

/// The piece that does nothing, with no cells and no marks.
pub fn empty(alloc: Global) -> Piece
    ensures code { result ≡ unmarked [] }
    ensures law { EmptyLaw result.cells }
{
    Piece {
        cells: Row::new(alloc),
        marks: Vec::new(alloc),
    }
}

/// The piece that does one after the other.
pub fn seq(first: Piece, second: Piece) -> Result<Piece, NoMemory>
    ensures code { IfOk result (λ p. p ≡ seq_code first second) }
    ensures marks { IfOk result (λ p. parts p ≡ parts first ++ parts second) }
    ensures law { IfOk result (λ p. SeqLaw first.cells second.cells p.cells) }
{
    let mut cells = first.cells;
    let mut marks = first.marks;
    let front = cells.len();
    cells.append(second.cells)?;
    let _size = cells.len(); // proof: bounds the length
    put_spans(&mut marks, &second.marks, front)?;
    Ok(sealed(cells, marks))
}

/// Runs `yes` if the flag is not 0, else `no`; neither may leave another value in it.
pub fn branch_if(alloc: Global, flag: u8, yes: Piece, no: Piece) -> Result<Piece, NoMemory>
    requires { flag < 32 }
    ensures code { IfOk result (λ p. p ≡ branch_code flag yes no) }
    ensures marks { IfOk result (λ p. parts p ≡ parts no ++ parts yes) }
    ensures law { IfOk result (λ p. BranchLaw flag yes.cells no.cells p.cells) }
{
    let no_size = no.cells.len();
    let cells = branch_row(alloc, flag, yes.cells, no.cells)?;
    let _size = cells.len(); // proof: bounds the length
    let mut marks = Vec::new(alloc);
    put_spans(&mut marks, &no.marks, 2)?;
    put_spans(&mut marks, &yes.marks, 5 + no_size)?;
    Ok(sealed(cells, marks))
}

/// Entered with the flag not 0: runs `head` and leaves if the flag is not 0, else runs `tail`,
/// which keeps the flag, and begins again at `head`.
pub fn turn_while(alloc: Global, flag: u8, head: Piece, tail: Piece) -> Result<Piece, NoMemory>
    requires { flag < 32 }
    ensures code { IfOk result (λ p. p ≡ loop_code flag head tail) }
    ensures marks { IfOk result (λ p. parts p ≡ parts tail ++ parts head) }
    ensures law { IfOk result (λ p. WhileLaw flag head.cells tail.cells p.cells) }
{
    let tail_size = tail.cells.len();
    let cells = loop_row(alloc, flag, head.cells, tail.cells)?;
    let _size = cells.len(); // proof: bounds the length
    let mut marks = Vec::new(alloc);
    put_spans(&mut marks, &tail.marks, 3)?;
    put_spans(&mut marks, &head.marks, 5 + tail_size)?;
    Ok(sealed(cells, marks))
}

/// One instruction that is no branch, SWAPBR, START, FINISH or DATA.
pub fn plain(alloc: Global, cell: Cell) -> Result<Piece, NoMemory>
    requires single { IsTrue (is_single cell) }
    requires cell { IsCell cell }
    ensures code { IfOk result (λ p. p ≡ unmarked (Symbol.Own cell ∷ [])) }
    ensures law { IfOk result (λ p. PlainLaw cell p.cells) }
{
    let mut cells = Row::new(alloc);
    cells.push(Symbol::Own(cell))?;
    Ok(sealed(cells, Vec::new(alloc)))
}

/// A stop with the code if the register is not 0.
pub fn check_zero(alloc: Global, reg: u8, code: u32) -> Result<Piece, NoMemory>
    requires { reg < 32 }
    ensures code { IfOk result (λ p. p ≡ unmarked (check_cells reg code)) }
    ensures law { IfOk result (λ p. CheckLaw reg code p.cells) }
{
    let mut cells = Row::new(alloc);
    cells.push(Symbol::Own(bra(2)))?;
    cells.push(Symbol::Own(data_word(code)))?;
    cells.push(Symbol::Own(bra(behind(2, 0))))?;
    cells.push(Symbol::Own(bgtz(reg, behind(2, 0))))?;
    cells.push(Symbol::Own(bltz(reg, behind(3, 0))))?;
    Ok(sealed(cells, Vec::new(alloc)))
}

/// A stop with the code if the two registers differ.
pub fn check_equal(alloc: Global, one: u8, other: u8, code: u32) -> Result<Piece, NoMemory>
    requires one { one < 32 }
    requires other { other < 32 }
    ensures code { IfOk result (λ p. p ≡ unmarked (check_equal_cells one other code)) }
    ensures law { IfOk result (λ p. BranchTestLaw (Equal one other) code p.cells) }
{
    let mut cells = Row::new(alloc);
    cells.push(Symbol::Own(beq(one, other, 2)))?;
    cells.push(Symbol::Own(data_word(code)))?;
    cells.push(Symbol::Own(beq(one, other, behind(2, 0))))?;
    Ok(sealed(cells, Vec::new(alloc)))
}

/// A stop with the code if the two registers are equal.
pub fn check_differ(alloc: Global, one: u8, other: u8, code: u32) -> Result<Piece, NoMemory>
    requires one { one < 32 }
    requires other { other < 32 }
    ensures code { IfOk result (λ p. p ≡ unmarked (check_differ_cells one other code)) }
    ensures law { IfOk result (λ p. BranchTestLaw (Differ one other) code p.cells) }
{
    let mut cells = Row::new(alloc);
    cells.push(Symbol::Own(bne(one, other, 2)))?;
    cells.push(Symbol::Own(data_word(code)))?;
    cells.push(Symbol::Own(bne(one, other, behind(2, 0))))?;
    Ok(sealed(cells, Vec::new(alloc)))
}

/// A stop with the code if the register's word, with its sign, is not above 0.
pub fn check_positive(alloc: Global, reg: u8, code: u32) -> Result<Piece, NoMemory>
    requires { reg < 32 }
    ensures code { IfOk result (λ p. p ≡ unmarked (check_positive_cells reg code)) }
    ensures law { IfOk result (λ p. BranchTestLaw (Positive reg) code p.cells) }
{
    let mut cells = Row::new(alloc);
    cells.push(Symbol::Own(bgtz(reg, 2)))?;
    cells.push(Symbol::Own(data_word(code)))?;
    cells.push(Symbol::Own(bgtz(reg, behind(2, 0))))?;
    Ok(sealed(cells, Vec::new(alloc)))
}

/// A call of a routine by its number.
pub fn enter(alloc: Global, routine: u32, back: bool) -> Result<Piece, NoMemory>
    ensures code { IfOk result (λ p. p ≡ unmarked (Symbol.Enter routine back ∷ [])) }
    ensures law { IfOk result (λ p. EnterLaw routine back p.cells) }
{
    let mut cells = Row::new(alloc);
    cells.push(Symbol::Enter(routine, back))?;
    Ok(sealed(cells, Vec::new(alloc)))
}

/// A call of the routine whose code address is in the register. If that is `$2`, which holds 0
/// where a call is made, the cells are those of another register.
pub fn enter_at(alloc: Global, reg: u8, back: bool) -> Result<Piece, NoMemory>
    requires { reg < 32 }
    ensures code { IfOk result (λ p. p ≡ unmarked (enter_at_cells (place_register reg) back)) }
    ensures law { IfOk result (λ p. EnterAtLaw reg back p.cells) }
{
    let from = if reg == LINK { 3 } else { reg };
    let mut cells = Row::new(alloc);
    cells.push(Symbol::Turn(true, false, back))?;
    cells.push(Symbol::Fixed(add(LINK, from)))?;
    cells.push(Symbol::Aim(false))?;
    cells.push(Symbol::Fixed(swapbr(LINK)))?;
    cells.push(Symbol::Aim(true))?;
    cells.push(Symbol::Fixed(add(LINK, from)))?;
    cells.push(Symbol::Turn(false, true, back))?;
    Ok(sealed(cells, Vec::new(alloc)))
}

/// The fragment with one mark more, over all its cells.
pub fn marked(at: u32, piece: Piece) -> Result<Piece, NoMemory>
    requires { at ≤ LAST_PLACE }
    ensures code { IfOk result (λ p. p ≡ marked_code at piece) }
    ensures marks { IfOk result (λ p. parts p
        ≡ parts piece ++ record { at = at; cells = piece.cells } ∷ []) }
{
    let cells = piece.cells;
    let mut marks = piece.marks;
    marks.push(cover(0, cells.len(), at))?;
    Ok(sealed(cells, marks))
}

/// The fragment run the other way, with no marks.
pub fn mirror(alloc: Global, piece: &Piece) -> Result<Piece, NoMemory>
    ensures code { IfOk result (λ p. p ≡ unmarked (mirror_cells piece.now.cells)) }
    ensures law { IfOk result (λ p. MirrorLaw piece.now.cells p.cells) }
{
    let cells = mirrored(alloc, piece.cells.as_slice())?;
    Ok(sealed(cells, Vec::new(alloc)))
}

/// The cells of a piece, in order, each of which fits.
pub fn cells_of(piece: &Piece) -> &[Symbol]
    ensures cells { result.now ≡ piece.now.cells }
    ensures fit { AllSymbolsFit piece.now.cells }
{
    piece.cells.as_slice()
}

/// The marks of a piece, each of which is within its cells.
pub fn marks_in(piece: &Piece) -> &[Span]
    ensures marks { result.now ≡ piece.now.marks }
    ensures within { AllWithin (length piece.now.cells) piece.now.marks }
{
    &piece.marks
}

fn mirrored(alloc: Global, cells: &[Symbol]) -> Result<Row, NoMemory>
    ensures { IfOk result (λ v. symbols_in v ≡ map inverse_sym (reverse cells.now)) }
{
    let mut out = Row::new(alloc);
    for c in cells.iter().rev().copied() {
        out.push(turned(c))?;
    }
    Ok(out)
}

fn turned(cell: Symbol) -> Symbol
    ensures { result ≡ inverse_sym cell }
{
    match cell {
        Symbol::Own(c) => Symbol::Own(c.inverse()),
        Symbol::Enter(routine, back) => Symbol::Enter(routine, !back),
        Symbol::Fixed(c) => Symbol::Fixed(c),
        Symbol::Aim(back) => Symbol::Aim(!back),
        Symbol::Turn(turns, back, on) => Symbol::Turn(turns, !back, !on),
    }
}

fn sealed(cells: Row, marks: Vec<Span>) -> Piece
    requires fit { AllSymbolsFit (symbols_in cells) }
    requires within { AllWithin (length (symbols_in cells)) marks.items }
    ensures { result ≡ record { cells = symbols_in cells; marks = marks.items } }
{
    Piece { cells, marks }
}

// The cells of a choice.
fn branch_row(alloc: Global, flag: u8, yes: Row, no: Row) -> Result<Row, NoMemory>
    ensures { IfOk result (λ v. symbols_in v ≡ branch_cells flag (symbols_in yes) (symbols_in no)) }
{
    let no_size = no.len();
    let yes_size = yes.len();
    let mut cells = Row::new(alloc);
    put_fork(&mut cells, flag, ahead(3, no_size))?;
    cells.append(no)?;
    put_jump(&mut cells, ahead(5, yes_size))?;
    put_fork(&mut cells, flag, behind(3, no_size))?;
    cells.append(yes)?;
    put_fork(&mut cells, flag, 3)?;
    put_jump(&mut cells, behind(5, yes_size))?;
    put_fork(&mut cells, flag, behind(3, 0))?;
    Ok(cells)
}

// The cells of a loop.
fn loop_row(alloc: Global, flag: u8, head: Row, tail: Row) -> Result<Row, NoMemory>
    ensures { IfOk result (λ v. symbols_in v ≡ loop_cells flag (symbols_in head) (symbols_in tail)) }
{
    let tail_size = tail.len();
    let head_size = head.len();
    let mut cells = Row::new(alloc);
    put_fork(&mut cells, flag, ahead(3, tail_size))?;
    put_jump(&mut cells, ahead(5 + tail_size, head_size))?;
    cells.append(tail)?;
    put_fork(&mut cells, flag, behind(3, tail_size))?;
    cells.append(head)?;
    put_fork(&mut cells, flag, 3)?;
    put_jump(&mut cells, behind(5 + tail_size, head_size))?;
    put_fork(&mut cells, flag, behind(3, 0))?;
    Ok(cells)
}

// The offset to a cell so many cells on; from 2^32 on it is cut to a word.
fn ahead(front: usize, more: usize) -> u32
    ensures { result ≡ between 0 (front + more) }
{
    wrap_add((front % WORDS) as u32, (more % WORDS) as u32)
}

// The offset to a cell so many cells before.
fn behind(front: usize, more: usize) -> u32
    ensures { result ≡ between (front + more) 0 }
{
    if front >= WORDS || more >= WORDS {
        return 0;
    }
    let both = front + more;
    if both == 0 || both >= WORDS {
        return 0;
    }
    (WORDS - both) as u32
}

fn put_fork(cells: &mut Row, flag: u8, word: u32) -> Result<(), NoMemory>
    ensures { OnOk result (symbols_in cells.new ≡ symbols_in cells.old ++ fork flag word []) }
{
    cells.push(Symbol::Own(bgtz(flag, word)))?;
    cells.push(Symbol::Own(bltz(flag, word)))?;
    Ok(())
}

fn put_jump(cells: &mut Row, word: u32) -> Result<(), NoMemory>
    ensures { OnOk result (symbols_in cells.new ≡ symbols_in cells.old ++ Symbol.Own (bra word) ∷ []) }
{
    cells.push(Symbol::Own(bra(word)))?;
    Ok(())
}

pub(crate) fn bra(offset: u32) -> Cell
    ensures { result ≡ bra offset }
{
    with_word(Op::Bra, 0, offset)
}

fn beq(one: u8, other: u8, offset: u32) -> Cell
    ensures { result ≡ beq one other offset }
{
    Cell {
        op: Op::Beq,
        a: one,
        b: other,
        c: 0,
        imm: offset,
    }
}

fn bne(one: u8, other: u8, offset: u32) -> Cell
    ensures { result ≡ bne one other offset }
{
    Cell {
        op: Op::Bne,
        a: one,
        b: other,
        c: 0,
        imm: offset,
    }
}

fn bgtz(reg: u8, offset: u32) -> Cell
    ensures { result ≡ bgtz reg offset }
{
    with_word(Op::Bgtz, reg, offset)
}

fn bltz(reg: u8, offset: u32) -> Cell
    ensures { result ≡ bltz reg offset }
{
    with_word(Op::Bltz, reg, offset)
}

pub(crate) fn swapbr(reg: u8) -> Cell
    ensures { result ≡ swapbr reg }
{
    with_word(Op::Swapbr, reg, 0)
}

fn data_word(word: u32) -> Cell
    ensures { result ≡ data_word word }
{
    with_word(Op::DataWord, 0, word)
}
