// The code of an image, from the fragments of its main part and its routines.

ghost use Rattle.std.specs.Prelude.{◌≡◌, ℕ, ◌+◌, ◌-◌, ◌^◌, ◌<◌, ◌≤◌, ◌++◌, [], length, map, pos, IfOk, OnOk, slice_index};
ghost use Rattle.code_conventions.specs.pisa_isa.Image.{IsImage};
ghost use Rattle.paired_code.specs.Cells.{rbra, start_cell, finish};
ghost use Rattle.paired_code.specs.Layout.{base, between, six};
ghost use Rattle.paired_code.specs.Link.{link_positions, linked, routine_code, routines_code, routines_size, first_top, link_code, link_size, static_word, Linked};
ghost use Rattle.paired_code.specs.Fit.{EachFit};
ghost use Rattle.std.specs.List.Sorted.{IsPermutation, IsNonDecreasingBy};
ghost use Rattle.paired_code.specs.Code.{bodies, link_marks, marks_size};

use crate::marking::marks_of;
use crate::part::{StaticWord, Symbol};
use crate::piece::{Piece, bra, cells_of, swapbr};
use code_conventions::cells::{addi, neg, with_word};
use code_conventions::registers::LINK;
use code_conventions::{
    Cell, Image, MOST_CELLS, MOST_MARKS, MOST_STATICS, NoMemory, Noted, Notes, Op,
};
use std::alloc::Global;

/// START, `main`, FINISH and then the routines, each in the subroutine form. The marks of the
/// fragments go along with their cells, in ascending order of their places; no name is noted.
pub fn link(
    alloc: Global,
    main: Piece,
    routines: Vec<Piece>,
    statics: Vec<StaticWord>,
) -> Result<Noted, NoMemory>
    requires code_in_limit { link_size main.cells (bodies routines.items) ≤ MOST_CELLS }
    requires statics_in_limit { length statics.items ≤ MOST_STATICS }
    requires few_marks { length main.marks + marks_size routines.items ≤ MOST_MARKS }
    ensures code { IfOk result (λ n. n.image.code ≡ link_code main.cells (bodies routines.items)) }
    ensures statics { IfOk result (λ n. n.image.statics
        ≡ map (static_word (link_positions (first_top main.cells) (bodies routines.items))) statics.items) }
    ensures image { IfOk result (λ n. IsImage n.image) }
    ensures law { IfOk result (λ n. Linked main.cells (bodies routines.items)
        (record {
          code = n.image.code;
          routines = link_positions (first_top main.cells)
              (bodies routines.items);
        })) }
    ensures marks { IfOk result (λ n. IsPermutation (link_marks main routines.items) n.notes.marks) }
    ensures ascending { IfOk result (λ n. IsNonDecreasingBy (λ k. k.at) n.notes.marks) }
    ensures no_names { IfOk result (λ n. n.notes.names ≡ []) }
{
    let marks = marks_of(alloc, &main, &routines)?;
    let image = image_of(alloc, main, routines, statics)?;
    let names = Vec::new(alloc);
    Ok(Noted::seal(image, Notes { marks, names }))
}

// Only the image.
fn image_of(
    alloc: Global,
    main: Piece,
    routines: Vec<Piece>,
    statics: Vec<StaticWord>,
) -> Result<Image, NoMemory>
    requires code_in_limit { link_size main.cells (bodies routines.items) ≤ MOST_CELLS }
    requires statics_in_limit { length statics.items ≤ MOST_STATICS }
    ensures code { IfOk result (λ p. p.code ≡ link_code main.cells (bodies routines.items)) }
    ensures statics { IfOk result (λ p. p.statics
        ≡ map (static_word (link_positions (first_top main.cells) (bodies routines.items))) statics.items) }
    ensures image { IfOk result IsImage }
    ensures law { IfOk result (λ p. Linked main.cells (bodies routines.items)
        (record { code = p.code; routines = link_positions (first_top main.cells) (bodies routines.items) })) }
{
    let cells = cells_of(&main);
    let places = places_of(alloc, &routines, 1 + cells.len() as u32 + 1)?;
    let mut code = Vec::new(alloc);
    code.push(start())?;
    put_cells(&mut code, cells, &places)?;
    code.push(finish())?;
    put_routines(&mut code, &routines, &places)?;
    let words = words_of(alloc, &statics, &places)?;
    match Image::seal(code, words) {
        Ok(image) => Ok(image),
        Err(_) => unreachable!(),
    }
}

// The places of the SWAPBR cells, if the first routine has its first cell at `first`.
fn places_of(alloc: Global, routines: &[Piece], first: u32) -> Result<Vec<u32>, NoMemory>
    requires { first + routines_size (bodies routines.now) ≤ MOST_CELLS }
    ensures { IfOk result (λ v. v.items ≡ link_positions first (bodies routines.now)) }
{
    let mut found = Vec::new(alloc);
    let mut top = first;
    for piece in routines {
        let cells = cells_of(piece);
        found.push(top + 1)?;
        top += cells.len() as u32 + 4;
    }
    Ok(found)
}

fn put_routines(code: &mut Vec<Cell>, routines: &[Piece], places: &[u32]) -> Result<(), NoMemory>
    requires { length code.old.items + routines_size (bodies routines.now) < 2 ^ 30 }
    ensures code { OnOk result (code.new.items
        ≡ code.old.items ++ routines_code places.now (length code.old.items)
        (bodies routines.now)) }
    ensures fit { OnOk result (EachFit (bodies routines.now)) }
{
    for piece in routines {
        put_routine(code, cells_of(piece), places)?;
    }
    Ok(())
}

fn put_routine(code: &mut Vec<Cell>, cells: &[Symbol], places: &[u32]) -> Result<(), NoMemory>
    requires { length code.old.items + (length cells.now + 4) < 2 ^ 30 }
    ensures { OnOk result (code.new.items ≡ code.old.items
        ++ routine_code places.now (length code.old.items) cells.now) }
{
    let over = cells.len() as u32 + 3;
    code.push(bra(over))?;
    code.push(swapbr(LINK))?;
    code.push(neg(LINK))?;
    put_cells(code, cells, places)?;
    code.push(bra(offset(over, 0)))?;
    Ok(())
}

fn put_cells(code: &mut Vec<Cell>, cells: &[Symbol], places: &[u32]) -> Result<(), NoMemory>
    requires { length code.old.items + length cells.now < 2 ^ 30 }
    ensures { OnOk result (code.new.items ≡ code.old.items
        ++ linked places.now (length code.old.items) cells.now) }
{
    for cell in cells {
        let at = code.len() as u32;
        code.push(base_of(places, at, *cell))?;
    }
    Ok(())
}

// The cell at the code address for a cell of the fragment.
fn base_of(places: &[u32], at: u32, cell: Symbol) -> Cell
    requires { at < 2 ^ 30 }
    ensures { result ≡ base places.now (pos at) cell }
{
    match cell {
        Symbol::Own(c) => c,
        Symbol::Fixed(c) => c,
        Symbol::Enter(routine, false) => bra(offset(at, place_of(places, routine))),
        Symbol::Enter(routine, true) => rbra(offset(at, place_of(places, routine))),
        Symbol::Aim(false) => addi(LINK, offset(at + 1, 0)),
        Symbol::Aim(true) => addi(LINK, offset(at.saturating_sub(1), 0)),
        Symbol::Turn(_, _, false) => addi(LINK, 0),
        Symbol::Turn(false, back, true) => bra(six_cells(back)),
        Symbol::Turn(true, back, true) => rbra(six_cells(back)),
    }
}

fn six_cells(back: bool) -> u32
    ensures { result ≡ six back }
{
    if back { offset(6, 0) } else { 6 }
}

fn place_of(places: &[u32], routine: u32) -> u32
    ensures { result ≡ slice_index places.now routine }
{
    match places.get(routine as usize) {
        Some(place) => *place,
        None => 0,
    }
}

fn offset(from: u32, to: u32) -> u32
    ensures { result ≡ between from to }
{
    if from <= to {
        to - from
    } else {
        u32::MAX - (from - to) + 1
    }
}

fn words_of(alloc: Global, statics: &[StaticWord], places: &[u32]) -> Result<Vec<u32>, NoMemory>
    ensures { IfOk result (λ v. v.items ≡ map (static_word places.now) statics.now) }
{
    let mut words = Vec::new(alloc);
    for word in statics.iter().copied() {
        words.push(word_of(word, places))?;
    }
    Ok(words)
}

fn word_of(word: StaticWord, places: &[u32]) -> u32
    ensures { result ≡ static_word places.now word }
{
    match word {
        StaticWord::Word(w) => w,
        StaticWord::Routine(routine) => place_of(places, routine),
    }
}

fn start() -> Cell
    ensures { result ≡ start_cell }
{
    with_word(Op::Start, 0, 0)
}

fn finish() -> Cell
    ensures { result ≡ finish }
{
    with_word(Op::Finish, 0, 0)
}

fn rbra(offset: u32) -> Cell
    ensures { result ≡ rbra offset }
{
    with_word(Op::Rbra, 0, offset)
}
