// The copy code, as an image of its own.
ghost use Rattle.std.specs.Prelude.{◌≡◌, ◌≤◌, ◌++◌, ◌+◌, ◌*◌, ◌∷◌, [], length, map, All, IfOk, OnOk};
ghost use Rattle.paired_code.specs.rpp_words.Words.{negated};
ghost use Rattle.paired_code.specs.Cells.{start_cell, finish};
ghost use Rattle.paired_code.specs.Code.{unmarked};
ghost use Rattle.bennett_wrap.specs.declared.wrapping.TheConstants.{MOST_COPIED};
ghost use Rattle.bennett_wrap.specs.Copying.{find_cells, copy_one, copies, ending_cells, copied_cells, own_symbol, IsPlainCell};

use image_inverter::{Cell, END_CELL, Image, NoMemory, wrap_sub};
use paired_code::cells::{add, addi, exch, sub, xor};
use paired_code::{Piece, empty, link, plain, seq};
use std::alloc::Global;

/// The address of a cell that is read.
pub const AT: u8 = 1;

/// Its word.
pub const WORD: u8 = 2;

/// The address of the cell after the program's own into which the word goes.
pub const BEHIND: u8 = 3;

/// The word of that cell.
pub const COPY: u8 = 4;

/// START, the copy code and FINISH.
pub(crate) fn copy_image(alloc: Global, cells: &[u32]) -> Result<Image, NoMemory>
    requires { length cells.now ≤ MOST_COPIED }
    ensures code { IfOk result (λ image. image.code ≡ start_cell ∷ (copied_cells cells.now ++ finish ∷ [])) }
{
    let row = copy_row(alloc, cells)?;
    let main = line(alloc, &row)?;
    let noted = link(alloc, main, Vec::new(alloc), Vec::new(alloc))?;
    Ok(noted.into_parts().0)
}

/// Instructions in a row, as a fragment.
fn line(alloc: Global, row: &[Cell]) -> Result<Piece, NoMemory>
    requires { All IsPlainCell row.now }
    ensures { IfOk result (λ piece. piece ≡ unmarked (map own_symbol row.now)) }
{
    let mut piece = empty(alloc);
    for cell in row.iter().copied() {
        piece = seq(piece, plain(alloc, cell)?)?;
    }
    Ok(piece)
}

/// The instructions of the copy code.
fn copy_row(alloc: Global, cells: &[u32]) -> Result<Vec<Cell>, NoMemory>
    requires { length cells.now ≤ MOST_COPIED }
    ensures row { IfOk result (λ row. row.items ≡ copied_cells cells.now) }
    ensures plain { IfOk result (λ row. All IsPlainCell row.items) }
{
    let mut row = Vec::new(alloc);
    put_find(&mut row)?;
    put_copies(&mut row, cells)?;
    put_ending(&mut row, cells.len() as u32)?;
    Ok(row)
}

fn put_find(row: &mut Vec<Cell>) -> Result<(), NoMemory>
    ensures { OnOk result (row.new.items ≡ row.old.items ++ find_cells) }
{
    row.push(addi(AT, END_CELL))?;
    row.push(exch(WORD, AT))?;
    row.push(add(BEHIND, WORD))?;
    row.push(exch(WORD, AT))?;
    row.push(addi(AT, wrap_sub(0, END_CELL)))?;
    Ok(())
}

fn put_copies(row: &mut Vec<Cell>, cells: &[u32]) -> Result<(), NoMemory>
    ensures { OnOk result (row.new.items ≡ row.old.items ++ copies cells.now) }
{
    for cell in cells.iter().copied() {
        put_copy(row, cell)?;
    }
    Ok(())
}

fn put_copy(row: &mut Vec<Cell>, cell: u32) -> Result<(), NoMemory>
    ensures { OnOk result (row.new.items ≡ row.old.items ++ copy_one cell) }
{
    row.push(addi(AT, cell))?;
    row.push(exch(WORD, AT))?;
    row.push(exch(COPY, BEHIND))?;
    row.push(xor(COPY, WORD))?;
    row.push(exch(COPY, BEHIND))?;
    row.push(exch(WORD, AT))?;
    row.push(addi(AT, wrap_sub(0, cell)))?;
    row.push(addi(BEHIND, 1))?;
    Ok(())
}

fn put_ending(row: &mut Vec<Cell>, count: u32) -> Result<(), NoMemory>
    ensures { OnOk result (row.new.items ≡ row.old.items ++ ending_cells count) }
{
    row.push(addi(BEHIND, wrap_sub(0, count)))?;
    row.push(addi(AT, END_CELL))?;
    row.push(exch(WORD, AT))?;
    row.push(sub(BEHIND, WORD))?;
    row.push(exch(WORD, AT))?;
    row.push(addi(AT, wrap_sub(0, END_CELL)))?;
    Ok(())
}
