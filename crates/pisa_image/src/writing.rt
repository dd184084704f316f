// Writes images.
ghost use Rattle.std.specs.Prelude.{◌≡◌, ◌≤◌, ◌++◌, OnOk, Ok, All, length, IfOk};
ghost use Rattle.std.specs.List.{flat_map};
ghost use Rattle.pisa_isa.specs.rpp_words.Words.{IsWord};
ghost use Rattle.pisa_image.specs.Numbers.{word_bytes, words_bytes};
ghost use Rattle.pisa_image.specs.ImageBytes.{cell_bytes, image_bytes};
ghost use Rattle.pisa_image.specs.Reading.{image_at};

use crate::note_writing::add_notes;
use crate::reading::VERSION;
use crate::rows::number_of;
use pisa_isa::{Cell, NoMemory, Noted};
use std::alloc::{AllocError, Global};

/// Puts the four bytes of a number at the end, the lowest first.
pub fn add_word(bytes: &mut Vec<u8>, word: u32) -> Result<(), AllocError>
    ensures { OnOk result (bytes.new.items ≡ bytes.old.items ++ word_bytes word) }
{
    bytes.extend_from_slice(&word.to_le_bytes())
}

/// The eight bytes of a code cell.
fn add_cell(bytes: &mut Vec<u8>, cell: &Cell) -> Result<(), AllocError>
    ensures { OnOk result (bytes.new.items ≡ bytes.old.items ++ cell_bytes cell.now) }
{
    bytes.extend_from_slice(&[number_of(cell.op), cell.a, cell.b, cell.c])?;
    add_word(bytes, cell.imm)
}

fn add_cells(bytes: &mut Vec<u8>, code: &[Cell]) -> Result<(), AllocError>
    ensures { OnOk result (bytes.new.items ≡ bytes.old.items ++ flat_map cell_bytes code.now) }
{
    for cell in code {
        add_cell(bytes, cell)?;
    }
    Ok(())
}

/// Puts the bytes of these numbers at the end.
pub fn add_words(bytes: &mut Vec<u8>, words: &[u32]) -> Result<(), AllocError>
    ensures bytes { OnOk result (bytes.new.items ≡ bytes.old.items ++ words_bytes words.now) }
    ensures words { All IsWord words.now }
{
    for word in words {
        add_word(bytes, *word)?;
    }
    Ok(())
}

/// The bytes of an image: `RPPI`, the version, the numbers of code cells and of static cells, the
/// code cells of eight bytes each, and the static cells of four. Then its notes: the number of
/// marks and the marks of twelve bytes each, the number of names, and for each its cell, its length
/// and its bytes.
pub fn write_image(alloc: Global, noted: &Noted) -> Result<Vec<u8>, NoMemory>
    ensures bytes { IfOk result (λ bytes. bytes.items ≡ image_bytes noted.now) }
    // They are read as the image with its notes.
    ensures reads_back { IfOk result (λ bytes. image_at bytes.items ≡ Ok noted.now) }
{
    let image = noted.image();
    let notes = noted.notes();
    let code = image.code();
    let statics = image.statics();
    let mut bytes = Vec::with_capacity(alloc, 16 + 8 * code.len() + 4 * statics.len())?;
    bytes.extend_from_slice(b"RPPI")?;
    add_word(&mut bytes, VERSION)?;
    add_word(&mut bytes, code.len() as u32)?;
    add_word(&mut bytes, statics.len() as u32)?;
    add_cells(&mut bytes, code)?;
    add_words(&mut bytes, statics)?;
    add_notes(&mut bytes, notes)?;
    Ok(bytes)
}
