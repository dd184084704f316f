// Flips an image.
ghost use Rattle.std.specs.Prelude.{◌≡◌, length, map, reverse, vec_len, IfOk};
ghost use Rattle.pisa_isa.specs.Table.{inverse_of};
ghost use Rattle.pisa_isa.specs.Flipped.{flipped_image};
ghost use Rattle.image_inverter.specs.Leading.{LeadsBack};

use pisa_isa::{Cell, Image, NoMemory};
use std::alloc::{AllocError, Global};

/// The inverse image: the code in reverse order, each cell replaced by its inverse, with the same
/// static cells. So START and FINISH change places, each offset is negated, and DATA cells stay.
/// This is program inversion on reversible machine code (Axelsen, Glück and Yokoyama).
pub fn flip(alloc: Global, image: &Image) -> Result<Image, NoMemory>
    // What it is.
    ensures flipped { IfOk result (λ turned. turned ≡ flipped_image image.now) }
    // Flipping it again gives the image.
    ensures twice { IfOk result (λ turned. flipped_image turned ≡ image.now) }
    // If a run of the image finishes cleanly, that of the flipped one leads back.
    ensures restores { IfOk result (λ turned. LeadsBack image.now.code turned.code) }
{
    let code = flipped_code(alloc, image.code())?;
    let statics = image.statics().to_vec(alloc)?;
    match Image::seal(code, statics) {
        Ok(turned) => Ok(turned),
        Err(_refusal) => unreachable!(),
    }
}

/// The inverse cells in reverse order.
fn flipped_code(alloc: Global, code: &[Cell]) -> Result<Vec<Cell>, AllocError>
    ensures code { IfOk result (λ cells. cells.items ≡ map inverse_of (reverse code.now)) }
    ensures len { IfOk result (λ cells. vec_len cells ≡ length cells.items) }
{
    let mut cells = Vec::with_capacity(alloc, code.len())?;
    for cell in code.iter().rev().copied() {
        cells.push(cell.inverse())?;
    }
    Ok(cells)
}
