// Plans that write an image.
ghost use Rattle.std.specs.Prelude.{◌≡◌, Ok, IfOk, OnOk, string_bytes};
ghost use Rattle.pisa_scripts.specs.pisa_isa.declared.cell.Cell.{Cell};
ghost use Rattle.pisa_loader.specs.pisa_image.ImageBytes.{image_bytes};
ghost use Rattle.pisa_loader.specs.pisa_image.Reading.{image_at};
ghost use Rattle.command_plan.specs.Plans.{planned, writes};
ghost use Rattle.command_plan.specs.Texts.{cells_line as line_of_cells};

use crate::plan::Plan;
use class_table::NoMemory;
use pisa_loader::write_image;
use pisa_scripts::{Cell, Noted};
use std::alloc::{AllocError, Global};

/// The plan that writes an image with its notes, and prints what was done with its cells.
pub fn write_as(alloc: Global, what: &str, name: &str, noted: &Noted) -> Result<Plan, NoMemory>
    ensures plan { IfOk result (λ plan. planned plan
        ≡ writes name.now (image_bytes noted.now) (line_of_cells what.now noted.now.image.code)) }
    ensures reads_back { OnOk result (image_at (image_bytes noted.now) ≡ Ok noted.now) }
{
    let bytes = write_image(alloc, noted)?;
    let text = cells_line(alloc, what, noted.image().code())?;
    Ok(Plan::writes(String::from_str(alloc, name)?, bytes, text))
}

/// The line on what was done with these cells.
pub fn cells_line(alloc: Global, what: &str, code: &[Cell]) -> Result<String, AllocError>
    ensures { IfOk result (λ line. string_bytes line ≡ line_of_cells what.now code.now) }
{
    let count = code.len();
    format!(in alloc; "{what} {count} cells\n")
}
