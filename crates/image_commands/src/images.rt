// `asm T IMG`, `list IMG T` and `flip IMG IMG2`: images, from their texts and files and to them.
ghost use Rattle.std.specs.Prelude.{◌≡◌, ◌≤◌, [], ◌∷◌, length, Ok, IfOk, IfSome};
ghost use Rattle.image_inverter.specs.pisa_isa.Notes.{flipped_noted};
ghost use Rattle.command_plan.specs.pisa_image.Reading.{image_at};
ghost use Rattle.command_plan.specs.pisa_asm.declared.assembler.TheConstants.{MOST_TEXT};
ghost use Rattle.command_plan.specs.pisa_asm.Passes.{noted_of_text};
ghost use Rattle.command_plan.specs.Plans.{planned, GivesPlan};
ghost use Rattle.image_commands.specs.ImagePlans.{IsAsmPlan, IsListPlan, IsFlipPlan, AssemblesFile, ListsFile, FlipsFile};
ghost use Rattle.command_plan.specs.declared.reading.TheConstants.{MOST_IMAGE};
ghost use Rattle.command_plan.specs.Files.{OnlyReads, assembly, image_file};

use command_plan::{
    AsmError, ImageError, MOST_IMAGE, MOST_TEXT, NoPlan, Plan, Shelf, Verdict, asm_line, assemble,
    cells_line, image_line, read_file, read_image, write_as, write_image,
};
use image_inverter::{NoMemory, Noted};
use std::alloc::Global;

/// Assembles the text in a file into an image file.
pub fn asm<S: Shelf>(alloc: Global, shelf: &mut S, text: &str, image: &str) -> Result<Plan, NoPlan>
    ensures plan { GivesPlan (S.texts shelf.old) (AssemblesFile text.now image.now) result }
    ensures reads { OnlyReads (S.texts shelf.old) (S.texts shelf.new) (S.faults shelf.old)
        (S.faults shelf.new) (assembly text.now ∷ []) result }
{
    let bytes = read_file(alloc, shelf, text, MOST_TEXT as u64)?;
    Ok(asm_text(alloc, &bytes, image)?)
}

fn asm_text(alloc: Global, text: &[u8], name: &str) -> Result<Plan, NoMemory>
    requires { length text.now ≤ MOST_TEXT }
    ensures { IfOk result (λ plan. IsAsmPlan (noted_of_text text.now) name.now (planned plan)) }
{
    match assemble(alloc, text) {
        Ok(noted) => write_as(alloc, "assembled", name, &noted),
        Err(AsmError::NoMemory) => Err(NoMemory),
        Err(e) => Ok(Plan::prints(Verdict::ImageRefused, asm_line(alloc, e)?)),
    }
}

/// Writes the listing of the image in a file.
pub fn list<S: Shelf>(alloc: Global, shelf: &mut S, image: &str, text: &str) -> Result<Plan, NoPlan>
    ensures plan { GivesPlan (S.texts shelf.old) (ListsFile image.now text.now) result }
    ensures reads { OnlyReads (S.texts shelf.old) (S.texts shelf.new) (S.faults shelf.old)
        (S.faults shelf.new) (image_file image.now ∷ []) result }
{
    let bytes = read_file(alloc, shelf, image, MOST_IMAGE as u64)?;
    Ok(list_bytes(alloc, &bytes, text)?)
}

fn list_bytes(alloc: Global, bytes: &[u8], name: &str) -> Result<Plan, NoMemory>
    ensures { IfOk result (λ plan. IsListPlan (image_at bytes.now) name.now (planned plan)) }
{
    match read_image(alloc, bytes) {
        Ok(noted) => write_listing(alloc, &noted, name),
        Err(ImageError::NoMemory) => Err(NoMemory),
        Err(e) => Ok(Plan::prints(Verdict::ImageRefused, image_line(alloc, e)?)),
    }
}

fn write_listing(alloc: Global, noted: &Noted, name: &str) -> Result<Plan, NoMemory>
    ensures { IfOk result (λ plan. IsListPlan (Ok noted.now) name.now (planned plan)) }
{
    let listing = command_plan::list(alloc, noted)?;
    let text = cells_line(alloc, "listed", noted.image().code())?;
    Ok(Plan::writes(String::from_str(alloc, name)?, listing.into_bytes(), text))
}

/// Writes the inverse image of the image in a file.
pub fn flip<S: Shelf>(
    alloc: Global,
    shelf: &mut S,
    image: &str,
    flipped: &str,
) -> Result<Plan, NoPlan>
    ensures plan { GivesPlan (S.texts shelf.old) (FlipsFile image.now flipped.now) result }
    ensures reads { OnlyReads (S.texts shelf.old) (S.texts shelf.new) (S.faults shelf.old)
        (S.faults shelf.new) (image_file image.now ∷ []) result }
{
    let bytes = read_file(alloc, shelf, image, MOST_IMAGE as u64)?;
    Ok(flip_bytes(alloc, &bytes, flipped)?)
}

fn flip_bytes(alloc: Global, bytes: &[u8], name: &str) -> Result<Plan, NoMemory>
    ensures { IfOk result (λ plan. IsFlipPlan (image_at bytes.now) name.now (planned plan)) }
{
    match read_image(alloc, bytes) {
        Ok(noted) => write_flipped(alloc, &noted, name),
        Err(ImageError::NoMemory) => Err(NoMemory),
        Err(e) => Ok(Plan::prints(Verdict::ImageRefused, image_line(alloc, e)?)),
    }
}

fn write_flipped(alloc: Global, noted: &Noted, name: &str) -> Result<Plan, NoMemory>
    ensures { IfOk result (λ plan. IsFlipPlan (Ok noted.now) name.now (planned plan)) }
{
    let flipped = flipped(alloc, noted)?;
    let bytes = write_image(alloc, &flipped)?;
    let text = cells_line(alloc, "flipped", noted.image().code())?;
    Ok(Plan::writes(String::from_str(alloc, name)?, bytes, text))
}

// The inverse image, with its debug information reversed.
fn flipped(alloc: Global, noted: &Noted) -> Result<Noted, NoMemory>
    ensures { IfOk result (λ turned. turned ≡ flipped_noted noted.now) }
{
    let image = noted.image();
    let turned = image_inverter::flip(alloc, image)?;
    let notes = noted.notes().turned(alloc, image.code().len() as u32)?;
    Ok(Noted::seal(turned, notes))
}
