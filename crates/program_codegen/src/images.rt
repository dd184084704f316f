// The image of a program.
ghost use Rattle.std.specs.Prelude.{◌≤◌, ◌+◌, ◌*◌, length, IfOk};
ghost use Rattle.refine_program.specs.rpp_tree.Parts.{source_tokens};
ghost use Rattle.refine_program.specs.rpp_tree.Views.{source_of};
ghost use Rattle.refine_program.specs.pisa_isa.Image.{IsImage};
ghost use Rattle.refine_program.specs.roopl_semantics.StandsFor.{StandsFor};
ghost use Rattle.program_codegen.specs.Notes.{HasMarks, AreNotes};

use crate::notes::field_names;
use crate::numbers::{first_routines, routine_number};
use crate::routines::routines;
use crate::statics::statics;
use refine_program::Checked;
use statement_codegen::{NoMemory, Noted, Notes, link, main_code};
use std::alloc::Global;

/// The image of a program, with the cells of each statement and of each int field noted.
/// The only error is that memory ran out.
pub fn compile(alloc: Global, checked: &Checked) -> Result<Noted, NoMemory>
    // On every input, heap and depth the image does what the program does.
    ensures stands { IfOk result (λ noted. StandsFor (source_of checked.now) noted.image) }

    // It keeps the rules of images.
    ensures image { IfOk result (λ noted. IsImage noted.image) }

    // Its code is at most 200 cells for each token of the program, and 8,192.
    ensures size { IfOk result (λ noted. length noted.image.code ≤ 200 * source_tokens
        (source_of checked.now) + 8192) }

    // A mark for each statement of the program, over its code, and the names of the main class's
    // int fields.
    ensures notes { IfOk result (λ noted. AreNotes (source_of checked.now) noted.image noted.notes) }
{
    let (image, notes) = linked(alloc, checked)?.into_parts();
    let table = checked.table();
    let names = field_names(alloc, table.fields(table.main().class))?;
    let marks = notes.marks;
    Ok(Noted::seal(image, Notes { marks, names }))
}

// The image of a program, with its marks only.
fn linked(alloc: Global, checked: &Checked) -> Result<Noted, NoMemory>
    ensures stands { IfOk result (λ noted. StandsFor (source_of checked.now) noted.image) }
    ensures image { IfOk result (λ noted. IsImage noted.image) }
    ensures size { IfOk result (λ noted. length noted.image.code ≤ 200 * source_tokens
        (source_of checked.now) + 8192) }
    ensures marks { IfOk result (λ noted. HasMarks (source_of checked.now) noted.image
        noted.notes.marks) }
{
    let firsts = first_routines(alloc, checked.program())?;
    let main = main_code(alloc, routine_number(&firsts, checked.table().main()))?;
    let routines = routines(alloc, checked)?;
    let statics = statics(alloc, checked, &firsts)?;
    Ok(link(alloc, main, routines, statics)?)
}
