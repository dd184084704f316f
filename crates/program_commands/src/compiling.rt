// `compile F IMG`: writes the image of a program.
ghost use Rattle.std.specs.Prelude.{◌≤◌, [], ◌∷◌, length, IfOk, IfSome};
ghost use Rattle.command_plan.specs.rpp_tree.Views.{source_of};
ghost use Rattle.command_plan.specs.rpp_tree.declared.limits.TheConstants.{MOST_BYTES};
ghost use Rattle.command_plan.specs.Plans.{planned, GivesPlan};
ghost use Rattle.program_commands.specs.ProgramPlans.{IsCompilePlan, WritesImage, CompilesFile};
ghost use Rattle.command_plan.specs.Files.{OnlyReads, source_file};

use command_plan::{NoPlan, Plan, read_file, refuse_source, write_as};
use image_inverter::NoMemory;
use program_runs::limits::MOST_BYTES;
use program_runs::{Shelf, SourceError, compile, judge};
use std::alloc::Global;
use store_report::Checked;

/// Compiles the source in a file into an image file.
pub fn compile_file<S: Shelf>(
    alloc: Global,
    shelf: &mut S,
    file: &str,
    image: &str,
) -> Result<Plan, NoPlan>
    ensures plan { GivesPlan (S.texts shelf.old) (CompilesFile file.now image.now) result }
    ensures reads { OnlyReads (S.texts shelf.old) (S.texts shelf.new) (S.faults shelf.old)
        (S.faults shelf.new) (source_file file.now ∷ []) result }
{
    let text = read_file(alloc, shelf, file, MOST_BYTES as u64)?;
    Ok(compile_text(alloc, &text, image)?)
}

fn compile_text(alloc: Global, text: &[u8], name: &str) -> Result<Plan, NoMemory>
    requires { length text.now ≤ MOST_BYTES }
    ensures { IfOk result (λ plan. IsCompilePlan text.now name.now (planned plan)) }
{
    match judge(alloc, text) {
        Ok(checked) => write_image(alloc, &checked, name),
        Err(SourceError::Refused { number, at }) => Ok(refuse_source(alloc, number, at)?),
        Err(SourceError::NoMemory) => Err(NoMemory),
    }
}

// The plan that writes the image of an accepted program.
fn write_image(alloc: Global, checked: &Checked, name: &str) -> Result<Plan, NoMemory>
    ensures { IfOk result (λ plan. WritesImage (source_of checked.now) name.now (planned plan)) }
{
    let noted = compile(alloc, checked)?;
    write_as(alloc, "compiled", name, &noted)
}
