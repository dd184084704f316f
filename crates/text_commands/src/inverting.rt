// `show-inverse F OUT`: writes the inverse of a program.
ghost use Rattle.std.specs.Prelude.{◌≡◌, ◌≤◌, [], ◌∷◌, length, IfOk, IfSome};
ghost use Rattle.roopl_judge.specs.rpp_tree.Views.{source_of};
ghost use Rattle.roopl_judge.specs.rpp_tree.declared.limits.TheConstants.{MOST_BYTES};
ghost use Rattle.meaning_inverse.specs.inverse_rules.Inverse.{inverse_program};
ghost use Rattle.roopl_printer.specs.Spelled.{printed};
ghost use Rattle.command_plan.specs.Plans.{planned, GivesPlan};
ghost use Rattle.command_plan.specs.Files.{OnlyReads, source_file};
ghost use Rattle.text_commands.specs.TextPlans.{writes_text, IsInversePlan, ShowsInverse};

use crate::writing::write_text;
use command_plan::limits::MOST_BYTES;
use command_plan::{NoMemory, NoPlan, Plan, Shelf, read_file, refuse_source};
use roopl_judge::{Checked, SourceError, judge};
use roopl_printer::print;
use std::alloc::Global;
use stmt_inverter::invert_program;

/// Checks the source in a file, and writes the text of its inverse program into another.
pub fn show_inverse<S: Shelf>(
    alloc: Global,
    shelf: &mut S,
    file: &str,
    out: &str,
) -> Result<Plan, NoPlan>
    ensures plan { GivesPlan (S.texts shelf.old) (ShowsInverse file.now out.now) result }
    ensures reads { OnlyReads (S.texts shelf.old) (S.texts shelf.new) (S.faults shelf.old)
        (S.faults shelf.new) (source_file file.now ∷ []) result }
{
    let text = read_file(alloc, shelf, file, MOST_BYTES as u64)?;
    Ok(invert_text(alloc, &text, out)?)
}

fn invert_text(alloc: Global, text: &[u8], name: &str) -> Result<Plan, NoMemory>
    requires { length text.now ≤ MOST_BYTES }
    ensures { IfOk result (λ plan. IsInversePlan text.now name.now (planned plan)) }
{
    match judge(alloc, text) {
        Ok(checked) => write_inverse(alloc, &checked, name),
        Err(SourceError::Refused { number, at }) => Ok(refuse_source(alloc, number, at)?),
        Err(SourceError::NoMemory) => Err(NoMemory),
    }
}

// The plan that writes the text of the inverse of an accepted program.
fn write_inverse(alloc: Global, checked: &Checked, name: &str) -> Result<Plan, NoMemory>
    ensures { IfOk result (λ plan. planned plan
        ≡ writes_text name.now (printed (inverse_program (source_of checked.now)))) }
{
    let inverse = invert_program(alloc, checked.program())?;
    let text = print(alloc, &inverse)?;
    write_text(alloc, name, text)
}
