// `check F`: accepts or refuses a source.
ghost use Rattle.std.specs.Prelude.{◌≤◌, [], ◌∷◌, length, IfOk, IfSome};
ghost use Rattle.command_plan.specs.rpp_tree.declared.limits.TheConstants.{MOST_BYTES};
ghost use Rattle.command_plan.specs.Plans.{planned, GivesPlan};
ghost use Rattle.program_commands.specs.ProgramPlans.{IsCheckPlan, ChecksFile};
ghost use Rattle.command_plan.specs.Files.{OnlyReads, source_file};

use command_plan::{NoPlan, Plan, Verdict, read_file, refuse_source};
use image_inverter::NoMemory;
use program_runs::limits::MOST_BYTES;
use program_runs::{Shelf, SourceError, judge};
use std::alloc::Global;

/// Checks the source in a file.
pub fn check<S: Shelf>(alloc: Global, shelf: &mut S, file: &str) -> Result<Plan, NoPlan>
    ensures plan { GivesPlan (S.texts shelf.old) (ChecksFile file.now) result }
    ensures reads { OnlyReads (S.texts shelf.old) (S.texts shelf.new) (S.faults shelf.old)
        (S.faults shelf.new) (source_file file.now ∷ []) result }
{
    let text = read_file(alloc, shelf, file, MOST_BYTES as u64)?;
    Ok(check_text(alloc, &text)?)
}

fn check_text(alloc: Global, text: &[u8]) -> Result<Plan, NoMemory>
    requires { length text.now ≤ MOST_BYTES }
    ensures { IfOk result (λ plan. IsCheckPlan text.now (planned plan)) }
{
    match judge(alloc, text) {
        Ok(_checked) => Ok(Plan::prints(Verdict::Done, String::from_str(alloc, "accepted\n")?)),
        Err(SourceError::Refused { number, at }) => Ok(refuse_source(alloc, number, at)?),
        Err(SourceError::NoMemory) => Err(NoMemory),
    }
}
