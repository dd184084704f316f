// `profile F H D STEPS`: what `go` does, as probes watch, and then their lines.
ghost use Rattle.std.specs.Prelude.{◌≡◌, ◌⊎◌, ◌≤◌, ◌<◌, ◌+◌, ◌^◌, ◌++◌, [], ◌∷◌, length, map, IfOk, IfErr, OnOk, string_bytes};
ghost use Rattle.command_plan.specs.rpp_tree.Views.{source_of};
ghost use Rattle.command_plan.specs.rpp_tree.declared.limits.TheConstants.{MOST_BYTES};
ghost use Rattle.command_plan.specs.rpp_probes.Tally.{lines_shown, watch_line};
ghost use Rattle.command_plan.specs.Plans.{planned, GivesPlan};
ghost use Rattle.command_plan.specs.Files.{OnlyReads, UnreadCause, source_file};
ghost use Rattle.program_commands.specs.RunPlans.{IsProfilePlan, ProfilesFile, ProfilesImage};
ghost use Rattle.program_commands.specs.ToldShort.{ProfilesShort, IsProfileShort, ProfilesFileShort};

use crate::going::{loaded_program, report_run};
use command_plan::{NoPlan, Plan, Sizes, read_file};
use image_inverter::NoMemory;
use program_runs::limits::MOST_BYTES;
use program_runs::{Ready, RunSetting, Shelf, ready};
use std::alloc::{AllocError, Global};
use std::sync::ledger::Ledger;
use store_report::{Probes, Steps};

/// Compiles a file, runs the image, lets the probes observe each counted step, and reports. Shows
/// the lines of the probes that ended, in the order of their ends, and then those of the others. It
/// makes the steps of that run and no others, and none if the file cannot be read.
pub fn profile<S: Shelf, P: Probes, L: Ledger>(
    alloc: Global,
    shelf: &mut S,
    file: &str,
    sizes: Sizes,
    probes: &mut P,
    steps: &mut Steps<L>,
) -> Result<Plan, NoPlan>
    requires { sizes.bound < 2 ^ 63 }
    ensures plan { GivesPlan (S.texts shelf.old)
        (ProfilesFile (P.watches probes.old) (P.watches probes.new) steps.old steps.new file.now
        sizes) result }
    ensures within { steps.new ≤ steps.old + sizes.bound }
    ensures unread { IfErr result (UnreadCause (steps.new ≡ steps.old)) }
    ensures reads { OnlyReads (S.texts shelf.old) (S.texts shelf.new) (S.faults shelf.old)
        (S.faults shelf.new) (source_file file.now ∷ []) result }
    ensures untold { IfErr result (UnreadCause (P.watches probes.new ≡ P.watches probes.old)) }
    ensures short { IfErr result (λ _. ProfilesFileShort (P.watches probes.old)
        (P.watches probes.new) file.now sizes
        (S.texts shelf.old)) }
{
    let text = read_file(alloc, shelf, file, MOST_BYTES as u64)?;
    Ok(profile_text(alloc, &text, sizes, probes, steps)?)
}

fn profile_text<P: Probes, L: Ledger>(
    alloc: Global,
    text: &[u8],
    sizes: Sizes,
    probes: &mut P,
    steps: &mut Steps<L>,
) -> Result<Plan, NoMemory>
    requires text { length text.now ≤ MOST_BYTES }
    requires bound { sizes.bound < 2 ^ 63 }
    ensures plan { IfOk result (λ plan. IsProfilePlan (P.watches probes.old) (P.watches probes.new)
        steps.old steps.new text.now [] sizes
        (planned plan)) }
    ensures within { steps.new ≤ steps.old + sizes.bound }
    ensures short { IfErr result (λ _. IsProfileShort (P.watches probes.old) (P.watches probes.new)
        text.now [] sizes) }
{
    match ready(alloc, text, &[], sizes)? {
        Ready::Refused(plan) => Ok(plan),
        Ready::Runs(setting) => profile_program(alloc, &setting, probes, steps),
    }
}

// Loads the image of a program, runs it as probes watch, and reports.
fn profile_program<P: Probes, L: Ledger>(
    alloc: Global,
    setting: &RunSetting,
    probes: &mut P,
    steps: &mut Steps<L>,
) -> Result<Plan, NoMemory>
    ensures plan { IfOk result (λ plan.
        ProfilesImage (P.watches probes.old) (P.watches probes.new) steps.old steps.new
        (source_of setting.now.checked) setting.now.limits setting.now.input.words.items
        setting.now.bound (planned plan)) }
    ensures within { steps.new ≤ steps.old + setting.now.bound }
    ensures short { IfErr result (λ _. (P.watches probes.new ≡ P.watches probes.old)
        ⊎ ProfilesShort (P.watches probes.old) (P.watches probes.new)
        (source_of setting.now.checked) setting.now.limits setting.now.input.words.items
        setting.now.bound) }
{
    let mut machine = loaded_program(alloc, setting)?;
    let mut lines = Vec::new(alloc);
    let end = machine.run_told(alloc, setting.bound, probes, &mut lines, steps)?;
    let said = report_run(alloc, setting, &machine, end)?;
    with_probes(said, &lines, probes)
}

// The plan with the lines of the probes after its text, those of the probes that ended first.
fn with_probes<P: Probes>(said: Plan, ended: &[String], probes: &P) -> Result<Plan, NoMemory>
    ensures { IfOk result (λ plan. planned plan ≡ record (planned said) {
      text = (string_bytes said.text ++ lines_shown (map string_bytes ended.now))
          ++ lines_shown (map watch_line (P.watches probes.now));
    }) }
{
    let mut plan = said;
    add_lines(ended, &mut plan.text)?;
    probes.show(&mut plan.text)?;
    Ok(plan)
}

// Appends lines, each with a line feed.
fn add_lines(lines: &[String], out: &mut String) -> Result<(), AllocError>
    ensures { OnOk result (string_bytes out.new
        ≡ string_bytes out.old ++ lines_shown (map string_bytes lines.now)) }
{
    for line in lines {
        out.push_str(line.as_str())?;
        out.push('\n')?;
    }
    Ok(())
}
