// `go F H D STEPS [INPUT]`: compiles a program, runs its image and reports.
ghost use Rattle.std.specs.Prelude.{◌≡◌, ◌≤◌, ◌<◌, ◌+◌, ◌^◌, ◌∷◌, length, option_map, IfOk, IfErr, IfSome, string_bytes};
ghost use Rattle.command_plan.specs.rpp_tree.Views.{source_of};
ghost use Rattle.command_plan.specs.rpp_tree.declared.limits.TheConstants.{MOST_BYTES};
ghost use Rattle.command_plan.specs.pisa_loader.declared.input.TheConstants.{MOST_INPUT};
ghost use Rattle.command_plan.specs.Plans.{planned, GivesPlan};
ghost use Rattle.program_runs.specs.Reports.{ReportsStore};
ghost use Rattle.program_commands.specs.ProgramPlans.{RunsImage, ReportsStop};
ghost use Rattle.program_commands.specs.RunPlans.{IsGoPlan, RunGoesOn};
ghost use Rattle.program_commands.specs.GoRun.{IsLoaded, HasRun};
ghost use Rattle.command_plan.specs.Files.{OnlyReads, UnreadCause, source_file, input_files};

use command_plan::{
    NoPlan, Plan, Sizes, Verdict, read_given, report_bound, report_fault, with_steps,
};
use image_inverter::{NoMemory, Stop};
use program_runs::{Ready, RunSetting, Shelf, compiled_image, load, ready};
use std::alloc::Global;
use std::sync::ledger::Ledger;
use store_report::{Machine, RunEnd, Steps, report};

/// Compiles a file, runs the image on an input if there is one, and reports. It makes the steps
/// of that run and no others, and none if a file cannot be read.
pub fn go<S: Shelf, L: Ledger>(
    alloc: Global,
    shelf: &mut S,
    file: &str,
    input: &Option<String>,
    sizes: Sizes,
    steps: &mut Steps<L>,
) -> Result<Plan, NoPlan>
    requires { sizes.bound < 2 ^ 63 }
    ensures plan { GivesPlan (S.texts shelf.old) (RunGoesOn steps.old steps.new file.now
        (option_map string_bytes input.now) sizes) result }
    ensures within { steps.new ≤ steps.old + sizes.bound }
    ensures unread { IfErr result (UnreadCause (steps.new ≡ steps.old)) }
    ensures reads { OnlyReads (S.texts shelf.old) (S.texts shelf.new) (S.faults shelf.old)
        (S.faults shelf.new)
        (source_file file.now ∷ input_files (option_map string_bytes input.now)) result }
{
    let given = read_given(alloc, shelf, file, input)?;
    Ok(go_over(alloc, &given.text, &given.input, sizes, steps)?)
}

fn go_over<L: Ledger>(
    alloc: Global,
    text: &[u8],
    given: &[u8],
    sizes: Sizes,
    steps: &mut Steps<L>,
) -> Result<Plan, NoMemory>
    requires text { length text.now ≤ MOST_BYTES }
    requires given { length given.now ≤ MOST_INPUT }
    requires bound { sizes.bound < 2 ^ 63 }
    ensures plan { IfOk result (λ plan. IsGoPlan steps.old steps.new text.now given.now
        sizes (planned plan)) }
    ensures within { steps.new ≤ steps.old + sizes.bound }
{
    match ready(alloc, text, given, sizes)? {
        Ready::Refused(plan) => Ok(plan),
        Ready::Runs(setting) => run_program(alloc, &setting, steps),
    }
}

/// The image of the program, loaded with the input.
pub fn loaded_program(alloc: Global, setting: &RunSetting) -> Result<Machine, NoMemory>
    ensures { IfOk result (λ machine. IsLoaded (source_of setting.now.checked) setting.now.limits
        setting.now.input.words.items machine) }
{
    let image = compiled_image(alloc, &setting.checked)?;
    Ok(load(alloc, image, setting.limits, &setting.input)?)
}

// Loads the image of a program with an input, runs it and reports.
fn run_program<L: Ledger>(
    alloc: Global,
    setting: &RunSetting,
    steps: &mut Steps<L>,
) -> Result<Plan, NoMemory>
    ensures plan { IfOk result (λ plan. RunsImage steps.old steps.new
        (source_of setting.now.checked) setting.now.limits setting.now.input.words.items
        setting.now.bound (planned plan)) }
    ensures within { steps.new ≤ steps.old + setting.now.bound }
{
    let mut machine = loaded_program(alloc, setting)?;
    let end = machine.run(setting.bound, steps);
    report_run(alloc, setting, &machine, end)
}

/// The plan of a run that ended.
pub fn report_run(
    alloc: Global,
    setting: &RunSetting,
    machine: &Machine,
    end: RunEnd,
) -> Result<Plan, NoMemory>
    requires { HasRun (source_of setting.now.checked) setting.now.limits
        setting.now.input.words.items setting.now.bound machine.now end.stop end.spent }
    ensures { IfOk result (λ plan. ReportsStop end.stop (source_of setting.now.checked)
        setting.now.limits setting.now.input.words.items end.spent setting.now.bound
        (planned plan)) }
{
    match end.stop {
        Stop::Finished => report_store(alloc, setting, machine, end.spent),
        Stop::Trap(code) => Ok(report_fault(alloc, code, end.spent)?),
        Stop::Bound => Ok(report_bound(alloc, setting.bound)?),
        Stop::Returned => unreachable!(),
        Stop::BadAddress(_) => unreachable!(),
        Stop::OffCode(_) => unreachable!(),
    }
}

// The plan of a run that finished.
fn report_store(
    alloc: Global,
    setting: &RunSetting,
    machine: &Machine,
    spent: u64,
) -> Result<Plan, NoMemory>
    requires { HasRun (source_of setting.now.checked) setting.now.limits
        setting.now.input.words.items setting.now.bound machine.now Stop.Finished spent }
    ensures { IfOk result (λ plan. ReportsStore (source_of setting.now.checked)
        setting.now.limits setting.now.input.words.items spent (planned plan)) }
{
    let lines = report(alloc, machine, &setting.checked)?;
    let text = with_steps(lines, spent)?;
    Ok(Plan::prints(Verdict::Done, text))
}
