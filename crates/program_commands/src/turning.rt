// `turn F H D STEPS [INPUT]`: what `go` does, and then the inverse image runs from where the run
// finished, as probes watch.
ghost use Rattle.std.specs.Prelude.{◌≡◌, ◌⊎◌, ◌≤◌, ◌<◌, ◌+◌, ◌^◌, ◌++◌, ◌∷◌, length, option_map, IfOk, IfErr, OnOk, string_bytes};
ghost use Rattle.command_plan.specs.rpp_tree.Views.{source_of};
ghost use Rattle.command_plan.specs.rpp_tree.declared.limits.TheConstants.{MOST_BYTES};
ghost use Rattle.command_plan.specs.rpp_probes.Tally.{left_after};
ghost use Rattle.image_inverter.specs.pisa_isa.declared.machine.Stop.TheVariants.{Finished};
ghost use Rattle.image_inverter.specs.pisa_isa.Loaded.{loaded};
ghost use Rattle.command_plan.specs.pisa_loader.declared.input.TheConstants.{MOST_INPUT};
ghost use Rattle.command_plan.specs.Plans.{planned, GivesPlan};
ghost use Rattle.command_plan.specs.Files.{OnlyReads, UnreadCause, source_file, input_files};
ghost use Rattle.program_commands.specs.ProgramPlans.{back_lines};
ghost use Rattle.program_commands.specs.RunPlans.{IsTurnPlan, TurnsFile, TurnsImage, back_steps, steps_back};
ghost use Rattle.program_commands.specs.ToldShort.{IsToldSoFar, TurnsShort, IsTurnShort, TurnsFileShort};
ghost use Rattle.program_commands.specs.GoRun.{HasRun, ReportsTurn, ReportsTurned};
ghost use Rattle.image_inverter.specs.pisa_isa.Flipped.{flipped};
ghost use Rattle.image_inverter.specs.pisa_isa.Runs.{started};

use crate::going::{loaded_program, report_run};
use command_plan::{NoPlan, Plan, Sizes, Verdict, read_given, with_steps};
use image_inverter::{NoMemory, Stop, flip};
use program_runs::{Ready, RunSetting, Shelf, ready};
use std::alloc::{AllocError, Global};
use std::sync::ledger::Ledger;
use store_report::{Machine, Probes, RunEnd, Steps, report};

/// Does what `go` does. After a finish it runs the inverse image from there, lets the probes
/// observe each counted step of that run, and reports again. It prints no line of theirs. It makes
/// the steps of these two runs and no others, and none if a file cannot be read.
pub fn turn<S: Shelf, P: Probes, L: Ledger>(
    alloc: Global,
    shelf: &mut S,
    file: &str,
    input: &Option<String>,
    sizes: Sizes,
    probes: &mut P,
    steps: &mut Steps<L>,
) -> Result<Plan, NoPlan>
    requires { sizes.bound < 2 ^ 63 }
    ensures plan { GivesPlan (S.texts shelf.old)
        (TurnsFile (P.watches probes.old) (P.watches probes.new)
        steps.old steps.new file.now (option_map string_bytes input.now)
        sizes) result }
    ensures within { steps.new ≤ steps.old + (sizes.bound + sizes.bound) }
    ensures unread { IfErr result (UnreadCause (steps.new ≡ steps.old)) }
    ensures reads { OnlyReads (S.texts shelf.old) (S.texts shelf.new) (S.faults shelf.old)
        (S.faults shelf.new)
        (source_file file.now ∷ input_files (option_map string_bytes input.now)) result }
    ensures untold { IfErr result (UnreadCause (P.watches probes.new ≡ P.watches probes.old)) }
    ensures short { IfErr result (λ _. TurnsFileShort (P.watches probes.old) (P.watches probes.new)
        file.now (option_map string_bytes input.now) sizes
        (S.texts shelf.old)) }
{
    let given = read_given(alloc, shelf, file, input)?;
    Ok(turn_over(alloc, &given.text, &given.input, sizes, probes, steps)?)
}

fn turn_over<P: Probes, L: Ledger>(
    alloc: Global,
    text: &[u8],
    given: &[u8],
    sizes: Sizes,
    probes: &mut P,
    steps: &mut Steps<L>,
) -> Result<Plan, NoMemory>
    requires text { length text.now ≤ MOST_BYTES }
    requires given { length given.now ≤ MOST_INPUT }
    requires bound { sizes.bound < 2 ^ 63 }
    ensures plan { IfOk result (λ plan. IsTurnPlan (P.watches probes.old) (P.watches probes.new)
        steps.old steps.new text.now given.now sizes
        (planned plan)) }
    ensures within { steps.new ≤ steps.old + (sizes.bound + sizes.bound) }
    ensures short { IfErr result (λ _. IsTurnShort (P.watches probes.old) (P.watches probes.new)
        text.now given.now sizes) }
{
    match ready(alloc, text, given, sizes)? {
        Ready::Refused(plan) => Ok(plan),
        Ready::Runs(setting) => turn_program(alloc, &setting, probes, steps),
    }
}

// Loads the image of a program with an input, runs it there and back, and reports.
fn turn_program<P: Probes, L: Ledger>(
    alloc: Global,
    setting: &RunSetting,
    probes: &mut P,
    steps: &mut Steps<L>,
) -> Result<Plan, NoMemory>
    ensures plan { IfOk result (λ plan.
        TurnsImage (P.watches probes.old) (P.watches probes.new) steps.old steps.new
        (source_of setting.now.checked) setting.now.limits setting.now.input.words.items
        setting.now.bound (planned plan)) }
    ensures within { steps.new ≤ steps.old + (setting.now.bound + setting.now.bound) }
    ensures short { IfErr result (λ _. (P.watches probes.new ≡ P.watches probes.old)
        ⊎ TurnsShort (P.watches probes.old) (P.watches probes.new) (source_of setting.now.checked)
        setting.now.limits setting.now.input.words.items setting.now.bound) }
{
    let mut machine = loaded_program(alloc, setting)?;
    let end = machine.run(setting.bound, steps);
    report_turn(alloc, setting, machine, end, probes, steps)
}

// The plan of a run that ended, and of the way back where it finished.
fn report_turn<P: Probes, L: Ledger>(
    alloc: Global,
    setting: &RunSetting,
    machine: Machine,
    end: RunEnd,
    probes: &mut P,
    steps: &mut Steps<L>,
) -> Result<Plan, NoMemory>
    requires { HasRun (source_of setting.now.checked) setting.now.limits
        setting.now.input.words.items setting.now.bound machine end.stop end.spent }
    ensures stop { IfOk result (λ plan. ReportsTurned end.stop (source_of setting.now.checked)
        setting.now.limits setting.now.input.words.items
        (loaded machine.image.statics setting.now.limits setting.now.input.words.items) end.spent
        setting.now.bound (planned plan)) }
    ensures counter { OnOk result (steps.new ≡ steps.old + steps_back end.stop end.spent) }
    ensures within { steps.new ≤ steps.old + setting.now.bound }
    ensures told { OnOk result (P.watches probes.new ≡
        left_after (back_steps end.stop machine.image.code machine.state setting.now.bound)
        (P.watches probes.old)) }
    ensures short { IfErr result (λ _. (P.watches probes.new ≡ P.watches probes.old)
        ⊎ ((end.stop ≡ Finished) × IsToldSoFar (flipped machine.image.code) setting.now.bound
        (started (flipped machine.image.code) machine.state.regs machine.state.cells)
        (P.watches probes.old) (P.watches probes.new))) }
{
    match end.stop {
        Stop::Finished => report_both(alloc, setting, machine, end.spent, probes, steps),
        Stop::Trap(_code) => report_run(alloc, setting, &machine, end),
        Stop::Bound => report_run(alloc, setting, &machine, end),
        Stop::Returned => report_run(alloc, setting, &machine, end),
        Stop::BadAddress(_address) => report_run(alloc, setting, &machine, end),
        Stop::OffCode(_at) => report_run(alloc, setting, &machine, end),
    }
}

// The plan of a run that finished, and of the way back.
fn report_both<P: Probes, L: Ledger>(
    alloc: Global,
    setting: &RunSetting,
    machine: Machine,
    spent: u64,
    probes: &mut P,
    steps: &mut Steps<L>,
) -> Result<Plan, NoMemory>
    requires { HasRun (source_of setting.now.checked) setting.now.limits
        setting.now.input.words.items setting.now.bound machine Finished spent }
    ensures turn { IfOk result (λ plan. ReportsTurn (source_of setting.now.checked)
        setting.now.limits setting.now.input.words.items
        (loaded machine.image.statics setting.now.limits setting.now.input.words.items) spent
        (planned plan)) }
    ensures counter { OnOk result (steps.new ≡ steps.old + spent) }
    ensures within { steps.new ≤ steps.old + setting.now.bound }
    ensures told { OnOk result (P.watches probes.new ≡
        left_after (back_steps Finished machine.image.code machine.state setting.now.bound)
        (P.watches probes.old)) }
    ensures short { IfErr result (λ _. (P.watches probes.new ≡ P.watches probes.old)
        ⊎ IsToldSoFar (flipped machine.image.code) setting.now.bound
        (started (flipped machine.image.code) machine.state.regs machine.state.cells)
        (P.watches probes.old) (P.watches probes.new)) }
{
    let there = report(alloc, &machine, &setting.checked)?;
    let text = with_steps(there, spent)?;
    let back = run_back(alloc, setting, machine, spent, probes, steps)?;
    let here = report(alloc, &back.machine, &setting.checked)?;
    let text = with_back(text, back.spent, here.as_str(), back.machine.cells())?;
    Ok(Plan::prints(Verdict::Done, text))
}

// A machine that ran back, and its steps.
#[derive(Drop)]
struct Back {
    machine: Machine,
    spent: u64,
}

// Runs the inverse image from where a run finished, and lets the probes observe its steps.
fn run_back<P: Probes, L: Ledger>(
    alloc: Global,
    setting: &RunSetting,
    machine: Machine,
    _spent: u64,
    probes: &mut P,
    steps: &mut Steps<L>,
) -> Result<Back, NoMemory>
    requires { HasRun (source_of setting.now.checked) setting.now.limits
        setting.now.input.words.items setting.now.bound machine Finished _spent }
    ensures cells { IfOk result (λ back. back.machine.state.cells
        ≡ loaded machine.image.statics setting.now.limits setting.now.input.words.items) }
    ensures spent { IfOk result (λ back. back.spent ≡ _spent) }
    ensures counter { OnOk result (steps.new ≡ steps.old + _spent) }
    ensures within { steps.new ≤ steps.old + setting.now.bound }
    ensures told { OnOk result (P.watches probes.new ≡
        left_after (back_steps Finished machine.image.code machine.state setting.now.bound)
        (P.watches probes.old)) }
    ensures short { IfErr result (λ _. (P.watches probes.new ≡ P.watches probes.old)
        ⊎ IsToldSoFar (flipped machine.image.code) setting.now.bound
        (started (flipped machine.image.code) machine.state.regs machine.state.cells)
        (P.watches probes.old) (P.watches probes.new)) }
{
    let flipped = flip(alloc, machine.image())?;
    let mut machine = machine.with_image(flipped);
    let mut lines = Vec::new(alloc);
    let back = machine.run_told(alloc, setting.bound, probes, &mut lines, steps)?;
    Ok(Back {
        machine,
        spent: back.spent,
    })
}

// A text followed by the lines on the backward run.
fn with_back(text: String, spent: u64, report: &str, cells: u32) -> Result<String, AllocError>
    ensures { IfOk result (λ longer. string_bytes longer
        ≡ string_bytes text ++ back_lines spent report.now cells) }
{
    let mut text = text;
    write!(text, "back {spent}\n{report}restored {cells} cells\n")?;
    Ok(text)
}
