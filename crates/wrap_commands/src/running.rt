// The run of a wrapped image, and its plan.
ghost use Rattle.std.specs.Prelude.{◌≡◌, ◌<◌, ◌≤◌, ◌+◌, ◌^◌, All, IfOk};
ghost use Rattle.command_plan.specs.rpp_tree.Views.{source_of};
ghost use Rattle.command_plan.specs.rpp_words.Limits.{IsLimits};
ghost use Rattle.command_plan.specs.class_rules.Program.{IsAccepted};
ghost use Rattle.program_runs.specs.run_settings.roopl_semantics.Source.{IsValid};
ghost use Rattle.refine_wrap.specs.Programs.{field_cell as cell_of_field};
ghost use Rattle.command_plan.specs.Plans.{planned};
ghost use Rattle.wrap_commands.specs.WrapNames.{HasLowNumber, result_cells};
ghost use Rattle.wrap_commands.specs.WrapPlans.{AreResults, TellsResults, TellsStop, WrapsImage};
ghost use Rattle.wrap_commands.specs.WrapRun.{HasWrapped};

use crate::shown::{add_results, with_initial};
use command_plan::{Plan, Verdict, report_bound, report_fault, with_steps};
use program_runs::{InputField, compiled_image, load_more};
use refine_wrap::wrap_image;
use std::alloc::{AllocError, Global};
use std::sync::ledger::Ledger;
use store_report::memory::FIRST_FIELD;
use store_report::{Checked, Image, Input, Limits, Machine, NoMemory, RunEnd, Steps, Stop};

/// What a wrapped run is made with: the sizes of heap and stack, the input, the fields whose words
/// are its results, and the number of steps.
#[derive(Drop)]
pub(crate) struct WrapSetting {
    pub limits: Limits,
    pub input: Input,
    pub results: Vec<InputField>,
    pub bound: u64,
}

/// Compiles a program, wraps its image, loads that with an input and with cells for the results,
/// runs it and reports how it ended.
pub(crate) fn run_wrapped<L: Ledger>(
    alloc: Global,
    checked: &Checked,
    setting: &WrapSetting,
    steps: &mut Steps<L>,
) -> Result<Plan, NoMemory>
    requires limits { IsLimits setting.now.limits }
    requires valid { IsValid (source_of checked.now) setting.now.input.words.items }
    requires results { AreResults (source_of checked.now) setting.now.results.items }
    requires bound { setting.now.bound < 2 ^ 63 }
    ensures plan { IfOk result (λ plan. WrapsImage steps.old steps.new (source_of checked.now)
        setting.now.results.items setting.now.limits setting.now.input.words.items setting.now.bound
        (planned plan)) }
    ensures within { steps.new ≤ steps.old + setting.now.bound }
{
    is_accepted(checked);
    let image = compiled_image(alloc, checked)?;
    let cells = cells_of(alloc, &setting.results)?;
    let wrapped = wrap_image(alloc, &image, &cells)?;
    let count = cells.len() as u32;
    let mut machine = load_more(alloc, wrapped, setting.limits, &setting.input, count)?;
    let end = machine.run(setting.bound, steps);
    report_run(alloc, checked, setting, &image, &machine, end)
}

/// A checked program is accepted.
pub(crate) fn is_accepted(checked: &Checked)
    ensures { IsAccepted (source_of checked.now) }
{
    checked.program();
}

// The static cells of fields.
fn cells_of(alloc: Global, fields: &[InputField]) -> Result<Vec<u32>, AllocError>
    requires { All HasLowNumber fields.now }
    ensures { IfOk result (λ cells. cells.items ≡ result_cells fields.now) }
{
    let mut cells = Vec::new(alloc);
    for field in fields {
        cells.push(field_cell(field.field))?;
    }
    Ok(cells)
}

// The static cell of a field of the main object.
fn field_cell(field: u32) -> u32
    requires { field < 2 ^ 20 }
    ensures { result ≡ cell_of_field field }
{
    FIRST_FIELD + field
}

// The plan of a wrapped run that ended.
fn report_run(
    alloc: Global,
    _checked: &Checked,
    setting: &WrapSetting,
    _image: &Image,
    machine: &Machine,
    end: RunEnd,
) -> Result<Plan, NoMemory>
    requires { HasWrapped (source_of _checked.now) setting.now.results.items setting.now.limits
        setting.now.input.words.items setting.now.bound
        _image.now machine.now end.stop end.spent }
    ensures { IfOk result (λ plan.
        TellsStop end.stop (source_of _checked.now) _image.now setting.now.results.items
        setting.now.limits setting.now.input.words.items machine.now.state end.spent
        setting.now.bound (planned plan)) }
{
    match end.stop {
        Stop::Finished => report_results(alloc, _checked, setting, _image, machine, end.spent),
        Stop::Trap(code) => Ok(report_fault(alloc, code, end.spent)?),
        Stop::Bound => Ok(report_bound(alloc, setting.bound)?),
        Stop::Returned => unreachable!(),
        Stop::BadAddress(_) => unreachable!(),
        Stop::OffCode(_) => unreachable!(),
    }
}

// The plan of a wrapped run that finished.
fn report_results(
    alloc: Global,
    _checked: &Checked,
    setting: &WrapSetting,
    _image: &Image,
    machine: &Machine,
    spent: u64,
) -> Result<Plan, NoMemory>
    requires { HasWrapped (source_of _checked.now) setting.now.results.items setting.now.limits
        setting.now.input.words.items setting.now.bound
        _image.now machine.now Stop.Finished spent }
    ensures { IfOk result (λ plan.
        TellsResults (source_of _checked.now) _image.now setting.now.results.items
        setting.now.limits setting.now.input.words.items machine.now.state spent (planned plan)) }
{
    let initial = machine.cells() - setting.results.len() as u32;
    let mut lines = String::new(alloc);
    add_results(&mut lines, machine, initial, &setting.results)?;
    let text = with_steps(with_initial(lines, initial)?, spent)?;
    Ok(Plan::prints(Verdict::Done, text))
}
