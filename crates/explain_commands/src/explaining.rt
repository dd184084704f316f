// `explain F H D FUEL [INPUT]`: interprets a program and reports.
ghost use Rattle.std.specs.Prelude.{◌≡◌, ◌≤◌, ◌<◌, ◌^◌, ◌++◌, ◌∷◌, length, option_map, IfOk, string_bytes};
ghost use Rattle.run_settings.specs.rpp_words.Limits.{IsLimits};
ghost use Rattle.run_settings.specs.rpp_tree.Views.{source_of};
ghost use Rattle.run_settings.specs.rpp_tree.declared.limits.TheConstants.{MOST_BYTES};
ghost use Rattle.store_report.specs.roopl_semantics.Source.{IsValid, source as meaning};
ghost use Rattle.store_report.specs.roopl_semantics.Report.{report as report_in};
ghost use Rattle.source_meaning.specs.declared.whole.TheConstants.{MOST_OPEN};
ghost use Rattle.run_settings.specs.pisa_loader.Limiting.{limits_refusal};
ghost use Rattle.run_settings.specs.pisa_loader.declared.input.TheConstants.{MOST_INPUT};
ghost use Rattle.run_settings.specs.command_plan.Plans.{planned, prints, GivesPlan};
ghost use Rattle.run_settings.specs.command_plan.Files.{OnlyReads, source_file, input_files};
ghost use Rattle.run_settings.specs.pisa_scripts.Stops.{fault_line as line_of_fault};
ghost use Rattle.run_settings.specs.Inputs.{given_input};
ghost use Rattle.explain_commands.specs.Explained.{cost_line, explained, Tells, IsExplainedInput, IsExplainedWithin, IsExplainPlan, Explains};

use crate::stores::report_store;
use run_settings::{
    Input, Limits, LoadError, NoMemory, NoPlan, Plan, Shelf, Sizes, SourceError, Verdict,
    check_limits, fault_line, input_fields, judge, load_line, read_given, read_input,
    refuse_source,
};
use source_meaning::{MOST_OPEN, Outcome, Store, interpret};
use std::alloc::{AllocError, Global};
use store_report::Checked;

/// Interprets the program in a file, on an input if there is one, and reports.
pub fn explain<S: Shelf>(
    alloc: Global,
    shelf: &mut S,
    file: &str,
    input: &Option<String>,
    sizes: Sizes,
) -> Result<Plan, NoPlan>
    ensures plan { GivesPlan (S.texts shelf.old)
        (Explains file.now (option_map string_bytes input.now) sizes) result }
    ensures reads { OnlyReads (S.texts shelf.old) (S.texts shelf.new) (S.faults shelf.old)
        (S.faults shelf.new)
        (source_file file.now ∷ input_files (option_map string_bytes input.now)) result }
{
    let given = read_given(alloc, shelf, file, input)?;
    Ok(explain_text(alloc, &given.text, &given.input, sizes)?)
}

fn explain_text(alloc: Global, text: &[u8], given: &[u8], sizes: Sizes) -> Result<Plan, NoMemory>
    requires text { length text.now ≤ MOST_BYTES }
    requires given { length given.now ≤ MOST_INPUT }
    ensures { IfOk result (λ plan. IsExplainPlan text.now given.now sizes (planned plan)) }
{
    match judge(alloc, text) {
        Ok(checked) => explain_within(alloc, &checked, given, sizes),
        Err(SourceError::Refused { number, at }) => Ok(refuse_source(alloc, number, at)?),
        Err(SourceError::NoMemory) => Err(NoMemory),
    }
}

// The sizes of heap and stack are tried before the input.
fn explain_within(
    alloc: Global,
    checked: &Checked,
    given: &[u8],
    sizes: Sizes,
) -> Result<Plan, NoMemory>
    requires { length given.now ≤ MOST_INPUT }
    ensures { IfOk result (λ plan.
        IsExplainedWithin (limits_refusal sizes.room.heap sizes.room.deep MOST_OPEN) given.now
        (source_of checked.now) (record { heap = sizes.room.heap; deep = sizes.room.deep })
        sizes.bound (planned plan)) }
{
    match check_limits(sizes.room.heap, sizes.room.deep, MOST_OPEN) {
        Ok(limits) => explain_given(alloc, checked, given, limits, sizes.bound),
        Err(e) => Ok(Plan::prints(Verdict::InputRefused, load_line(alloc, e)?)),
    }
}

// The input is checked, and then the program is interpreted on it.
fn explain_given(
    alloc: Global,
    checked: &Checked,
    given: &[u8],
    limits: Limits,
    fuel: u64,
) -> Result<Plan, NoMemory>
    requires given { length given.now ≤ MOST_INPUT }
    requires limits { IsLimits limits }
    requires shallow { limits.deep ≤ MOST_OPEN }
    ensures { IfOk result (λ plan. IsExplainedInput (given_input (source_of checked.now) given.now)
        (source_of checked.now) limits fuel (planned plan)) }
{
    let fields = input_fields(alloc, checked)?;
    match read_input(alloc, given, &fields) {
        Ok(input) => explain_run(alloc, checked, &input, limits, fuel),
        Err(LoadError::NoMemory) => Err(NoMemory),
        Err(e) => Ok(Plan::prints(Verdict::InputRefused, load_line(alloc, e)?)),
    }
}

// What the source does is printed.
fn explain_run(
    alloc: Global,
    checked: &Checked,
    input: &Input,
    limits: Limits,
    fuel: u64,
) -> Result<Plan, NoMemory>
    requires valid { IsValid (source_of checked.now) input.now.words.items }
    requires limits { IsLimits limits }
    requires shallow { limits.deep ≤ MOST_OPEN }
    ensures { IfOk result (λ plan. planned plan
        ≡ explained (source_of checked.now)
        (meaning (source_of checked.now) limits input.now.words.items fuel)) }
{
    let outcome = interpret(alloc, checked, input, limits, fuel)?;
    explain_outcome(alloc, checked, outcome)
}

// How the run ended is printed.
fn explain_outcome(alloc: Global, checked: &Checked, outcome: Outcome) -> Result<Plan, NoMemory>
    ensures { IfOk result (λ plan. Tells (source_of checked.now) outcome (planned plan)) }
{
    match outcome {
        Outcome::Done { store, cost } => explain_store(alloc, checked, &store, cost),
        Outcome::Fault { code, cost } => Ok(explain_fault(alloc, code, cost)?),
        Outcome::More => Ok(Plan::prints(Verdict::Bound, String::from_str(alloc, "bound\n")?)),
    }
}

fn explain_store(
    alloc: Global,
    checked: &Checked,
    store: &Store,
    cost: u64,
) -> Result<Plan, NoMemory>
    ensures { IfOk result (λ plan. planned plan
        ≡ prints Verdict.Done (report_in (source_of checked.now) store.now ++ cost_line cost)) }
{
    let text = with_cost(report_store(alloc, store, checked)?, cost)?;
    Ok(Plan::prints(Verdict::Done, text))
}

fn explain_fault(alloc: Global, code: u32, cost: u64) -> Result<Plan, AllocError>
    ensures { IfOk result (λ plan. planned plan
        ≡ prints Verdict.Trapped (line_of_fault code ++ cost_line cost)) }
{
    let text = with_cost(fault_line(alloc, code)?, cost)?;
    Ok(Plan::prints(Verdict::Trapped, text))
}

// Lines, followed by the one on the cost.
fn with_cost(lines: String, cost: u64) -> Result<String, AllocError>
    ensures { IfOk result (λ text. string_bytes text ≡ string_bytes lines ++ cost_line cost) }
{
    let mut text = lines;
    write!(text, "cost {cost}\n")?;
    Ok(text)
}
