// `wrap F H D STEPS NAMES [INPUT]`: checks the arguments and the texts that they name.
ghost use Rattle.std.specs.Prelude.{◌≡◌, ◌≤◌, ◌<◌, ◌+◌, ◌^◌, ◌∷◌, length, option_map, IfOk, IfErr, string_bytes};
ghost use Rattle.command_plan.specs.rpp_tree.Views.{source_of};
ghost use Rattle.command_plan.specs.rpp_tree.declared.limits.TheConstants.{MOST_BYTES};
ghost use Rattle.command_plan.specs.rpp_words.Limits.{IsLimits};
ghost use Rattle.command_plan.specs.pisa_loader.Limiting.{limits_refusal};
ghost use Rattle.command_plan.specs.pisa_loader.declared.input.TheConstants.{MOST_INPUT};
ghost use Rattle.command_plan.specs.Files.{OnlyReads, UnreadCause, source_file, input_files};
ghost use Rattle.command_plan.specs.Plans.{planned, GivesPlan};
ghost use Rattle.program_runs.specs.run_settings.Inputs.{input_fields as fields_of, given_input};
ghost use Rattle.wrap_commands.specs.WrapNames.{results_of};
ghost use Rattle.wrap_commands.specs.WrapPlans.{AreResults, IsGivenPlan, IsNamedPlan, IsSizedWrapPlan, IsWrapPlan, WrapsFile};

use crate::error::NamesError;
use crate::names::read_names;
use crate::running::{WrapSetting, is_accepted, run_wrapped};
use crate::shown::refuse_name;
use command_plan::{NoPlan, Plan, Sizes, Verdict, load_line, read_given, refuse_source};
use program_runs::limits::MOST_BYTES;
use program_runs::{
    InputField, LoadError, Shelf, SourceError, check_limits, input_fields, judge, read_input,
};
use std::alloc::Global;
use std::sync::ledger::Ledger;
use store_report::{Checked, Limits, MOST_DEEP, NoMemory, Steps};

// What a program is wrapped with: the names, the text of the input, and the sizes of the run.
#[derive(Drop)]
struct Request {
    names: Vec<u8>,
    input: Vec<u8>,
    sizes: Sizes,
}

/// Compiles a file, wraps the image for the fields with these names, which commas join, runs it on
/// an input if there is one, and reports the results. It makes the steps of that run and no others,
/// and none if a file cannot be read.
pub fn wrap<S: Shelf, L: Ledger>(
    alloc: Global,
    shelf: &mut S,
    file: &str,
    names: &str,
    input: &Option<String>,
    sizes: Sizes,
    steps: &mut Steps<L>,
) -> Result<Plan, NoPlan>
    requires { sizes.bound < 2 ^ 63 }
    ensures plan { GivesPlan (S.texts shelf.old)
        (WrapsFile steps.old steps.new file.now names.now (option_map string_bytes input.now)
        sizes) result }
    ensures within { steps.new ≤ steps.old + sizes.bound }
    ensures unread { IfErr result (UnreadCause (steps.new ≡ steps.old)) }
    ensures reads { OnlyReads (S.texts shelf.old) (S.texts shelf.new) (S.faults shelf.old)
        (S.faults shelf.new)
        (source_file file.now ∷ input_files (option_map string_bytes input.now)) result }
{
    let given = read_given(alloc, shelf, file, input)?;
    let wanted = names.as_bytes().to_vec(alloc)?;
    let request = Request {
        names: wanted,
        input: given.input,
        sizes,
    };
    Ok(wrap_text(alloc, &given.text, &request, steps)?)
}

fn wrap_text<L: Ledger>(
    alloc: Global,
    text: &[u8],
    request: &Request,
    steps: &mut Steps<L>,
) -> Result<Plan, NoMemory>
    requires text { length text.now ≤ MOST_BYTES }
    requires input { length request.now.input.items ≤ MOST_INPUT }
    requires bound { request.now.sizes.bound < 2 ^ 63 }
    ensures plan { IfOk result (λ plan. IsWrapPlan steps.old steps.new text.now
        request.now.names.items request.now.input.items request.now.sizes (planned plan)) }
    ensures within { steps.new ≤ steps.old + request.now.sizes.bound }
{
    match judge(alloc, text) {
        Ok(checked) => wrap_sized(alloc, &checked, request, steps),
        Err(SourceError::Refused { number, at }) => Ok(refuse_source(alloc, number, at)?),
        Err(SourceError::NoMemory) => Err(NoMemory),
    }
}

// The sizes of heap and stack are tried before the names.
fn wrap_sized<L: Ledger>(
    alloc: Global,
    checked: &Checked,
    request: &Request,
    steps: &mut Steps<L>,
) -> Result<Plan, NoMemory>
    requires input { length request.now.input.items ≤ MOST_INPUT }
    requires bound { request.now.sizes.bound < 2 ^ 63 }
    ensures plan { IfOk result (λ plan. IsSizedWrapPlan steps.old steps.new
        (limits_refusal request.now.sizes.room.heap request.now.sizes.room.deep MOST_DEEP)
        request.now.names.items request.now.input.items (source_of checked.now)
        (record { heap = request.now.sizes.room.heap; deep = request.now.sizes.room.deep })
        request.now.sizes.bound (planned plan)) }
    ensures within { steps.new ≤ steps.old + request.now.sizes.bound }
{
    let sizes = request.sizes;
    match check_limits(sizes.room.heap, sizes.room.deep, MOST_DEEP) {
        Ok(limits) => wrap_named(alloc, checked, limits, request, steps),
        Err(e) => Ok(Plan::prints(Verdict::InputRefused, load_line(alloc, e)?)),
    }
}

// The names are checked before the input.
fn wrap_named<L: Ledger>(
    alloc: Global,
    checked: &Checked,
    limits: Limits,
    request: &Request,
    steps: &mut Steps<L>,
) -> Result<Plan, NoMemory>
    requires limits { IsLimits limits }
    requires input { length request.now.input.items ≤ MOST_INPUT }
    requires bound { request.now.sizes.bound < 2 ^ 63 }
    ensures plan { IfOk result (λ plan. IsNamedPlan steps.old steps.new
        (results_of (fields_of (source_of checked.now)) request.now.names.items)
        request.now.input.items (source_of checked.now) limits request.now.sizes.bound
        (planned plan)) }
    ensures within { steps.new ≤ steps.old + request.now.sizes.bound }
{
    is_accepted(checked);
    let fields = input_fields(alloc, checked)?;
    match read_names(alloc, &request.names, &fields) {
        Ok(results) => wrap_given(alloc, checked, limits, results, request, steps),
        Err(NamesError::UnknownResult { at }) => Ok(refuse_name(alloc, at)?),
        Err(NamesError::NoMemory) => Err(NoMemory),
    }
}

// The input is checked, and then the run is made on it.
fn wrap_given<L: Ledger>(
    alloc: Global,
    checked: &Checked,
    limits: Limits,
    results: Vec<InputField>,
    request: &Request,
    steps: &mut Steps<L>,
) -> Result<Plan, NoMemory>
    requires limits { IsLimits limits }
    requires results { AreResults (source_of checked.now) results.items }
    requires input { length request.now.input.items ≤ MOST_INPUT }
    requires bound { request.now.sizes.bound < 2 ^ 63 }
    ensures plan { IfOk result (λ plan. IsGivenPlan steps.old steps.new
        (given_input (source_of checked.now) request.now.input.items)
        (source_of checked.now) results.items limits request.now.sizes.bound (planned plan)) }
    ensures within { steps.new ≤ steps.old + request.now.sizes.bound }
{
    let fields = input_fields(alloc, checked)?;
    match read_input(alloc, &request.input, &fields) {
        Ok(input) => {
            let setting = WrapSetting {
                limits,
                input,
                results,
                bound: request.sizes.bound,
            };
            run_wrapped(alloc, checked, &setting, steps)
        }
        Err(LoadError::NoMemory) => Err(NoMemory),
        Err(e) => Ok(Plan::prints(Verdict::InputRefused, load_line(alloc, e)?)),
    }
}
