// What comes before a run: the text is checked, then the sizes are tried, and then the input is
// read.
ghost use Rattle.std.specs.Prelude.{◌≡◌, ◌≤◌, ◌<◌, ◌^◌, None, Ok, length, IfOk};
ghost use Rattle.roopl_judge.specs.rpp_tree.Views.{source_of};
ghost use Rattle.roopl_judge.specs.rpp_tree.declared.limits.TheConstants.{MOST_BYTES};
ghost use Rattle.roopl_judge.specs.rpp_words.Limits.{IsLimits};
ghost use Rattle.command_plan.specs.pisa_loader.Limiting.{limits_refusal};
ghost use Rattle.command_plan.specs.pisa_loader.declared.input.TheConstants.{MOST_INPUT};
ghost use Rattle.run_settings.specs.Inputs.{given_input};
ghost use Rattle.run_settings.specs.Readied.{IsReadied};
ghost use Rattle.run_settings.specs.Runnable.{RefusesInput, RefusesSizes, RefusesRun, CanRun};

use crate::settable::input_fields;
use crate::setting::{Ready, RunSetting};
use command_plan::{
    LoadError, Plan, Sizes, Verdict, check_limits, load_line, read_input, refuse_source,
};
use roopl_judge::{Checked, SourceError, judge};
use roopl_semantics::{Limits, MOST_DEEP, NoMemory};
use std::alloc::Global;

/// What the run of a text on an input is made with, or the plan that reports the first refusal.
pub fn ready(alloc: Global, text: &[u8], given: &[u8], sizes: Sizes) -> Result<Ready, NoMemory>
    requires text { length text.now ≤ MOST_BYTES }
    requires given { length given.now ≤ MOST_INPUT }
    requires bound { sizes.bound < 2 ^ 63 }
    ensures { IfOk result (λ ready.
        IsReadied (RefusesRun text.now given.now sizes.room)
        (CanRun text.now given.now sizes.room) sizes.bound ready) }
{
    match judge(alloc, text) {
        Ok(checked) => ready_sized(alloc, checked, given, sizes),
        Err(SourceError::Refused { number, at }) => {
            Ok(Ready::Refused(refuse_source(alloc, number, at)?))
        }
        Err(SourceError::NoMemory) => Err(NoMemory),
    }
}

// The sizes of heap and stack are tried before the input.
fn ready_sized(
    alloc: Global,
    checked: Checked,
    given: &[u8],
    sizes: Sizes,
) -> Result<Ready, NoMemory>
    requires given { length given.now ≤ MOST_INPUT }
    requires bound { sizes.bound < 2 ^ 63 }
    ensures { IfOk result (λ ready.
        IsReadied (RefusesSizes (limits_refusal sizes.room.heap sizes.room.deep MOST_DEEP) given.now
        (source_of checked))
        (λ program limits input. (program ≡ source_of checked)
        × (limits_refusal sizes.room.heap sizes.room.deep MOST_DEEP ≡ None)
        × (limits ≡ record { heap = sizes.room.heap; deep = sizes.room.deep })
        × (given_input (source_of checked) given.now ≡ Ok input)) sizes.bound ready) }
{
    match check_limits(sizes.room.heap, sizes.room.deep, MOST_DEEP) {
        Ok(limits) => ready_within(alloc, checked, given, limits, sizes.bound),
        Err(e) => Ok(Ready::Refused(Plan::prints(Verdict::InputRefused, load_line(alloc, e)?))),
    }
}

// The input is read last.
fn ready_within(
    alloc: Global,
    checked: Checked,
    given: &[u8],
    limits: Limits,
    bound: u64,
) -> Result<Ready, NoMemory>
    requires given { length given.now ≤ MOST_INPUT }
    requires limits { IsLimits limits }
    requires bound { bound < 2 ^ 63 }
    ensures { IfOk result (λ ready. IsReadied
        (RefusesInput (given_input (source_of checked) given.now))
        (λ program within input. (program ≡ source_of checked) × (within ≡ limits)
        × (given_input (source_of checked) given.now ≡ Ok input)) bound ready) }
{
    let fields = input_fields(alloc, &checked)?;
    match read_input(alloc, given, &fields) {
        Ok(input) => Ok(Ready::Runs(RunSetting {
            checked,
            limits,
            input,
            bound,
        })),
        Err(LoadError::NoMemory) => Err(NoMemory),
        Err(e) => Ok(Ready::Refused(Plan::prints(Verdict::InputRefused, load_line(alloc, e)?))),
    }
}
