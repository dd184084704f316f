// The values of what variables end with.
ghost use Rattle.std.specs.Prelude.{IfOk};
ghost use Rattle.source_blocks.specs.roopl_semantics.Value.{value as value_in_state};
ghost use Rattle.source_blocks.specs.source_steps.StateView.{setting_of};
ghost use Rattle.source_blocks.specs.Opens.{closing_of};
ghost use Rattle.source_blocks.specs.Runs.{IsSound, state_in};
ghost use Rattle.source_compared.specs.ComparedView.{IsValue};

use source_blocks::{Closing, Run, Stop, closing_value};
use source_compared::{Lack, Value};

/// The value of what a variable ends with, or none if its evaluation meets a fault. One that costs
/// more than 2 ^ 64 is refused as `Full`.
pub(crate) fn value_of_closing(run: &Run, closing: &Closing) -> Result<Option<Value>, Lack>
    requires sound { IsSound run.now }
    ensures { IfOk result (λ found. IsValue found (value_in_state
        (setting_of run.now.setting).program (state_in run.now) (closing_of closing.now))) }
{
    let mut fuel = u64::MAX;
    match closing_value(run, &mut fuel, closing) {
        Ok(found) => Ok(Some(found)),
        Err(Stop::Fault(_code)) => Ok(None),
        Err(Stop::More) => Err(Lack::Full),
        Err(Stop::Lacks(lack)) => Err(lack),
    }
}
