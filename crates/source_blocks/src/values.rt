// The values that are read at the position of a run.
ghost use Rattle.std.specs.Prelude.{◌<◌, ◌≤◌, IfOk, IfErr};
ghost use Rattle.source_steps.specs.rpp_tree.Views.{expression_of};
ghost use Rattle.source_steps.specs.roopl_semantics.Value.{evaluated};
ghost use Rattle.source_steps.specs.source_store.ValueView.{value_of};
ghost use Rattle.source_steps.specs.Metered.{MeteredGives, metered, IsOwn};
ghost use Rattle.source_steps.specs.StateView.{setting_of};
ghost use Rattle.source_blocks.specs.Opens.{closing_of};
ghost use Rattle.source_blocks.specs.Runs.{IsSound, state_in};

use crate::frames::Closing;
use crate::run::{Run, scope_of};
use source_steps::{Expr, Stop, Value, evaluate, spend};

/// The value of an expression of the text.
pub fn value_in(run: &Run, fuel: &mut u64, e: &Expr) -> Result<Value, Stop>
    requires sound { IsSound run.now }
    ensures gives { MeteredGives value_of result fuel.new
        (metered fuel.old (evaluated (setting_of run.now.setting).program (expression_of e.now)
        (state_in run.now))) }
    ensures less { fuel.new ≤ fuel.old }
    ensures some { IfOk result (λ value. fuel.new < fuel.old) }
    ensures own { IfErr result IsOwn }
{
    let scope = scope_of(&run.locals, run.params, run.marks);
    evaluate(&run.setting, &scope, &run.heap, &run.values, fuel, e)
}

/// What a local variable begins or ends with.
pub fn closing_value(run: &Run, fuel: &mut u64, closing: &Closing) -> Result<Value, Stop>
    requires sound { IsSound run.now }
    ensures gives { MeteredGives value_of result fuel.new
        (metered fuel.old (evaluated (setting_of run.now.setting).program (closing_of closing.now)
        (state_in run.now))) }
    ensures less { fuel.new ≤ fuel.old }
    ensures some { IfOk result (λ value. fuel.new < fuel.old) }
    ensures own { IfErr result IsOwn }
{
    match closing {
        Closing::Nil(_at) => match spend(fuel, 1) {
            Err(why) => Err(why),
            Ok(()) => Ok(Value::Nil),
        },
        Closing::Of(e) => value_in(run, fuel, e),
    }
}
