// The interpreter: what the source does from its main object on.
ghost use Rattle.std.specs.Prelude.{◌≡◌, ◌≤◌, IfOk};
ghost use Rattle.source_execution.specs.rpp_words.Limits.{IsLimits};
ghost use Rattle.source_execution.specs.rpp_tree.Views.{source_of};
ghost use Rattle.source_execution.specs.roopl_semantics.Source.{source, IsValid};
ghost use Rattle.source_execution.specs.roopl_semantics.Laws.{CountsReferences};
ghost use Rattle.source_meaning.specs.Outcomes.{IsOutcome, IsStop, StaysSo, IsUndone};

use crate::outcome::Outcome;
use crate::store::Store;
use source_execution::{Checked, Execution, Heap, Input, Limits, NoMemory, Stop};
use std::alloc::Global;

/// The most calls that `interpret` allows a run to have open.
pub const MOST_OPEN: u32 = 32;

// The store of a run that is over, with its cost.
fn done(alloc: Global, heap: Heap, cost: u64) -> Result<Outcome, NoMemory>
    requires { CountsReferences heap.store }
    ensures { IfOk result (λ outcome. outcome ≡ Outcome.Done heap.store cost) }
{
    let store = Store::seal(alloc, heap)?;
    Ok(Outcome::Done { store, cost })
}

// The end of a run that stops before its end.
fn stopped(stop: Stop, cost: u64) -> Result<Outcome, NoMemory>
    ensures { IfOk result (λ outcome. IsStop stop cost outcome) }
{
    match stop {
        Stop::Fault(code) => Ok(Outcome::Fault { code, cost }),
        Stop::More => Ok(Outcome::More),
        Stop::Lacks(lack) => Err(lack.as_no_memory()),
    }
}

// The run from the main object on.
fn run_whole(
    alloc: Global,
    checked: &Checked,
    input: &Input,
    limits: Limits,
    fuel: u64,
) -> Result<Outcome, NoMemory>
    requires valid { IsValid (source_of checked.now) input.now.words.items }
    requires limits { IsLimits limits }
    ensures { IfOk result (λ outcome. IsOutcome outcome
        (source (source_of checked.now) limits input.now.words.items fuel)) }
{
    checked.program();
    let mut execution = Execution::start(alloc, checked, limits, input)?;
    let mut left = fuel;
    match execution.run(&mut left) {
        Ok(()) => done(alloc, execution.into_heap(), fuel - left),
        Err(stop) => stopped(stop, fuel - left),
    }
}

/// What the source does from its main object on, with so much fuel: the end with its store and
/// cost, the fault with its cost, or that the cost passes the fuel. The only error is that memory
/// ran out.
pub fn interpret(
    alloc: Global,
    checked: &Checked,
    input: &Input,
    limits: Limits,
    fuel: u64,
) -> Result<Outcome, NoMemory>
    requires valid { IsValid (source_of checked.now) input.now.words.items }
    requires limits { IsLimits limits }
    requires shallow { limits.deep ≤ MOST_OPEN }
    ensures outcome { IfOk result
        (λ outcome. IsOutcome outcome (source (source_of checked.now) limits input.now.words.items
        fuel)) }

    // If the run is over, more fuel gives the same.
    ensures more { IfOk result (λ outcome. StaysSo outcome (source_of checked.now) limits
        input.now.words.items fuel) }

    // If it is done, the inverse of the body of `main` leads from the final state back to one
    // that agrees with the start.
    ensures back { IfOk result (λ outcome. IsUndone outcome (source_of checked.now) limits
        input.now.words.items fuel) }
{
    checked.program();
    run_whole(alloc, checked, input, limits, fuel)
}
