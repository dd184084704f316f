// The step of a run that stops with a fault.
ghost use Rattle.std.specs.Prelude.{◌≡◌, ◌+◌, ◌<◌, ◌^◌, IfOk};
ghost use Rattle.source_checks.specs.rpp_words.Limits.{IsLimits};
ghost use Rattle.source_statements.specs.rpp_tree.Views.{source_of};
ghost use Rattle.source_execution.specs.Falls.{IsFailingOf};

use crate::execution::Execution;
use source_checks::{Input, Lack, Limits};
use source_statements::{Checked, Stop};
use std::alloc::Global;

/// The highest cost of a run that is looked at.
const MOST_FUEL: u64 = u64::MAX;

/// A run where its next step stops with a fault, and the fault's number.
#[derive(Drop)]
pub struct Failing<'a> {
    pub execution: Execution<'a>,
    pub code: u32,
}

// One step more. More than 2 ^ 64 are refused as `Full`.
fn one_more(steps: u64) -> Result<u64, Lack>
    ensures more { IfOk result (λ more. more ≡ steps + 1) }
    ensures few { IfOk result (λ more. more < 2 ^ 64) }
{
    match steps.checked_add(1) {
        None => Err(Lack::Full),
        Some(more) => Ok(more),
    }
}

/// The run where its next step stops with a fault, if one does. One that costs more than 2 ^ 64 is
/// refused as `Full`.
pub fn find_failing<'a>(
    alloc: Global,
    checked: &'a Checked,
    limits: Limits,
    input: &Input,
) -> Result<Option<Failing<'a>>, Lack>
    requires { IsLimits limits }
    ensures found { IfOk result (λ found. IsFailingOf (source_of checked.now) limits
        input.now.words.items found) }
{
    let mut execution = Execution::start(alloc, checked, limits, input)?;
    let mut fuel = MOST_FUEL;
    let mut steps: u64 = 0;
    while !execution.is_over() {
        match execution.step(&mut fuel) {
            Ok(()) => steps = one_more(steps)?,
            Err(Stop::Fault(code)) => return Ok(Some(Failing { execution, code })),
            Err(Stop::More) => return Err(Lack::Full),
            Err(Stop::Lacks(lack)) => return Err(lack),
        }
    }
    Ok(None)
}
