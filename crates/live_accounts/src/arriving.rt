// A run that comes to a position.
ghost use Rattle.std.specs.Prelude.{◌≡◌, IfOk};
ghost use Rattle.source_debugger.specs.rpp_words.Limits.{IsLimits};
ghost use Rattle.source_debugger.specs.rpp_tree.Views.{source_of};
ghost use Rattle.source_debugger.specs.Watched.{counted as counted_at};
ghost use Rattle.live_accounts.specs.Accounts.{HasArrived};

use source_debugger::{Checked, Execution, Input, Lack, Limits, Stop};
use std::alloc::Global;

/// The highest cost of a run that is looked at.
const MOST_FUEL: u64 = u64::MAX;

/// A run at a position, and what it has cost.
#[derive(Drop)]
pub(crate) struct Arrived<'a> {
    pub execution: Execution<'a>,
    pub cost: u64,
}

// How many trace points are passed after the statement that begins, if one does. More than 2 ^ 64
// are refused as `Full`.
fn counted(passed: u64, place: Option<u32>) -> Result<u64, Lack>
    ensures { IfOk result (λ count. count ≡ counted_at passed place) }
{
    match place {
        None => Ok(passed),
        Some(_place) => match passed.checked_add(1) {
            None => Err(Lack::Full),
            Some(more) => Ok(more),
        },
    }
}

// Why a run does not come to a position. After a fault there is none.
fn lack_of(stop: Stop) -> Lack {
    match stop {
        Stop::Fault(_code) => Lack::Full,
        Stop::More => Lack::Full,
        Stop::Lacks(lack) => lack,
    }
}

/// The run of a program from its start up to a position. A position that the run does not have, and
/// a cost of more than 2 ^ 64, are refused as `Full`.
pub(crate) fn go_to<'a>(
    alloc: Global,
    checked: &'a Checked,
    limits: Limits,
    input: &Input,
    position: u64,
) -> Result<Arrived<'a>, Lack>
    requires { IsLimits limits }
    ensures { IfOk result (λ it. HasArrived (source_of checked.now) limits input.now.words.items
        position it) }
{
    let mut execution = Execution::start(alloc, checked, limits, input)?;
    let mut fuel = MOST_FUEL;
    let mut passed: u64 = 0;
    while !execution.is_over() {
        let here = execution.place();
        if passed == position && here.is_some() {
            let cost = MOST_FUEL - fuel;
            return Ok(Arrived { execution, cost });
        }
        passed = counted(passed, here)?;
        match execution.step(&mut fuel) {
            Ok(()) => {}
            Err(stop) => return Err(lack_of(stop)),
        }
    }
    if passed != position {
        return Err(Lack::Full);
    }
    let cost = MOST_FUEL - fuel;
    Ok(Arrived { execution, cost })
}
