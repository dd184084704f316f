// What a run has cost at the position of a debugger, and its heap there.
ghost use Rattle.std.specs.Prelude.{◌≡◌, IfOk, string_bytes};
ghost use Rattle.source_debugger.specs.rpp_tree.Views.{source_of};
ghost use Rattle.live_accounts.specs.Accounts.{HasArrived, account_cost_line, TellsCost, TellsHeap};

use crate::arriving::{Arrived, go_to};
use crate::blocks::blocks_text;
use source_debugger::{Lack, NoMemory, SourceDebugger};
use std::alloc::{AllocError, Global};

// The run up to the position of a debugger.
fn arrive<'a>(alloc: Global, debugger: &SourceDebugger<'a>) -> Result<Arrived<'a>, Lack>
    ensures { IfOk result (λ it. HasArrived (source_of debugger.now.program) debugger.now.limits
        debugger.now.input debugger.now.position it) }
{
    go_to(
        alloc,
        debugger.checked(),
        debugger.limits(),
        debugger.input(),
        debugger.position(),
    )
}

fn cost_text(alloc: Global, cost: u64) -> Result<String, AllocError>
    ensures { IfOk result (λ text. string_bytes text ≡ account_cost_line cost) }
{
    let mut text = String::new(alloc);
    write!(text, "cost {cost}\n")?;
    Ok(text)
}

fn cost_here(alloc: Global, debugger: &SourceDebugger) -> Result<String, Lack>
    ensures { IfOk result (λ text. TellsCost (source_of debugger.now.program) debugger.now.limits
        debugger.now.input debugger.now.position (string_bytes text)) }
{
    let arrived = arrive(alloc, debugger)?;
    Ok(cost_text(alloc, arrived.cost)?)
}

fn heap_here(alloc: Global, debugger: &SourceDebugger) -> Result<String, Lack>
    ensures { IfOk result (λ text. TellsHeap (source_of debugger.now.program) debugger.now.limits
        debugger.now.input debugger.now.position (string_bytes text)) }
{
    let arrived = arrive(alloc, debugger)?;
    let limits = debugger.limits();
    let mut heap = arrived.execution.into_heap();
    blocks_text(alloc, &mut heap, limits.heap)
}

/// The line of what the run has cost up to the position. The only error is that memory ran out: a
/// run whose cost is as high as it can be counts as that.
pub fn tell_cost(alloc: Global, debugger: &SourceDebugger) -> Result<String, NoMemory>
    ensures { IfOk result (λ text. TellsCost (source_of debugger.now.program) debugger.now.limits
        debugger.now.input debugger.now.position (string_bytes text)) }
{
    match cost_here(alloc, debugger) {
        Ok(text) => Ok(text),
        Err(lack) => Err(lack.as_no_memory()),
    }
}

/// The lines of the heap at the position: its order, how many objects and arrays live, the number
/// that the next one gets, and the free blocks of each order that has some. The only error is that
/// memory ran out: a run whose cost is as high as it can be counts as that.
pub fn tell_heap(alloc: Global, debugger: &SourceDebugger) -> Result<String, NoMemory>
    ensures { IfOk result (λ text. TellsHeap (source_of debugger.now.program) debugger.now.limits
        debugger.now.input debugger.now.position (string_bytes text)) }
{
    match heap_here(alloc, debugger) {
        Ok(text) => Ok(text),
        Err(lack) => Err(lack.as_no_memory()),
    }
}
