// The active calls at a position.
ghost use Rattle.std.specs.Prelude.{◌≡◌, ◌++◌, false, map, option_map, IsTrue, IfOk, OnOk, string_bytes};
ghost use Rattle.source_courses.specs.rpp_tree.Views.{source_of};
ghost use Rattle.source_courses.specs.meaning_machine.Machine.{Config};
ghost use Rattle.source_courses.specs.source_execution.CallsView.{active_of, inside_of};
ghost use Rattle.source_courses.specs.source_execution.Standing.{config_at, setting_at};
ghost use Rattle.source_courses.specs.Courses.{Holds};
ghost use Rattle.source_debugger.specs.Standing.{IsValidRun};
ghost use Rattle.source_debugger.specs.Stacks.{IsPosition, IsThere, call_line, call_lines, TellsStack, inside_named, TellsCall};

use crate::shown::add_state;
use source_courses::{Active, CallState, Course, Execution, NoMemory, Run, place_at};
use source_lines::{Checked, Heap, Lack};
use std::alloc::{AllocError, Global};

// The line of a call.
fn add_call(text: &mut String, call: Active) -> Result<(), AllocError>
    ensures { OnOk result (string_bytes text.new
        ≡ string_bytes text.old ++ call_line (active_of call)) }
{
    let depth = call.depth;
    let object = call.object;
    write!(text, "depth {depth}")?;
    match call.place {
        None => text.push_str(" end")?,
        Some(place) => write!(text, " place {place}")?,
    }
    write!(text, " object #{object} dir ")?;
    text.push_str(if call.back { "-1\n" } else { "1\n" })
}

// The lines of calls.
fn calls_text(alloc: Global, calls: &[Active]) -> Result<String, AllocError>
    ensures { IfOk result (λ text. string_bytes text ≡ call_lines (map active_of calls.now)) }
{
    let mut text = String::new(alloc);
    for call in calls {
        add_call(&mut text, *call)?;
    }
    Ok(text)
}

// Whether a statement begins, or the run is over.
fn stands(execution: &Execution) -> bool
    ensures { IsTrue result → IsPosition (config_at execution.now) }
{
    match execution.place() {
        Some(_place) => true,
        None => execution.is_over(),
    }
}

// Goes to a position. A run that is somewhere else then is refused as `Full`: none is.
fn stand_at<'a>(run: &Run<'a>, course: &mut Course<'a>, position: u64) -> Result<(), Lack>
    requires run { IsValidRun (source_of run.now.checked.now) run.now.limits
        run.now.input.now.words.items }
    requires holds { Holds (source_of run.now.checked.now) run.now.limits
        run.now.input.now.words.items course.old }
    ensures there { OnOk result (IsThere (source_of run.now.checked.now) run.now.limits
        run.now.input.now.words.items position (config_at course.new.execution)) }
    ensures whole { OnOk result (course.new.execution.broken ≡ false) }
    ensures program { OnOk result ((setting_at course.new.execution).program
        ≡ source_of run.now.checked.now) }
    ensures holds { Holds (source_of run.now.checked.now) run.now.limits
        run.now.input.now.words.items course.new }
{
    place_at(run, course, position)?;
    if course.broken || course.passed != position || !stands(&course.execution) {
        return Err(Lack::Full);
    }
    Ok(())
}

// The lines of the active calls at a position.
fn stack_text<'a>(run: &Run<'a>, course: &mut Course<'a>, position: u64) -> Result<String, Lack>
    requires run { IsValidRun (source_of run.now.checked.now) run.now.limits
        run.now.input.now.words.items }
    requires holds { Holds (source_of run.now.checked.now) run.now.limits
        run.now.input.now.words.items course.old }
    ensures told { IfOk result (λ text. TellsStack (source_of run.now.checked.now) run.now.limits
        run.now.input.now.words.items position (string_bytes text)) }
    ensures holds { Holds (source_of run.now.checked.now) run.now.limits
        run.now.input.now.words.items course.new }
{
    stand_at(run, course, position)?;
    let calls = course.execution.calls(run.alloc)?;
    Ok(calls_text(run.alloc, &calls)?)
}

/// The lines of the active calls at a position, the outermost first. A run whose cost is as high as
/// it can be counts as out of memory.
pub(crate) fn tell_stack<'a>(
    run: &Run<'a>,
    course: &mut Course<'a>,
    position: u64,
) -> Result<String, NoMemory>
    requires run { IsValidRun (source_of run.now.checked.now) run.now.limits
        run.now.input.now.words.items }
    requires holds { Holds (source_of run.now.checked.now) run.now.limits
        run.now.input.now.words.items course.old }
    ensures told { IfOk result (λ text. TellsStack (source_of run.now.checked.now) run.now.limits
        run.now.input.now.words.items position (string_bytes text)) }
    ensures holds { Holds (source_of run.now.checked.now) run.now.limits
        run.now.input.now.words.items course.new }
{
    match stack_text(run, course, position) {
        Ok(text) => Ok(text),
        Err(lack) => Err(lack.as_no_memory()),
    }
}

// The lines of what a call has.
fn inside_text(
    alloc: Global,
    checked: &Checked,
    heap: &Heap,
    inside: &CallState,
) -> Result<String, Lack>
    ensures { IfOk result (λ text. (x : Config) → x.state.store ≡ heap.now.store
        → string_bytes text ≡ inside_named (source_of checked.now) x (inside_of inside.now)) }
{
    let mut text = String::new(alloc);
    add_state(
        &mut text,
        checked,
        heap,
        inside.object,
        inside.params,
        &inside.variables,
    )?;
    Ok(text)
}

// The lines of the call with so many active calls, at a position.
fn call_text<'a>(
    run: &Run<'a>,
    course: &mut Course<'a>,
    position: u64,
    depth: u64,
) -> Result<Option<String>, Lack>
    requires run { IsValidRun (source_of run.now.checked.now) run.now.limits
        run.now.input.now.words.items }
    requires holds { Holds (source_of run.now.checked.now) run.now.limits
        run.now.input.now.words.items course.old }
    ensures told { IfOk result (λ text. TellsCall (source_of run.now.checked.now) run.now.limits
        run.now.input.now.words.items position depth (option_map string_bytes text)) }
    ensures holds { Holds (source_of run.now.checked.now) run.now.limits
        run.now.input.now.words.items course.new }
{
    stand_at(run, course, position)?;
    match course.execution.inside(run.alloc, depth)? {
        None => Ok(None),
        Some(inside) => {
            let heap = course.execution.heap();
            let text = inside_text(run.alloc, run.checked, heap, &inside)?;
            Ok(Some(text))
        }
    }
}

/// The lines of the fields and variables of the call with so many active calls, at a position; none
/// if there is no such call. A run whose cost is as high as it can be counts as out of memory.
pub(crate) fn tell_call<'a>(
    run: &Run<'a>,
    course: &mut Course<'a>,
    position: u64,
    depth: u64,
) -> Result<Option<String>, NoMemory>
    requires run { IsValidRun (source_of run.now.checked.now) run.now.limits
        run.now.input.now.words.items }
    requires holds { Holds (source_of run.now.checked.now) run.now.limits
        run.now.input.now.words.items course.old }
    ensures told { IfOk result (λ text. TellsCall (source_of run.now.checked.now) run.now.limits
        run.now.input.now.words.items position depth (option_map string_bytes text)) }
    ensures holds { Holds (source_of run.now.checked.now) run.now.limits
        run.now.input.now.words.items course.new }
{
    match call_text(run, course, position, depth) {
        Ok(text) => Ok(text),
        Err(lack) => Err(lack.as_no_memory()),
    }
}
