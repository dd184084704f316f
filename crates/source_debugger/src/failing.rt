// What fails where a run stops with a fault.
ghost use Rattle.std.specs.Prelude.{◌≡◌, ◌+◌, ◌≤◌, ◌++◌, false, IfOk, OnOk, option_map, string_bytes, codes, if◌then◌else◌};
ghost use Rattle.std.specs.Fmt.{decimal};
ghost use Rattle.source_courses.specs.rpp_tree.Views.{source_of};
ghost use Rattle.source_courses.specs.rpp_words.Texts.{line_end};
ghost use Rattle.source_courses.specs.roopl_semantics.Report.{head_shown};
ghost use Rattle.source_courses.specs.source_store.ValueView.{value_of, kept_head};
ghost use Rattle.source_courses.specs.source_execution.Standing.{config_at, setting_at};
ghost use Rattle.source_courses.specs.source_compared.ComparedView.{compared_of};
ghost use Rattle.source_courses.specs.source_checks.TestedView.{tested_of};
ghost use Rattle.source_courses.specs.Courses.{Holds};
ghost use Rattle.source_debugger.specs.Standing.{IsValidRun};
ghost use Rattle.source_courses.specs.declared.running.TheConstants.{MOST_COST};
ghost use Rattle.source_courses.specs.declared.moves.TheConstants.{LAST_POSITION};
ghost use Rattle.source_lines.specs.Named.{value_named};
ghost use Rattle.source_debugger.specs.Failures.{found_wanted, compared_lines, test_lines, failure_lines as failure_lines_of, failure, shown_of, account, fails_at, is_fault as is_fault_in};

use crate::shown::add_state;
use source_courses::{
    Compared, Course, Ending, Execution, NoMemory, Run, Stop as End, Tested, add_stop,
    find_failing, forward,
};
use source_lines::{Checked, Head, Lack, Value, add_head, add_value, objects_text};
use std::alloc::{AllocError, Global};

/// What is printed of a step that fails.
#[derive(Clone, Copy, PartialEq, Eq, Debug)]
pub enum Detail {
    /// The fault, the test that fails, and the fields and variables as they are then.
    Test,
    /// The objects and arrays of so many names from one on, as they are then.
    Cells { from: u32, count: u32 },
}

// The line of a value after a word.
fn add_value_line(text: &mut String, value: Value) -> Result<(), AllocError>
    ensures { OnOk result (string_bytes text.new
        ≡ string_bytes text.old ++ (value_named (value_of value) ++ line_end)) }
{
    add_value(text, value)?;
    text.push('\n')
}

// The lines of a value that must be true or false.
fn add_truth(text: &mut String, found: Value, wanted: bool) -> Result<(), AllocError>
    ensures { OnOk result (string_bytes text.new ≡ string_bytes text.old
        ++ found_wanted (value_named (value_of found))
        (if wanted then codes "true" else codes "false")) }
{
    text.push_str("found ")?;
    add_value_line(text, found)?;
    text.push_str(if wanted {
        "wanted true\n"
    } else {
        "wanted false\n"
    })
}

// The lines of a value that must be another one.
fn add_values(text: &mut String, found: Value, wanted: Value) -> Result<(), AllocError>
    ensures { OnOk result (string_bytes text.new ≡ string_bytes text.old
        ++ found_wanted (value_named (value_of found)) (value_named (value_of wanted))) }
{
    text.push_str("found ")?;
    add_value_line(text, found)?;
    text.push_str("wanted ")?;
    add_value_line(text, wanted)
}

// The lines of a value that must be below a limit.
fn add_below(text: &mut String, found: Value, limit: usize) -> Result<(), AllocError>
    ensures { OnOk result (string_bytes text.new ≡ string_bytes text.old
        ++ found_wanted (value_named (value_of found)) (codes "below " ++ decimal limit)) }
{
    text.push_str("found ")?;
    add_value_line(text, found)?;
    write!(text, "wanted below {limit}\n")
}

// What nil must be.
fn missing(array: bool) -> &'static str
    ensures { result.now ≡ (if array then codes "an array" else codes "an object") }
{
    if array { "an array" } else { "an object" }
}

// The lines of two texts.
fn add_texts(text: &mut String, found: &str, wanted: &str) -> Result<(), AllocError>
    ensures { OnOk result (string_bytes text.new ≡ string_bytes text.old
        ++ found_wanted found.now wanted.now) }
{
    text.push_str("found ")?;
    text.push_str(found)?;
    text.push_str("\nwanted ")?;
    text.push_str(wanted)?;
    text.push('\n')
}

// The lines of nil, which must be an array or an object.
fn add_missing(text: &mut String, array: bool) -> Result<(), AllocError>
    ensures { OnOk result (string_bytes text.new ≡ string_bytes text.old
        ++ found_wanted (codes "nil") (if array then codes "an array" else codes "an object")) }
{
    add_texts(text, "nil", missing(array))
}

// The lines of a size that must be the length of an array.
fn add_length(text: &mut String, found: Value, wanted: usize) -> Result<(), AllocError>
    ensures { OnOk result (string_bytes text.new ≡ string_bytes text.old
        ++ found_wanted (value_named (value_of found)) (decimal wanted)) }
{
    text.push_str("found ")?;
    add_value_line(text, found)?;
    write!(text, "wanted {wanted}\n")
}

// The lines of a size that must be at least 1.
fn add_size(text: &mut String, found: Value) -> Result<(), AllocError>
    ensures { OnOk result (string_bytes text.new ≡ string_bytes text.old
        ++ found_wanted (value_named (value_of found)) (codes "at least 1")) }
{
    text.push_str("found ")?;
    add_value_line(text, found)?;
    text.push_str("wanted at least 1\n")
}

// The lines of what an object is, and what it must be.
fn add_heads(text: &mut String, checked: &Checked, found: Head, wanted: Head) -> Result<(), Lack>
    ensures { OnOk result (string_bytes text.new ≡ string_bytes text.old
        ++ found_wanted (head_shown (source_of checked.now) (kept_head found))
        (head_shown (source_of checked.now) (kept_head wanted))) }
{
    let program = checked.program();
    text.push_str("found ")?;
    add_head(text, program, found)?;
    text.push_str("\nwanted ")?;
    add_head(text, program, wanted)?;
    Ok(text.push('\n')?)
}

// The lines of what a test compares.
fn add_compared(text: &mut String, checked: &Checked, compared: Compared) -> Result<(), Lack>
    ensures { OnOk result (string_bytes text.new ≡ string_bytes text.old
        ++ compared_lines (source_of checked.now) (compared_of compared)) }
{
    match compared {
        Compared::Truth { found, wanted } => Ok(add_truth(text, found, wanted)?),
        Compared::Values { found, wanted } => Ok(add_values(text, found, wanted)?),
        Compared::Below { found, limit } => Ok(add_below(text, found, limit)?),
        Compared::Missing { array } => Ok(add_missing(text, array)?),
        Compared::Count { found } => Ok(write!(text, "found {found}\nwanted 1\n")?),
        Compared::Length { found, wanted } => Ok(add_length(text, found, wanted)?),
        Compared::Size { found } => Ok(add_size(text, found)?),
        Compared::Heads { found, wanted } => add_heads(text, checked, found, wanted),
        Compared::Nothing => Ok(()),
    }
}

// The lines of a test.
fn add_test(text: &mut String, checked: &Checked, tested: Tested) -> Result<(), Lack>
    ensures { OnOk result (string_bytes text.new
        ≡ string_bytes text.old ++ test_lines (source_of checked.now) (tested_of tested)) }
{
    let word = tested.word;
    let at = tested.at;
    let statement = tested.statement;
    write!(text, "test {word} at {at} of {statement}\n")?;
    add_compared(text, checked, tested.compared)
}

// The lines on the next step, which stops with this fault.
fn failure_lines(
    alloc: Global,
    checked: &Checked,
    execution: &Execution,
    code: u32,
) -> Result<String, Lack>
    requires whole { execution.now.broken ≡ false }
    requires program { (setting_at execution.now).program ≡ source_of checked.now }
    ensures { IfOk result (λ text. string_bytes text
        ≡ failure_lines_of (source_of checked.now) (setting_at execution.now) code
        (config_at execution.now)) }
{
    let tested = execution.tested(code)?;
    let variables = execution.variables(alloc)?;
    let depth = execution.depth();
    let mut text = String::new(alloc);
    add_stop(&mut text, End::Trap(code))?;
    add_test(&mut text, checked, tested)?;
    write!(text, "depth {depth}\n")?;
    add_state(
        &mut text,
        checked,
        execution.heap(),
        execution.object(),
        execution.params(),
        &variables,
    )?;
    Ok(text)
}

// What is printed of the next step, which stops with this fault.
fn detail_lines(
    alloc: Global,
    checked: &Checked,
    execution: &Execution,
    code: u32,
    detail: Detail,
) -> Result<String, Lack>
    requires whole { execution.now.broken ≡ false }
    requires program { (setting_at execution.now).program ≡ source_of checked.now }
    ensures { IfOk result (λ text. string_bytes text
        ≡ shown_of (source_of checked.now) detail (setting_at execution.now) code
        (config_at execution.now)) }
{
    match detail {
        Detail::Test => failure_lines(alloc, checked, execution, code),
        Detail::Cells { from, count } => {
            objects_text(alloc, checked, execution.heap(), from, count)
        }
    }
}

// What is printed of what fails, if the run stops with a fault.
fn failure_text<'a>(run: &Run<'a>, detail: Detail) -> Result<Option<String>, Lack>
    requires run { IsValidRun (source_of run.now.checked.now) run.now.limits
        run.now.input.now.words.items }
    ensures { IfOk result (λ text. option_map string_bytes text
        ≡ failure (source_of run.now.checked.now) run.now.limits
        run.now.input.now.words.items (shown_of (source_of run.now.checked.now) detail)) }
{
    match find_failing(run.alloc, run.checked, run.limits, run.input)? {
        None => Ok(None),
        Some(failing) => {
            let execution = &failing.execution;
            let text = detail_lines(run.alloc, run.checked, execution, failing.code, detail)?;
            Ok(Some(text))
        }
    }
}

fn is_fault(ending: Ending) -> bool
    ensures { result ≡ is_fault_in ending }
{
    match ending {
        Ending::Made => false,
        Ending::Start => false,
        Ending::Faulted(_code) => true,
    }
}

// What is printed of what fails if one more move is made from a position; none if it can be made.
fn failure_here<'a>(
    run: &Run<'a>,
    course: &mut Course<'a>,
    position: u64,
    detail: Detail,
) -> Result<Option<String>, Lack>
    requires run { IsValidRun (source_of run.now.checked.now) run.now.limits
        run.now.input.now.words.items }
    requires within { position ≤ LAST_POSITION }
    requires holds { Holds (source_of run.now.checked.now) run.now.limits
        run.now.input.now.words.items course.old }
    ensures told { IfOk result (λ text. option_map string_bytes text
        ≡ fails_at (account (source_of run.now.checked.now) run.now.limits
        run.now.input.now.words.items MOST_COST)
        (shown_of (source_of run.now.checked.now) detail) position) }
    ensures holds { Holds (source_of run.now.checked.now) run.now.limits
        run.now.input.now.words.items course.new }
{
    let walk = forward(run, course, None, 1, position)?;
    if is_fault(walk.ending) {
        failure_text(run, detail)
    } else {
        Ok(None)
    }
}

/// What is printed of what fails if one more move is made from a position; none if it can be made. A
/// run whose cost or count of steps is as high as it can be counts as out of memory.
pub(crate) fn tell_failure<'a>(
    run: &Run<'a>,
    course: &mut Course<'a>,
    position: u64,
    detail: Detail,
) -> Result<Option<String>, NoMemory>
    requires run { IsValidRun (source_of run.now.checked.now) run.now.limits
        run.now.input.now.words.items }
    requires within { position ≤ LAST_POSITION }
    requires holds { Holds (source_of run.now.checked.now) run.now.limits
        run.now.input.now.words.items course.old }
    ensures told { IfOk result (λ text. option_map string_bytes text
        ≡ fails_at (account (source_of run.now.checked.now) run.now.limits
        run.now.input.now.words.items MOST_COST)
        (shown_of (source_of run.now.checked.now) detail) position) }
    ensures holds { Holds (source_of run.now.checked.now) run.now.limits
        run.now.input.now.words.items course.new }
{
    match failure_here(run, course, position, detail) {
        Ok(text) => Ok(text),
        Err(lack) => Err(lack.as_no_memory()),
    }
}
