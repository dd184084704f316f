// What the next step of a run tests.
ghost use Rattle.std.specs.Prelude.{◌≡◌, IfOk, map, reverse, option_map};
ghost use Rattle.source_blocks.specs.rpp_tree.Places.{statement_place};
ghost use Rattle.source_blocks.specs.rpp_tree.Views.{expression_of, statement_of};
ghost use Rattle.source_blocks.specs.source_steps.StateView.{setting_of};
ghost use Rattle.source_blocks.specs.Tasks.{statement_line};
ghost use Rattle.source_blocks.specs.Opens.{open_of, part_of};
ghost use Rattle.source_blocks.specs.Runs.{IsSound, config_of, state_in};
ghost use Rattle.source_blocks.specs.declared.frames.Part.TheVariants as part;
ghost use Rattle.source_checks.specs.Failures.{tests_of, tested_truth, tested_part, tested_around, tested_begin, tested as tested_at};
ghost use Rattle.source_checks.specs.TestedView.{tested_of, around_place, loop_of, exchanged_loop};

use crate::accesses::{closing_access, failing_access};
use crate::checks::compare_begin;
use crate::closings::value_of_closing;
use crate::places::{closing_place, first_place, line_place};
use crate::touched::touched_around;
use source_blocks::{
    Closing, Ending, Expr, Frame, Line, Local, Loop, Run, Stmt, block_ending, innermost, line_at,
};
use source_compared::{
    Compared, Lack, choice_word, compare_truth, compare_values, local_word, loop_word,
};

/// What the next step of a run tests: the word of the test, its offset and that of its statement,
/// and what it compares.
#[derive(Clone, Copy)]
pub struct Tested {
    pub word: &'static str,
    pub at: u32,
    pub statement: u32,
    pub compared: Compared,
}

/// The tests of a loop.
#[derive(Clone, Copy)]
struct LoopTests<'a> {
    entry: &'a Expr,
    exit: &'a Expr,
}

// The test of a choice or a loop that is to come out so.
fn test_truth(
    run: &Run,
    statement: u32,
    word: &'static str,
    test: &Expr,
    wanted: bool,
) -> Result<Tested, Lack>
    requires sound { IsSound run.now }
    ensures { IfOk result (λ it. tested_of it ≡ tested_truth (setting_of run.now.setting).program
        (state_in run.now) statement word.now (expression_of test.now) wanted) }
{
    let found = value_of_closing(run, &Closing::Of(test))?;
    let failed = failing_access(run, test)?;
    Ok(Tested {
        word,
        at: first_place(test),
        statement,
        compared: compare_truth(found, failed, wanted),
    })
}

// The test of a loop that its first part ends with.
fn test_exit(run: &Run, statement: u32, turns: &Loop) -> Result<Tested, Lack>
    requires sound { IsSound run.now }
    ensures { IfOk result (λ it. tested_of it ≡ tested_part (setting_of run.now.setting).program
        (state_in run.now) statement (part_of (part.First turns.now))) }
{
    let word = loop_word(first_place(turns.exit), first_place(turns.entry));
    test_truth(run, statement, word, turns.exit, true)
}

// The test of a loop that its second part ends with.
fn test_entry(run: &Run, statement: u32, turns: &Loop) -> Result<Tested, Lack>
    requires sound { IsSound run.now }
    ensures { IfOk result (λ it. tested_of it ≡ tested_part (setting_of run.now.setting).program
        (state_in run.now) statement (part_of (part.Again turns.now))) }
{
    let word = loop_word(first_place(turns.entry), first_place(turns.exit));
    test_truth(run, statement, word, turns.entry, false)
}

// The test of a variable's value at its end.
fn test_local(run: &Run, statement: u32, local: &Local) -> Result<Tested, Lack>
    requires sound { IsSound run.now }
    ensures { IfOk result (λ it. tested_of it ≡ tested_part (setting_of run.now.setting).program
        (state_in run.now) statement (part_of (part.Holding local.now))) }
{
    let at = closing_place(&local.end_value);
    let wanted = value_of_closing(run, &local.end_value)?;
    let failed = closing_access(run, &local.end_value)?;
    Ok(Tested {
        word: local_word(local.name, at, closing_place(&local.value)),
        at,
        statement,
        compared: compare_values(innermost(run), failed, wanted),
    })
}

// What is tested at the end of the block that runs, by the offset of the innermost open statement.
#[tactic(auto, using(crate::proofs::AtEnds::call_is))]
fn test_end(run: &Run, statement: u32) -> Result<Tested, Lack>
    requires sound { IsSound run.now }
    requires place { statement ≡ around_place (map open_of (reverse run.now.frames.items)) }
    ensures { IfOk result (λ it. tested_of it ≡ tested_around (setting_of run.now.setting).program
        (state_in run.now) (map open_of (reverse run.now.frames.items))) }
{
    match block_ending(&run.frames) {
        Ending::Over => Ok(Tested {
            word: "end",
            at: 0,
            statement: 0,
            compared: Compared::Nothing,
        }),
        Ending::Chosen { side, test, after } => {
            let word = choice_word(first_place(after), first_place(test));
            test_truth(run, statement, word, after, side)
        }
        Ending::First(turns) => test_exit(run, statement, &turns),
        Ending::Again(turns) => test_entry(run, statement, &turns),
        Ending::Holding(local) => test_local(run, statement, &local),
        Ending::Calling => Ok(Tested {
            word: "call",
            at: statement,
            statement,
            compared: touched_around(run),
        }),
    }
}

// The offset of the innermost open statement.
fn open_place(frames: &Vec<Frame>) -> u32
    ensures { result ≡ around_place (map open_of (reverse frames.now.items)) }
{
    match frames.last() {
        None => 0,
        Some(frame) => match line_at(&frame.task, frame.at) {
            None => 0,
            Some(line) => line_place(&line),
        },
    }
}

// The tests of a statement of the text, if it is a loop.
fn tests_in<'a>(stmt: &'a Stmt) -> Option<LoopTests<'a>>
    ensures { option_map loop_of result ≡ tests_of (statement_of stmt.now) }
{
    match stmt {
        Stmt::From { entry, until, .. } => Some(LoopTests { entry, exit: until }),
        Stmt::Update { .. }
        | Stmt::Swap { .. }
        | Stmt::If { .. }
        | Stmt::Construct { .. }
        | Stmt::Local { .. }
        | Stmt::New { .. }
        | Stmt::Delete { .. }
        | Stmt::Copy { .. }
        | Stmt::Uncopy { .. }
        | Stmt::Call { .. }
        | Stmt::Skip { .. } => None,
    }
}

// The tests of a loop, in a direction.
fn in_direction<'a>(back: bool, tests: LoopTests<'a>) -> LoopTests<'a>
    ensures { loop_of result ≡ exchanged_loop back (loop_of tests.entry) }
{
    if back {
        LoopTests {
            entry: tests.exit,
            exit: tests.entry,
        }
    } else {
        tests
    }
}

// The tests of a statement that runs, if it is a loop.
fn tests_at<'a>(line: &Line<'a>) -> Option<LoopTests<'a>>
    ensures { option_map loop_of result ≡ tests_of (statement_line line.now) }
{
    match line {
        Line::Text { stmt, back } => match tests_in(stmt) {
            None => None,
            Some(tests) => Some(in_direction(*back, tests)),
        },
        Line::Make(_made) => None,
        Line::Delete(_made) => None,
        Line::Exchange { .. } => None,
        Line::Call(_calls) => None,
    }
}

// What is tested as a statement begins, which stops with this fault.
fn test_begin(run: &Run, code: u32, line: &Line) -> Result<Tested, Lack>
    requires sound { IsSound run.now }
    ensures { IfOk result (λ it. tested_of it ≡ tested_begin (setting_of run.now.setting) code
        (state_in run.now) (statement_line line.now) (tests_of (statement_line line.now))) }
{
    let place = line_place(line);
    match tests_at(line) {
        None => {
            let compared = compare_begin(run, code, line)?;
            Ok(Tested {
                word: "statement",
                at: place,
                statement: place,
                compared,
            })
        }
        Some(tests) => {
            let word = loop_word(first_place(tests.entry), first_place(tests.exit));
            test_truth(run, place, word, tests.entry, true)
        }
    }
}

/// What the next step tests, which stops with this fault.
pub fn test_next(run: &Run, code: u32) -> Result<Tested, Lack>
    requires sound { IsSound run.now }
    ensures { IfOk result (λ it. tested_of it ≡ tested_at (setting_of run.now.setting) code
        (config_of run.now)) }
{
    match line_at(&run.task, run.at) {
        None => test_end(run, open_place(&run.frames)),
        Some(line) => test_begin(run, code, &line),
    }
}
