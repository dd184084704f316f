// The places of statements and expressions in the text.
ghost use Rattle.std.specs.Prelude.{◌≡◌, ◌<◌, ◌≤◌, IfNone, IfSome};
ghost use Rattle.source_blocks.specs.rpp_tree.Places.{statement_place};
ghost use Rattle.source_blocks.specs.rpp_tree.Views.{expression_of};
ghost use Rattle.source_blocks.specs.Opens.{closing_of};
ghost use Rattle.source_blocks.specs.Blocks.{statement_count, statement_at};
ghost use Rattle.source_blocks.specs.Tasks.{statement_line, task_of};
ghost use Rattle.source_checks.specs.Failures.{first_offset as first_place_of};

use source_blocks::{Closing, Expr, Line, Task, line_at, place_of, statement_in};

/// The offset of a statement that runs: inverted, it has the offset that it had.
#[tactic(auto, using(crate::proofs::Undone::place_turned))]
pub fn line_place(line: &Line) -> u32
    ensures { result ≡ statement_place (statement_line line.now) }
{
    match line {
        Line::Text { stmt, .. } => place_of(stmt),
        Line::Make(made) | Line::Delete(made) => made.at,
        Line::Exchange { at, .. } => *at,
        Line::Call(calls) => calls.at,
    }
}

// The offset of the statement after so many of a block that is no block of the text.
fn line_place_at(task: &Task, at: usize) -> Option<u32>
    ensures past { IfNone result (statement_count (task_of task.now) ≤ at) }
    ensures within { IfSome result (λ place. at < statement_count (task_of task.now)) }
    ensures place { IfSome result (λ place. place
        ≡ statement_place (statement_at at (task_of task.now))) }
{
    match line_at(task, at) {
        None => None,
        Some(line) => Some(line_place(&line)),
    }
}

/// The offset of the statement of a block that runs after so many, if there is one.
pub fn place_at(task: &Task, at: usize) -> Option<u32>
    ensures past { IfNone result (statement_count (task_of task.now) ≤ at) }
    ensures within { IfSome result (λ place. at < statement_count (task_of task.now)) }
    ensures place { IfSome result (λ place. place
        ≡ statement_place (statement_at at (task_of task.now))) }
{
    match task {
        Task::Text { block, back } => match statement_in(block, *back, at) {
            None => None,
            Some(s) => Some(place_of(s)),
        },
        Task::Nothing => line_place_at(task, at),
        Task::Made(_made) => line_place_at(task, at),
        Task::Exchange { .. } => line_place_at(task, at),
    }
}

/// The offset of an expression's first token.
pub fn first_place(e: &Expr) -> u32
    ensures { result ≡ first_place_of (expression_of e.now) }
{
    match e {
        Expr::Number { at, .. } => *at,
        Expr::Nil { at } => *at,
        Expr::Read(place) => place.name.at,
        Expr::Binary { left, .. } => first_place(left),
    }
}

/// The same of what a variable begins or ends with.
pub fn closing_place(closing: &Closing) -> u32
    ensures { result ≡ first_place_of (closing_of closing.now) }
{
    match closing {
        Closing::Nil(at) => *at,
        Closing::Of(e) => first_place(e),
    }
}
