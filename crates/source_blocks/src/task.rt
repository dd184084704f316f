// The blocks that run, and their statements.
ghost use Rattle.std.specs.Prelude.{◌≡◌, ◌<◌, ◌≤◌, ◌-◌, IfNone, IfSome, false};
ghost use Rattle.source_steps.specs.rpp_tree.Views.{block_of, statement_of};
ghost use Rattle.source_steps.specs.inverse_rules.Inverse.{inverse};
ghost use Rattle.source_steps.specs.roopl_semantics.Execution.{in_direction};
ghost use Rattle.source_steps.specs.Ends.{turned};
ghost use Rattle.source_blocks.specs.Blocks.{statement_at, statement_count};
ghost use Rattle.source_blocks.specs.Tasks.{task_of, statement_line};

use source_steps::Stmt;
use source_steps::tree::{Block, Ident, Place};

/// A call, in its direction, with its method and its arguments.
#[derive(Clone, Copy)]
pub struct Calls<'a> {
    pub at: u32,
    pub back: bool,
    pub method: &'a Ident,
    pub args: &'a [Ident],
}

/// A `construct`, as it stands or undone.
#[derive(Clone, Copy)]
pub struct Construct<'a> {
    pub at: u32,
    pub class: &'a Ident,
    pub name: &'a Ident,
    pub body: &'a Block,
    pub back: bool,
}

/// Where the statements of a block that runs are from.
#[derive(Clone, Copy)]
pub enum Task<'a> {
    /// The body of no method.
    Nothing,
    /// A block of the text, as it stands or undone.
    Text {
        block: &'a Block,
        back: bool,
    },
    /// What `construct` means inside its variable.
    Made(Construct<'a>),
    /// What a call on an element means inside the variable that holds the element.
    Exchange {
        element: &'a Place,
        calls: Calls<'a>,
    },
}

/// A statement of a block that runs.
#[derive(Clone, Copy)]
pub enum Line<'a> {
    /// A statement of the text, as it stands or undone.
    Text { stmt: &'a Stmt, back: bool },
    /// The object of a `construct` is made.
    Make(Construct<'a>),
    /// It is deleted.
    Delete(Construct<'a>),
    /// An element and the variable that holds it are exchanged.
    Exchange { at: u32, element: &'a Place },
    /// The call on that variable.
    Call(Calls<'a>),
}

/// The statement after so many of a block of the text, in the direction that it runs.
#[tactic(auto, using(crate::proofs::Blocks::block_count, crate::proofs::Blocks::line_forward, crate::proofs::Blocks::line_backward))]
#[inline(always)]
pub fn statement_in<'a>(block: &'a Block, back: bool, at: usize) -> Option<&'a Stmt>
    ensures past { IfNone result (statement_count (in_direction back (block_of block.now)) ≤ at) }
    ensures within { IfSome result (λ s. at < statement_count (in_direction back (block_of block.now))) }
    ensures statement { IfSome result (λ s. turned back (statement_of s.now)
        ≡ statement_at at (in_direction back (block_of block.now))) }
{
    let count = block.list.len();
    if count <= at {
        return None;
    }
    if back {
        let last = &block.list[count - 1 - at];
        return Some(last);
    }
    let first = &block.list[at];
    Some(first)
}

/// The statement of a `construct` after so many.
#[tactic(auto, using(crate::proofs::Blocks::block_count, crate::proofs::Blocks::made_count, crate::proofs::Blocks::made_inside, crate::proofs::Blocks::made_last))]
fn line_in_construct<'a>(made: &Construct<'a>, at: usize) -> Option<Line<'a>>
    ensures past { IfNone result (statement_count (task_of (Task.Made made.now)) ≤ at) }
    ensures within { IfSome result (λ line. at < statement_count (task_of (Task.Made made.now))) }
    ensures statement { IfSome result (λ line. statement_line line
        ≡ statement_at at (task_of (Task.Made made.now))) }
{
    if at == 0 {
        return Some(Line::Make(*made));
    }
    match statement_in(made.body, made.back, at - 1) {
        Some(stmt) => Some(Line::Text {
            stmt,
            back: made.back,
        }),
        None => {
            if at - 1 == made.body.list.len() {
                Some(Line::Delete(*made))
            } else {
                None
            }
        }
    }
}

/// The statement of a call on an element after so many.
fn line_in_exchange<'a>(element: &'a Place, calls: &Calls<'a>, at: usize) -> Option<Line<'a>>
    ensures past { IfNone result (statement_count (task_of (Task.Exchange element.entry calls.now)) ≤ at) }
    ensures within { IfSome result (λ line. at
        < statement_count (task_of (Task.Exchange element.entry calls.now))) }
    ensures statement { IfSome result (λ line. statement_line line
        ≡ statement_at at (task_of (Task.Exchange element.entry calls.now))) }
{
    match at {
        0 => Some(Line::Exchange {
            at: calls.at,
            element,
        }),
        1 => Some(Line::Call(*calls)),
        2 => Some(Line::Exchange {
            at: calls.at,
            element,
        }),
        _ => None,
    }
}

/// The statement of a block that runs after so many, if there is one.
pub fn line_at<'a>(task: &Task<'a>, at: usize) -> Option<Line<'a>>
    ensures past { IfNone result (statement_count (task_of task.now) ≤ at) }
    ensures within { IfSome result (λ line. at < statement_count (task_of task.now)) }
    ensures statement { IfSome result (λ line. statement_line line ≡ statement_at at (task_of task.now)) }
{
    match task {
        Task::Nothing => None,
        Task::Text { block, back } => match statement_in(block, *back, at) {
            None => None,
            Some(stmt) => Some(Line::Text { stmt, back: *back }),
        },
        Task::Made(made) => line_in_construct(made, at),
        Task::Exchange { element, calls } => line_in_exchange(element, calls, at),
    }
}

/// How many statements a block that runs has.
#[tactic(auto, using(crate::proofs::Blocks::block_count, crate::proofs::Blocks::made_count))]
pub fn count_in(task: &Task) -> usize
    ensures { result ≡ statement_count (task_of task.now) }
{
    match task {
        Task::Nothing => 0,
        Task::Text { block, .. } => block.list.len(),
        Task::Made(made) => made.body.list.len() + 2,
        Task::Exchange { .. } => 3,
    }
}

/// A block that runs, undone.
#[tactic(auto, using(crate::proofs::Around::body_undone, crate::proofs::Around::made_undone))]
pub fn undone_task<'a>(task: &Task<'a>) -> Task<'a>
    ensures { task_of result ≡ inverse (task_of task.now) }
{
    match task {
        Task::Nothing => Task::Nothing,
        Task::Text { block, back } => Task::Text {
            block,
            back: !*back,
        },
        Task::Made(made) => Task::Made(Construct {
            at: made.at,
            class: made.class,
            name: made.name,
            body: made.body,
            back: !made.back,
        }),
        Task::Exchange { element, calls } => Task::Exchange {
            element,
            calls: Calls {
                at: calls.at,
                back: !calls.back,
                method: calls.method,
                args: calls.args,
            },
        },
    }
}
