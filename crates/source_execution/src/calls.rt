// The active calls.
ghost use Rattle.std.specs.Prelude.{◌≡◌, ◌++◌, map, option_map, IfOk};
ghost use Rattle.source_statements.specs.rpp_tree.Views.{statement_of};
ghost use Rattle.source_checks.specs.source_steps.Ends.{turned};
ghost use Rattle.source_checks.specs.source_blocks.Tasks.{statement_line};
ghost use Rattle.source_checks.specs.source_blocks.Opens.{open_of, caller_of, IsOpen};
ghost use Rattle.source_checks.specs.source_blocks.Runs.{IsSound, config_of};
ghost use Rattle.source_execution.specs.Calls.{is_back, caller_in, back_inside, innermost_call, active_calls, inside_caller as inside_caller_of, inside_part, inside_last as inside_last_of, inside_call};
ghost use Rattle.source_execution.specs.CallsView.{active_of, inside_of};

use crate::places::run_place;
use crate::variables::{Variable, variables_in};
use source_checks::{Caller, Frame, Line, NoMemory, Part, Run, line_at, line_place};
use source_statements::Stmt;
use std::alloc::{AllocError, Global};

/// An active call: the offset of the statement of it that runs, if one does, its object, how many
/// calls are active with it, and whether its text runs backward.
#[derive(Clone, Copy, PartialEq, Eq, Debug)]
pub struct Active {
    pub place: Option<u32>,
    pub object: u32,
    pub depth: u32,
    pub back: bool,
}

/// What an active call has: its object, how many parameters its method has, and its variables, the
/// innermost first.
#[derive(Drop)]
pub struct CallState {
    pub object: u32,
    pub params: usize,
    pub variables: Vec<Variable>,
}

// Whether a statement of the text calls a method backward, in a direction.
fn calls_back(stmt: &Stmt, back: bool) -> bool
    ensures { result ≡ is_back (turned back (statement_of stmt.now)) }
{
    match stmt {
        Stmt::Call { back: uncalls, .. } => *uncalls != back,
        Stmt::Update { .. }
        | Stmt::Swap { .. }
        | Stmt::If { .. }
        | Stmt::From { .. }
        | Stmt::Construct { .. }
        | Stmt::Local { .. }
        | Stmt::New { .. }
        | Stmt::Delete { .. }
        | Stmt::Copy { .. }
        | Stmt::Uncopy { .. }
        | Stmt::Skip { .. } => false,
    }
}

// The same of a statement that runs.
fn line_calls_back(line: &Line) -> bool
    ensures { result ≡ is_back (statement_line line.now) }
{
    match line {
        Line::Text { stmt, back } => calls_back(stmt, *back),
        Line::Make(_made) => false,
        Line::Delete(_made) => false,
        Line::Exchange { .. } => false,
        Line::Call(calls) => calls.back,
    }
}

// Puts the call of an open statement at the end, if it is a call. Gives the direction inside.
fn add_caller(calls: &mut Vec<Active>, frame: &Frame, back: bool) -> Result<bool, AllocError>
    requires { IsOpen frame.now }
    ensures added { IfOk result (λ inside. map active_of calls.new.items
        ≡ map active_of calls.old.items
        ++ caller_in (open_of frame.now).here back (open_of frame.now).part) }
    ensures inside { IfOk result (λ inside. inside
        ≡ back_inside (open_of frame.now).here back (open_of frame.now).part) }
{
    match &frame.part {
        Part::Calling(caller) => match line_at(&frame.task, frame.at) {
            None => unreachable!(),
            Some(line) => {
                calls.push(Active {
                    place: Some(line_place(&line)),
                    object: caller.object,
                    depth: caller.depth,
                    back,
                })?;
                Ok(line_calls_back(&line))
            }
        },
        Part::Chosen { .. } => Ok(back),
        Part::First(_turns) => Ok(back),
        Part::Again(_turns) => Ok(back),
        Part::Holding(_local) => Ok(back),
    }
}

// The innermost call.
fn innermost(run: &Run, back: bool) -> Active
    ensures { active_of result ≡ innermost_call (config_of run.now) back }
{
    Active {
        place: run_place(run),
        object: run.setting.object,
        depth: run.setting.depth,
        back,
    }
}

/// The active calls of a run, the outermost first. The only error is that memory ran out.
pub(crate) fn calls_in(alloc: Global, run: &Run) -> Result<Vec<Active>, NoMemory>
    requires { IsSound run.now }
    ensures { IfOk result (λ calls. map active_of calls.items ≡ active_calls (config_of run.now)) }
{
    let mut calls = Vec::new(alloc);
    let mut back = false;
    for frame in &run.frames {
        back = add_caller(&mut calls, frame, back)?;
    }
    calls.push(innermost(run, back))?;
    Ok(calls)
}

// What a caller has.
fn inside_caller(alloc: Global, caller: &Caller) -> Result<CallState, NoMemory>
    ensures { IfOk result (λ it. inside_of it ≡ inside_caller_of (caller_of caller.now)) }
{
    let variables = variables_in(alloc, &caller.locals, caller.params, &caller.values)?;
    Ok(CallState {
        object: caller.object,
        params: caller.params.len(),
        variables,
    })
}

// What the call of an open statement has, if it is the one with so many active calls.
fn inside_frame(alloc: Global, frame: &Frame, depth: u64) -> Result<Option<CallState>, NoMemory>
    ensures { IfOk result (λ found. option_map inside_of found
        ≡ inside_part depth (open_of frame.now).part) }
{
    match &frame.part {
        Part::Calling(caller) => {
            if u64::from(caller.depth) != depth {
                return Ok(None);
            }
            let inside = inside_caller(alloc, caller)?;
            Ok(Some(inside))
        }
        Part::Chosen { .. } => Ok(None),
        Part::First(_turns) => Ok(None),
        Part::Again(_turns) => Ok(None),
        Part::Holding(_local) => Ok(None),
    }
}

// What the innermost call has, if it is the one with so many active calls.
fn inside_last(alloc: Global, run: &Run, depth: u64) -> Result<Option<CallState>, NoMemory>
    ensures { IfOk result (λ found. option_map inside_of found
        ≡ inside_last_of depth (config_of run.now)) }
{
    if u64::from(run.setting.depth) != depth {
        return Ok(None);
    }
    let variables = variables_in(alloc, &run.locals, run.params, &run.values)?;
    Ok(Some(CallState {
        object: run.setting.object,
        params: run.params.len(),
        variables,
    }))
}

/// What the call with so many active calls has, if there is one. The only error is that memory ran
/// out.
pub(crate) fn inside_in(alloc: Global, run: &Run, depth: u64) -> Result<Option<CallState>, NoMemory>
    ensures { IfOk result (λ found. option_map inside_of found
        ≡ inside_call depth (config_of run.now)) }
{
    for frame in &run.frames {
        match inside_frame(alloc, frame, depth)? {
            Some(inside) => return Ok(Some(inside)),
            None => {}
        }
    }
    inside_last(alloc, run, depth)
}
