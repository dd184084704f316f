// The texts of replies.
ghost use Rattle.std.specs.Prelude.{◌≡◌, ◌++◌, IfOk, IsErrOf, map, option_map, Some, string_bytes};
ghost use Rattle.live_searches.specs.rpp_tree.Views.{source_of};
ghost use Rattle.live_searches.specs.source_debugger.Failures.{account_of};
ghost use Rattle.live_talks.specs.live_requests.declared.request.Request.TheVariants.{Carry};
ghost use Rattle.live_talks.specs.live_requests.Requests.{request_name};
ghost use Rattle.live_searches.specs.Steps.{IsSameRun};
ghost use Rattle.live_searches.specs.Values.{variable_value_at};
ghost use Rattle.live_talks.specs.Ends.{end_line as line_of_end};
ghost use Rattle.live_session.specs.Ends.{end_carried as end_of_command, end_asked as end_of_moves};
ghost use Rattle.live_session.specs.Replies.{or_none as or_none_of, value_reply, RepliesStack, RepliesCall, RepliesHeap, RepliesCost};
ghost use Rattle.live_session.specs.Serving.{AnswersRequest, request_for, Moves};

use crate::ends::{end_asked, end_carried};
use live_accounts::{tell_cost, tell_heap};
use live_searches::{Detail, Lost, Moved, SourceDebugger, make, tell_value};
use live_talks::{Ask, Command, End, NoMemory, arguments, end_line, limited, limited_ask, name_in};
use std::alloc::{AllocError, Global};

/// Why there is no reply: no memory was left.
#[derive(Clone, Copy, PartialEq, Eq, Debug)]
pub(crate) enum Unanswered {
    /// For the command, and the position is as before.
    Unmoved,
    /// Only for the last line.
    Moved,
}

// What a command printed, and the last line.
fn ended(
    limit: Option<u64>,
    command: Command,
    from: u64,
    to: u64,
    text: String,
) -> Result<String, Unanswered>
    ensures told { IfOk result (λ reply. string_bytes reply ≡ string_bytes text
        ++ line_of_end (end_of_command limit command from to (string_bytes text))) }
    ensures moved { IsErrOf result Unanswered.Unmoved → ⊥ }
{
    let mut text = text;
    let end = end_carried(limit, command, from, to, text.as_str());
    match text.push_str(end_line(end)) {
        Ok(()) => Ok(text),
        Err(_) => Err(Unanswered::Moved),
    }
}

/// Carries out a command, with as many moves as the limit allows, and gives the reply.
pub(crate) fn carry_out(
    alloc: Global,
    debugger: &mut SourceDebugger<'_>,
    limit: Option<u64>,
    command: Command,
) -> Result<String, Unanswered>
    ensures told { IfOk result (λ text. AnswersRequest debugger.old limit (Carry command) debugger.new
        (string_bytes text)) }
    ensures same { IsSameRun debugger.old debugger.new }
    ensures stays { IsErrOf result Unanswered.Unmoved → debugger.new ≡ debugger.old }
{
    let from = debugger.position();
    let mut text = String::new(alloc);
    match debugger.command(alloc, &limited(limit, command), &mut text) {
        Ok(()) => ended(limit, command, from, debugger.position(), text),
        Err(NoMemory) => Err(Unanswered::Unmoved),
    }
}

// What moves printed, and the last line.
fn ended_moves(limit: Option<u64>, ask: Ask, moved: Moved) -> Result<String, Unanswered>
    ensures told { IfOk result (λ reply. string_bytes reply ≡ string_bytes moved.text
        ++ line_of_end (end_of_moves limit ask moved.how (string_bytes moved.text))) }
    ensures moved { IsErrOf result Unanswered.Unmoved → ⊥ }
{
    let mut text = moved.text;
    let last = end_line(end_asked(limit, ask, moved.how, text.as_str()));
    match text.push_str(last) {
        Ok(()) => Ok(text),
        Err(_) => Err(Unanswered::Moved),
    }
}

/// Makes as many moves that words ask for as the limit allows, and gives the reply.
pub(crate) fn carry_moves(
    alloc: Global,
    debugger: &mut SourceDebugger<'_>,
    limit: Option<u64>,
    ask: Ask,
    words: &[&[u8]],
) -> Result<String, Unanswered>
    ensures told { IfOk result (λ text. Moves debugger.old limit ask
        (map (λ word. word.now) words.now) debugger.new (string_bytes text)) }
    ensures same { IsSameRun debugger.old debugger.new }
    ensures stays { IsErrOf result Unanswered.Unmoved → debugger.new ≡ debugger.old }
{
    match make(
        alloc,
        debugger,
        limited_ask(limit, ask),
        arguments(ask.back, words),
    ) {
        Ok(moved) => ended_moves(limit, ask, moved),
        Err(Lost::Unmoved) => Err(Unanswered::Unmoved),
        Err(Lost::Moved) => Err(Unanswered::Moved),
    }
}

// Lines with their last line; there may be nothing to say.
fn or_none(alloc: Global, text: Option<String>) -> Result<String, AllocError>
    ensures { IfOk result (λ reply. string_bytes reply ≡ or_none_of (option_map string_bytes text)) }
{
    match text {
        None => {
            let mut text = String::new(alloc);
            text.push_str(end_line(End::None))?;
            Ok(text)
        }
        Some(mut text) => {
            text.push_str(end_line(End::Done))?;
            Ok(text)
        }
    }
}

/// The reply on what fails: what is asked of the step that fails.
pub(crate) fn tell_failure(
    alloc: Global,
    debugger: &mut SourceDebugger<'_>,
    limit: Option<u64>,
    detail: Detail,
) -> Result<String, NoMemory>
    ensures told { IfOk result (λ text. AnswersRequest debugger.old limit (request_for detail)
        debugger.new (string_bytes text)) }
    ensures stays { debugger.new ≡ debugger.old }
{
    let text = debugger.failure(alloc, detail)?;
    let reply = or_none(alloc, text)?;
    Ok(reply)
}

/// The reply on the lines of a call.
pub(crate) fn tell_call(
    alloc: Global,
    debugger: &mut SourceDebugger<'_>,
    depth: u64,
) -> Result<String, NoMemory>
    ensures told { IfOk result (λ text. RepliesCall (source_of debugger.old.program)
        (account_of debugger.old) depth debugger.old.position (string_bytes text)
        debugger.new.position) }
    ensures stays { debugger.new ≡ debugger.old }
{
    let text = debugger.call(alloc, depth)?;
    let reply = or_none(alloc, text)?;
    Ok(reply)
}

/// The reply on the active calls.
pub(crate) fn tell_stack(
    alloc: Global,
    debugger: &mut SourceDebugger<'_>,
) -> Result<String, NoMemory>
    ensures told { IfOk result (λ text. RepliesStack (source_of debugger.old.program)
        (account_of debugger.old) debugger.old.position (string_bytes text)
        debugger.new.position) }
    ensures stays { debugger.new ≡ debugger.old }
{
    let mut text = debugger.stack(alloc)?;
    text.push_str(end_line(End::Done))?;
    Ok(text)
}

/// The reply on the heap.
pub(crate) fn tell_blocks(alloc: Global, debugger: &SourceDebugger<'_>) -> Result<String, NoMemory>
    ensures { IfOk result (λ text. RepliesHeap (source_of debugger.now.program)
        (account_of debugger.now) debugger.now.position (string_bytes text)
        debugger.now.position) }
{
    let mut text = tell_heap(alloc, debugger)?;
    text.push_str(end_line(End::Done))?;
    Ok(text)
}

/// The reply on what the run has cost.
pub(crate) fn tell_spent(alloc: Global, debugger: &SourceDebugger<'_>) -> Result<String, NoMemory>
    ensures { IfOk result (λ text. RepliesCost (source_of debugger.now.program)
        (account_of debugger.now) debugger.now.position (string_bytes text)
        debugger.now.position) }
{
    let mut text = tell_cost(alloc, debugger)?;
    text.push_str(end_line(End::Done))?;
    Ok(text)
}

// A line with the last line; there may be no line.
fn line_or_none(alloc: Global, line: Option<Vec<u8>>) -> Result<Vec<u8>, AllocError>
    ensures { IfOk result (λ reply. reply.items ≡ or_none_of (option_map (λ line. line.items) line)) }
{
    match line {
        None => {
            let mut reply = Vec::new(alloc);
            reply.extend_from_slice(end_line(End::None).as_bytes())?;
            Ok(reply)
        }
        Some(mut line) => {
            line.extend_from_slice(end_line(End::Done).as_bytes())?;
            Ok(line)
        }
    }
}

/// The reply on the value of a name, which the line asks for.
pub(crate) fn tell_name(
    alloc: Global,
    debugger: &mut SourceDebugger<'_>,
    line: &[u8],
) -> Result<Vec<u8>, NoMemory>
    ensures told { IfOk result (λ reply. value_reply debugger.old.position
        (variable_value_at (source_of debugger.old.program) (account_of debugger.old).trail
        (request_name line.now) debugger.old.position)
        ≡ Some (record { position = debugger.new.position; text = reply.items })) }
    ensures stays { debugger.new ≡ debugger.old }
{
    let value = tell_value(alloc, debugger, name_in(line))?;
    let reply = line_or_none(alloc, value)?;
    Ok(reply)
}
