// The replies to requests.
ghost use Rattle.std.specs.Prelude.{◌≡◌, false, ⊤, Some, map, string_bytes};
ghost use Rattle.live_talks.specs.pisa_scripts.Lines.{pieces as pieces_of};
ghost use Rattle.live_searches.specs.rpp_tree.Views.{source_of};
ghost use Rattle.live_searches.specs.source_debugger.Failures.{account_of};
ghost use Rattle.live_talks.specs.live_requests.declared.request.Request.TheVariants.{Carry};
ghost use Rattle.live_talks.specs.live_requests.Requests.{is_quit};
ghost use Rattle.live_talks.specs.Talks.{PutsText};
ghost use Rattle.live_talks.specs.Serving.{OrMemory, PutsBy};
ghost use Rattle.live_session.specs.Replies.{along as moves_along, asked_moves, IsReplyOf};
ghost use Rattle.live_searches.specs.Steps.{IsSameRun};
ghost use Rattle.live_session.specs.Serving.{RepliesTo, RepliesMoves, made_or_memory};

use crate::telling::{
    Unanswered, carry_moves, carry_out, tell_blocks, tell_call, tell_failure, tell_name,
    tell_spent, tell_stack,
};
use live_searches::{Detail, SourceDebugger};
use live_talks::{
    Ask, Command, End, Goal, NoMemory, Request, Sink, pieces, read_ask, say_bye, say_bytes,
    say_end, say_text,
};
use std::alloc::Global;

const NO_MEMORY: u8 = 7;

// Puts a text that was made, or says that there was no memory for it.
fn say_made<K: Sink>(made: Result<String, NoMemory>, out: &mut K) -> Option<u8>
    ensures { PutsText (made_or_memory string_bytes made)
        (record { bytes = K.written out.old; puts = K.puts out.old })
        (record { bytes = K.written out.new; puts = K.puts out.new }) result }
{
    match made {
        Ok(text) => say_text(out, text.as_str()),
        Err(NoMemory) => say_end(out, End::Memory),
    }
}

// The same of bytes.
fn say_line<K: Sink>(made: Result<Vec<u8>, NoMemory>, out: &mut K) -> Option<u8>
    ensures { PutsText (made_or_memory (λ line. line.items) made)
        (record { bytes = K.written out.old; puts = K.puts out.old })
        (record { bytes = K.written out.new; puts = K.puts out.new }) result }
{
    match made {
        Ok(line) => say_bytes(out, &line),
        Err(NoMemory) => say_end(out, End::Memory),
    }
}

// Carries out a command, and puts the reply.
fn say_carried<K: Sink>(
    alloc: Global,
    debugger: &mut SourceDebugger<'_>,
    limit: Option<u64>,
    command: Command,
    out: &mut K,
) -> Option<u8>
    ensures puts { PutsBy (OrMemory (RepliesTo (source_of debugger.old.program)
        (account_of debugger.old) limit (Carry command) debugger.old.position)
        debugger.old.position) false ⊤ debugger.old.position debugger.new.position
        (record { bytes = K.written out.old; puts = K.puts out.old })
        (record { bytes = K.written out.new; puts = K.puts out.new }) result }
    ensures same { IsSameRun debugger.old debugger.new }
{
    match carry_out(alloc, debugger, limit, command) {
        Ok(text) => say_text(out, text.as_str()),
        Err(Unanswered::Unmoved) => say_end(out, End::Memory),
        Err(Unanswered::Moved) => Some(NO_MEMORY),
    }
}

// Makes the moves that words ask for, and puts the reply.
fn say_moves<K: Sink>(
    alloc: Global,
    debugger: &mut SourceDebugger<'_>,
    limit: Option<u64>,
    ask: Ask,
    words: &[&[u8]],
    out: &mut K,
) -> Option<u8>
    ensures puts { PutsBy (OrMemory (RepliesMoves (source_of debugger.old.program)
        (account_of debugger.old) limit (Some ask) (map (λ word. word.now) words.now)
        debugger.old.position) debugger.old.position) false ⊤ debugger.old.position
        debugger.new.position (record { bytes = K.written out.old; puts = K.puts out.old })
        (record { bytes = K.written out.new; puts = K.puts out.new }) result }
    ensures same { IsSameRun debugger.old debugger.new }
{
    match carry_moves(alloc, debugger, limit, ask, words) {
        Ok(text) => say_text(out, text.as_str()),
        Err(Unanswered::Unmoved) => say_end(out, End::Memory),
        Err(Unanswered::Moved) => Some(NO_MEMORY),
    }
}

// Moves along the points of a run: it has no memory cells.
fn along(ask: Option<Ask>) -> Option<Ask>
    ensures { result ≡ moves_along ask }
{
    let ask = ask?;
    match ask.goal {
        Goal::Cell(_address) => None,
        Goal::Points => Some(ask),
        Goal::Any => Some(ask),
        Goal::Depth(_most) => Some(ask),
        Goal::Change => Some(ask),
    }
}

// Puts the reply to words that are no command of a script.
fn say_words<K: Sink>(
    alloc: Global,
    debugger: &mut SourceDebugger<'_>,
    limit: Option<u64>,
    words: &[&[u8]],
    out: &mut K,
) -> Option<u8>
    ensures puts { PutsBy (OrMemory (RepliesMoves (source_of debugger.old.program)
        (account_of debugger.old) limit (asked_moves (map (λ word. word.now) words.now))
        (map (λ word. word.now) words.now) debugger.old.position) debugger.old.position) false ⊤
        debugger.old.position debugger.new.position
        (record { bytes = K.written out.old; puts = K.puts out.old })
        (record { bytes = K.written out.new; puts = K.puts out.new }) result }
    ensures same { IsSameRun debugger.old debugger.new }
{
    match along(read_ask(words)) {
        None => say_end(out, End::Bad),
        Some(ask) => say_moves(alloc, debugger, limit, ask, words, out),
    }
}

// Puts the reply to a line that is no command of a script.
fn say_asked<K: Sink>(
    alloc: Global,
    debugger: &mut SourceDebugger<'_>,
    limit: Option<u64>,
    line: &[u8],
    out: &mut K,
) -> Option<u8>
    ensures puts { PutsBy (OrMemory (RepliesMoves (source_of debugger.old.program)
        (account_of debugger.old) limit (asked_moves (pieces_of 32 line.now)) (pieces_of 32 line.now)
        debugger.old.position) debugger.old.position) false ⊤ debugger.old.position
        debugger.new.position (record { bytes = K.written out.old; puts = K.puts out.old })
        (record { bytes = K.written out.new; puts = K.puts out.new }) result }
    ensures same { IsSameRun debugger.old debugger.new }
{
    match pieces(alloc, b' ', line) {
        Ok(words) => say_words(alloc, debugger, limit, &words, out),
        Err(_lack) => say_end(out, End::Memory),
    }
}

/// Puts the reply to a line, by the request that it is read as. There is a status where the session
/// ends.
pub(crate) fn answer<K: Sink>(
    alloc: Global,
    debugger: &mut SourceDebugger<'_>,
    limit: Option<u64>,
    request: Request,
    line: &[u8],
    out: &mut K,
) -> Option<u8>
    ensures puts { PutsBy (OrMemory (IsReplyOf (source_of debugger.old.program)
        (account_of debugger.old) limit request line.now debugger.old.position)
        debugger.old.position) (is_quit request) ⊤ debugger.old.position debugger.new.position
        (record { bytes = K.written out.old; puts = K.puts out.old })
        (record { bytes = K.written out.new; puts = K.puts out.new }) result }
    ensures same { IsSameRun debugger.old debugger.new }
{
    match request {
        Request::Nothing => say_end(out, End::Done),
        Request::Carry(command) => say_carried(alloc, debugger, limit, command, out),
        Request::Stack => say_made(tell_stack(alloc, debugger), out),
        Request::RegsOf(depth) => say_made(tell_call(alloc, debugger, depth), out),
        Request::Fault => say_made(tell_failure(alloc, debugger, limit, Detail::Test), out),
        Request::FaultCells(from, count) => {
            let detail = Detail::Cells { from, count };
            say_made(tell_failure(alloc, debugger, limit, detail), out)
        }
        Request::Value => say_line(tell_name(alloc, debugger, line), out),
        Request::Heap => say_made(tell_blocks(alloc, debugger), out),
        Request::Spend => say_made(tell_spent(alloc, debugger), out),
        Request::Limit(_most) => say_end(out, End::Done),
        Request::Quit => Some(say_bye(out)),
        Request::Bad => say_asked(alloc, debugger, limit, line, out),
    }
}
