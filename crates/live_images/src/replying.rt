// The replies to requests.
ghost use Rattle.std.specs.Prelude.{◌≡◌, false, ⊤, Some, map};
ghost use Rattle.live_talks.specs.pisa_scripts.Lines.{pieces as pieces_of};
ghost use Rattle.live_talks.specs.live_requests.Requests.{is_quit};
ghost use Rattle.live_talks.specs.Serving.{PutsBy};
ghost use Rattle.live_images.specs.Replies.{carried, spent, answered_by, answered_words};
ghost use Rattle.live_images.specs.Sessions.{held_in, GivesAnswer, ImageReplies};

use crate::run::Run;
use crate::telling::{read_served, tell_carried, tell_moves, tell_spent};
use image_searches::Steps;
use live_talks::{Ask, Command, End, NoMemory, Request, Sink, pieces, say_bye, say_end, say_text};
use std::alloc::Global;
use std::sync::ledger::Ledger;

const NO_MEMORY: u8 = 7;

// Carries out a command, and puts the reply.
fn say_carried<L: Ledger, K: Sink>(
    alloc: Global,
    run: &mut Run,
    steps: &mut Steps<L>,
    command: Command,
    out: &mut K,
) -> Option<u8>
    ensures { PutsBy (GivesAnswer (carried run.old.limit command run.old.debugger) (held_in run.old))
        false ⊤ (held_in run.old) (held_in run.new)
        (record { bytes = K.written out.old; puts = K.puts out.old })
        (record { bytes = K.written out.new; puts = K.puts out.new }) result }
{
    match tell_carried(alloc, &mut run.debugger, steps, run.limit, command) {
        Ok(text) => say_text(out, text.as_str()),
        Err(NoMemory) => Some(NO_MEMORY),
    }
}

// Puts the number of the position.
fn say_spent<K: Sink>(alloc: Global, run: &mut Run, out: &mut K) -> Option<u8>
    ensures { PutsBy (GivesAnswer (spent run.old.debugger) (held_in run.old))
        false ⊤ (held_in run.old) (held_in run.new)
        (record { bytes = K.written out.old; puts = K.puts out.old })
        (record { bytes = K.written out.new; puts = K.puts out.new }) result }
{
    match tell_spent(alloc, run.debugger.machine()) {
        Ok(text) => say_text(out, text.as_str()),
        Err(_lack) => say_end(out, End::Memory),
    }
}

// Makes the moves that words ask for, and puts the reply.
fn say_moves<L: Ledger, K: Sink>(
    alloc: Global,
    run: &mut Run,
    steps: &mut Steps<L>,
    ask: Ask,
    words: &[&[u8]],
    out: &mut K,
) -> Option<u8>
    ensures { PutsBy (GivesAnswer (answered_by run.old.limit (Some ask)
        (map (λ word. word.now) words.now) run.old.debugger) (held_in run.old))
        false ⊤ (held_in run.old) (held_in run.new)
        (record { bytes = K.written out.old; puts = K.puts out.old })
        (record { bytes = K.written out.new; puts = K.puts out.new }) result }
{
    match tell_moves(alloc, &mut run.debugger, steps, run.limit, ask, words) {
        Ok(text) => say_text(out, text.as_str()),
        Err(NoMemory) => Some(NO_MEMORY),
    }
}

// Puts the reply to words that are no command of a script.
fn say_words<L: Ledger, K: Sink>(
    alloc: Global,
    run: &mut Run,
    steps: &mut Steps<L>,
    words: &[&[u8]],
    out: &mut K,
) -> Option<u8>
    ensures { PutsBy (GivesAnswer (answered_words run.old.limit (map (λ word. word.now) words.now)
        run.old.debugger) (held_in run.old))
        false ⊤ (held_in run.old) (held_in run.new)
        (record { bytes = K.written out.old; puts = K.puts out.old })
        (record { bytes = K.written out.new; puts = K.puts out.new }) result }
{
    match read_served(words) {
        None => say_end(out, End::Bad),
        Some(ask) => say_moves(alloc, run, steps, ask, words, out),
    }
}

// Puts the reply to a line that is no command of a script.
fn say_asked<L: Ledger, K: Sink>(
    alloc: Global,
    run: &mut Run,
    steps: &mut Steps<L>,
    line: &[u8],
    out: &mut K,
) -> Option<u8>
    ensures { PutsBy (GivesAnswer (answered_words run.old.limit (pieces_of 32 line.now)
        run.old.debugger) (held_in run.old))
        false ⊤ (held_in run.old) (held_in run.new)
        (record { bytes = K.written out.old; puts = K.puts out.old })
        (record { bytes = K.written out.new; puts = K.puts out.new }) result }
{
    match pieces(alloc, b' ', line) {
        Ok(words) => say_words(alloc, run, steps, &words, out),
        Err(_lack) => say_end(out, End::Memory),
    }
}

/// Puts the reply to a line, by the request that it is read as. There is a status where the session
/// ends.
pub(crate) fn answer<L: Ledger, K: Sink>(
    alloc: Global,
    run: &mut Run,
    steps: &mut Steps<L>,
    request: Request,
    line: &[u8],
    out: &mut K,
) -> Option<u8>
    ensures { PutsBy (ImageReplies request line.now (held_in run.old)) (is_quit request) ⊤
        (held_in run.old) (held_in run.new)
        (record { bytes = K.written out.old; puts = K.puts out.old })
        (record { bytes = K.written out.new; puts = K.puts out.new }) result }
{
    match request {
        Request::Nothing => say_end(out, End::Done),
        Request::Carry(command) => say_carried(alloc, run, steps, command, out),
        Request::Spend => say_spent(alloc, run, out),
        Request::Limit(most) => {
            run.limit = Some(most);
            say_end(out, End::Done)
        }
        Request::Stack => say_end(out, End::Bad),
        Request::RegsOf(_depth) => say_end(out, End::Bad),
        Request::Fault => say_end(out, End::Bad),
        Request::FaultCells(_from, _count) => say_end(out, End::Bad),
        Request::Value => say_end(out, End::Bad),
        Request::Heap => say_end(out, End::Bad),
        Request::Quit => Some(say_bye(out)),
        Request::Bad => say_asked(alloc, run, steps, line, out),
    }
}
