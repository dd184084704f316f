// The texts of replies.
ghost use Rattle.std.specs.Prelude.{◌≡◌, ◌++◌, IfOk, Some, map, string_bytes};
ghost use Rattle.live_talks.specs.live_requests.Asks.{ask_of};
ghost use Rattle.live_talks.specs.Ends.{end_line as line_of_end};
ghost use Rattle.live_images.specs.Replies.{reply_of, carried, spent, served as served_words, answered_by};

use crate::ends::{end_carried, end_moved};
use image_searches::{Debugger, Machine, Steps, is_served, make};
use live_talks::{
    Ask, Command, End, NoMemory, arguments, end_line, is_cut_ask, limited, limited_ask, read_ask,
};
use std::alloc::{AllocError, Global};
use std::sync::ledger::Ledger;

// What a reply says, and its last line.
fn ended(text: String, end: End) -> Result<String, AllocError>
    ensures { IfOk result (λ reply. string_bytes reply ≡ string_bytes text ++ line_of_end end) }
{
    let mut text = text;
    text.push_str(end_line(end))?;
    Ok(text)
}

/// Carries out a command with a limit on its moves, and gives the reply. If memory runs out, its
/// moves may have been made.
pub(crate) fn tell_carried<L: Ledger>(
    alloc: Global,
    debugger: &mut Debugger,
    steps: &mut Steps<L>,
    limit: Option<u64>,
    command: Command,
) -> Result<String, NoMemory>
    ensures reply { IfOk result (λ text. string_bytes text
        ≡ reply_of (carried limit command debugger.old)) }
    ensures leads { debugger.new ≡ (carried limit command debugger.old).position }
{
    let from = debugger.machine().made();
    let mut text = String::new(alloc);
    debugger.command(alloc, &limited(limit, command), &mut text, steps)?;
    let to = debugger.machine().made();
    let end = end_carried(limit, command, from, to, text.as_str());
    Ok(ended(text, end)?)
}

/// The reply on the steps of a machine.
pub(crate) fn tell_spent(alloc: Global, machine: &Machine) -> Result<String, AllocError>
    ensures { IfOk result (λ text. string_bytes text ≡ reply_of (spent machine.now)) }
{
    let made = machine.made();
    let text = format!(in alloc; "steps {made}\n")?;
    ended(text, End::Done)
}

/// The moves that words ask for, if the run of an image has them.
pub(crate) fn read_served(words: &[&[u8]]) -> Option<Ask>
    ensures { result ≡ served_words (map (λ word. word.now) words.now)
        (ask_of (map (λ word. word.now) words.now)) }
{
    let ask = read_ask(words)?;
    if is_served(ask.goal, arguments(ask.back, words)) {
        Some(ask)
    } else {
        None
    }
}

/// Makes moves that words ask for with a limit on them, and gives the reply. If memory runs out,
/// some moves were made.
pub(crate) fn tell_moves<L: Ledger>(
    alloc: Global,
    debugger: &mut Debugger,
    steps: &mut Steps<L>,
    limit: Option<u64>,
    ask: Ask,
    words: &[&[u8]],
) -> Result<String, NoMemory>
    ensures reply { IfOk result (λ text. string_bytes text
        ≡ reply_of (answered_by limit (Some ask) (map (λ word. word.now) words.now)
        debugger.old)) }
    ensures leads { IfOk result (λ text. debugger.new
        ≡ (answered_by limit (Some ask) (map (λ word. word.now) words.now)
        debugger.old).position) }
{
    let moves = limited_ask(limit, ask);
    let moved = make(alloc, debugger, steps, moves, arguments(ask.back, words))?;
    let cut = is_cut_ask(limit, ask);
    let end = end_moved(cut, ask.goal, moved.how, moved.text.as_str());
    Ok(ended(moved.text, end)?)
}
