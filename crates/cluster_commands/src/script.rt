// Reads scripts for several processors.
ghost use Rattle.std.specs.Prelude.{◌≡◌, ◌≤◌, ◌+◌, ℕ, All, [], map, length, IfOk, OnOk, IfSome};
ghost use Rattle.command_plan.specs.pisa_scripts.Lines.{pieces as pieces_of, number_up_to as number_of};
ghost use Rattle.cluster_commands.specs.ClusterScripts.{IsEvent, from_one, script_event as event_of_words, step_event, undo_event, rewind_event, with_event_line, events_from, events_of, EventsGive};

use crate::error::ScriptError;
use command_plan::{MOST_SCRIPT, is_blank, number_up_to, pieces, without_returns};
use std::alloc::Global;

/// The most steps that one line asks for.
pub const MOST_AT_ONCE: u32 = 10_000;

/// What a line of a script asks of the processors, which are numbered from 1.
#[derive(Clone, Copy, PartialEq, Eq, Debug)]
pub enum Event {
    /// Up to so many steps of a processor.
    Step { who: u32, count: u32 },
    /// The last step of a processor is to be taken back.
    Undo { who: u32 },
    /// All steps are to be taken back.
    Rewind,
}

/// What a script asks of so many processors. A line of it is blank, or `step I N`, `undo I` or
/// `rewind`, with one space between words; a carriage return before a line feed is dropped. The
/// first line that is neither is refused.
pub(crate) fn read_events(
    alloc: Global,
    processors: u32,
    bytes: &[u8],
) -> Result<Vec<Event>, ScriptError>
    requires { length bytes.now ≤ MOST_SCRIPT }
    ensures events { EventsGive (λ events. events.items) result (events_of processors bytes.now) }
    ensures there { IfOk result (λ events. All (IsEvent processors) events.items) }
    ensures few { IfOk result (λ events. length events.items ≤ MOST_SCRIPT + 1) }
{
    let text = without_returns(alloc, bytes)?;
    read_lines(alloc, processors, &text)
}

// The events of the lines, which line feeds part.
fn read_lines(alloc: Global, processors: u32, text: &[u8]) -> Result<Vec<Event>, ScriptError>
    requires { length text.now ≤ MOST_SCRIPT }
    ensures events { EventsGive (λ events. events.items) result
        (events_from processors 1 [] (pieces_of 10 text.now)) }
    ensures there { IfOk result (λ events. All (IsEvent processors) events.items) }
    ensures few { IfOk result (λ events. length events.items ≤ length text.now + 1) }
{
    let lines = pieces(alloc, b'\n', text)?;
    let mut events = Vec::new(alloc);
    let mut number = 1;
    for line in &lines {
        add_line(alloc, processors, &mut events, number, line)?;
        number += 1;
    }
    Ok(events)
}

// Puts the event of a line at the end, unless the line is blank.
fn add_line(
    alloc: Global,
    processors: u32,
    events: &mut Vec<Event>,
    number: u32,
    line: &[u8],
) -> Result<(), ScriptError>
    requires { All (IsEvent processors) events.old.items }
    ensures events { EventsGive (λ _. events.new.items) result
        (with_event_line processors number events.old.items line.now) }
    ensures there { OnOk result (All (IsEvent processors) events.new.items) }
    ensures one { OnOk result (length events.new.items ≤ length events.old.items + 1) }
{
    if is_blank(line) {
        return Ok(());
    }
    let words = pieces(alloc, b' ', line)?;
    let Some(event) = event_of(processors, &words) else {
        return Err(ScriptError::BadEvent { line: number });
    };
    events.push(event)?;
    Ok(())
}

// The event that words are, if they are one.
fn event_of(processors: u32, words: &[&[u8]]) -> Option<Event>
    ensures event { result ≡ event_of_words processors (map (λ word. word.now) words.now) }
    ensures there { IfSome result (IsEvent processors) }
{
    let (name, args) = words.split_first()?;
    match *name {
        b"step" => step_of(processors, args),
        b"undo" => undo_of(processors, args),
        b"rewind" => rewind_of(args),
        _ => None,
    }
}

// A number from 1 to so much.
fn counted(most: u32, word: &[u8]) -> Option<u32>
    ensures value { result ≡ from_one (number_of most word.now) }
    ensures within { IfSome result (λ number. (1 ≤ number) × (number ≤ most)) }
{
    let number = number_up_to(u64::from(most), word)?;
    if number == 0 {
        return None;
    }
    Some(number as u32)
}

fn step_of(processors: u32, args: &[&[u8]]) -> Option<Event>
    ensures event { result ≡ step_event processors (map (λ word. word.now) args.now) }
    ensures there { IfSome result (IsEvent processors) }
{
    match args {
        [who, count] => {
            let who = counted(processors, who)?;
            let count = counted(MOST_AT_ONCE, count)?;
            Some(Event::Step { who, count })
        }
        _ => None,
    }
}

fn undo_of(processors: u32, args: &[&[u8]]) -> Option<Event>
    ensures event { result ≡ undo_event processors (map (λ word. word.now) args.now) }
    ensures there { IfSome result (IsEvent processors) }
{
    match args {
        [who] => {
            let who = counted(processors, who)?;
            Some(Event::Undo { who })
        }
        _ => None,
    }
}

fn rewind_of(args: &[&[u8]]) -> Option<Event>
    ensures event { result ≡ rewind_event (map (λ word. word.now) args.now) }
    ensures there { (processors : ℕ) → IfSome result (IsEvent processors) }
{
    match args {
        [] => Some(Event::Rewind),
        _ => None,
    }
}
