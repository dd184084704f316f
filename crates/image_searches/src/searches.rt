// Searches.
ghost use Rattle.std.specs.Prelude.{◌≡◌, IfOk, OnErr, string_bytes, map};
ghost use Rattle.image_searches.specs.Steps.{led_to, ImageMovesSome};
ghost use Rattle.image_searches.specs.Goals.{sought, is_wanted};
ghost use Rattle.image_searches.specs.Sights.{sought_in};
ghost use Rattle.image_searches.specs.Searches.{image_found, image_seek as seek_in};
ghost use Rattle.image_searches.specs.Turns.{turn_by, IsImageTurn};
ghost use Rattle.live_requests.specs.Asks.{way_of};

use crate::goals::{Aim, take_aim, wanted};
use crate::moves::{Moved, Outcome, Step, go, way};
use live_requests::{Ask, Command, Debugger, NoMemory, Steps};
use std::alloc::Global;
use std::sync::ledger::Ledger;

// What one move of a search comes to.
#[derive(Clone, Copy, PartialEq, Eq, Debug)]
pub(crate) enum Turn {
    // The search goes on.
    On,
    // It ended.
    Over(Outcome),
    // There was no memory.
    Lost { lack: NoMemory },
}

// Whether a search ends at a position that it looks for.
fn judge(met: bool) -> Turn
    ensures { result ≡ turn_by met }
{
    if met {
        Turn::Over(Outcome::Met)
    } else {
        Turn::On
    }
}

// One move of a search. The line is that of the move.
fn make_turn<L: Ledger>(
    alloc: Global,
    debugger: &mut Debugger,
    steps: &mut Steps<L>,
    way: Command,
    aim: &Aim,
    line: &mut String,
) -> Turn
    ensures position { debugger.new ≡ led_to way debugger.old }
    ensures turned { IsImageTurn way (is_wanted (sought_in aim.now)) debugger.old
        (string_bytes line.new) result }
{
    line.clear();
    match go(alloc, debugger, steps, way, line) {
        Step::Gone => judge(wanted(debugger.machine(), aim)),
        Step::Stuck => Turn::Over(Outcome::Stopped),
        Step::Lost { lack } => Turn::Lost { lack },
    }
}

// The line of the position, where all moves are made.
fn stop<L: Ledger>(
    alloc: Global,
    debugger: &mut Debugger,
    steps: &mut Steps<L>,
) -> Result<Moved, NoMemory>
    ensures found { IfOk result (λ moved. image_found (Command.Step 0) debugger.old Outcome.Made
        ≡ record {
          position = debugger.new;
          text = string_bytes moved.text;
          how = moved.how;
        }) }
    ensures stays { debugger.new ≡ debugger.old }
{
    let mut text = String::new(alloc);
    debugger.command(alloc, &Command::Step(0), &mut text, steps)?;
    Ok(Moved {
        text,
        how: Outcome::Made,
    })
}

// A search from the position on, at most so far. If memory runs out, some moves were made.
fn seek_on<L: Ledger>(
    alloc: Global,
    debugger: &mut Debugger,
    steps: &mut Steps<L>,
    way: Command,
    most: u64,
    aim: &Aim,
) -> Result<Moved, NoMemory>
    ensures found { IfOk result (λ moved. seek_in way (is_wanted (sought_in aim.now)) most
        debugger.old ≡ record {
          position = debugger.new;
          text = string_bytes moved.text;
          how = moved.how;
        }) }
    ensures lost { OnErr result (ImageMovesSome way most debugger.old debugger.new) }
{
    let mut line = String::new(alloc);
    for _ in 0..most {
        match make_turn(alloc, debugger, steps, way, aim, &mut line) {
            Turn::On => {}
            Turn::Over(how) => return Ok(Moved { text: line, how }),
            Turn::Lost { lack } => return Err(lack),
        }
    }
    stop(alloc, debugger, steps)
}

/// A search from the position on. If memory runs out, some moves were made.
pub(crate) fn seek<L: Ledger>(
    alloc: Global,
    debugger: &mut Debugger,
    steps: &mut Steps<L>,
    ask: Ask,
    arguments: &[&[u8]],
) -> Result<Moved, NoMemory>
    ensures found { IfOk result (λ moved. seek_in (way_of ask.back)
        (is_wanted (sought ask.goal (map (λ word. word.now) arguments.now) debugger.old))
        ask.most debugger.old ≡ record {
          position = debugger.new;
          text = string_bytes moved.text;
          how = moved.how;
        }) }
    ensures lost { OnErr result (ImageMovesSome (way_of ask.back) ask.most debugger.old debugger.new) }
{
    let aim = take_aim(alloc, debugger.machine(), ask.goal, arguments)?;
    seek_on(alloc, debugger, steps, way(ask.back), ask.most, &aim)
}
