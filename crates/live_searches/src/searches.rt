// Searches.
ghost use Rattle.std.specs.Prelude.{◌≡◌, IfOk, string_bytes, Some, map};
ghost use Rattle.source_debugger.specs.meaning_points.rpp_tree.Views.{source_of};
ghost use Rattle.source_debugger.specs.Shown.{told_by};
ghost use Rattle.source_debugger.specs.Standing.{trail_of};
ghost use Rattle.live_searches.specs.Steps.{IsSameRun};
ghost use Rattle.live_searches.specs.Goals.{search_mark_at, wanted as wanted_at};
ghost use Rattle.live_searches.specs.Sights.{kept_mark_of};
ghost use Rattle.live_searches.specs.Searches.{seek as seek_in, all_made};
ghost use Rattle.live_searches.specs.Turns.{IsTurn, IsTurnJudged};
ghost use Rattle.live_requests.specs.Asks.{way_of};

use crate::goals::{Mark, make_mark, wanted};
use crate::moves::{Moved, Outcome, Step, go, way};
use live_requests::{Ask, Command};
use source_debugger::{NoMemory, SourceDebugger};
use std::alloc::Global;

// What one move of a search comes to.
#[derive(Drop)]
pub(crate) enum Turn {
    // The search goes on.
    On,
    // It ended.
    Over { moved: Moved },
    // There was no memory.
    Lost { lack: NoMemory },
}

// Whether a search ends at the position, to which a move led with this line.
fn judge(
    alloc: Global,
    debugger: &mut SourceDebugger<'_>,
    ask: Ask,
    arguments: &[&[u8]],
    from: &Mark,
    line: String,
) -> Turn
    ensures judged { IsTurnJudged (string_bytes line) (wanted_at (source_of debugger.old.program)
        (trail_of debugger.old) ask.goal (map (λ word. word.now) arguments.now)
        (Some (kept_mark_of from.now)) debugger.old.position) result }
    ensures stays { debugger.new ≡ debugger.old }
{
    match wanted(alloc, debugger, ask.goal, arguments, from) {
        Ok(met) => {
            if met {
                Turn::Over {
                    moved: Moved {
                        text: line,
                        how: Outcome::Met,
                    },
                }
            } else {
                Turn::On
            }
        }
        Err(lack) => Turn::Lost { lack },
    }
}

// One move of a search.
fn make_turn(
    alloc: Global,
    debugger: &mut SourceDebugger<'_>,
    ask: Ask,
    arguments: &[&[u8]],
    from: &Mark,
) -> Turn
    ensures turned { IsTurn debugger.old (way_of ask.back)
        (wanted_at (source_of debugger.old.program) (trail_of debugger.old) ask.goal
        (map (λ word. word.now) arguments.now) (Some (kept_mark_of from.now)))
        debugger.new result }
    ensures same { IsSameRun debugger.old debugger.new }
{
    let mut line = String::new(alloc);
    match go(alloc, debugger, way(ask.back), &mut line) {
        Step::Gone => judge(alloc, debugger, ask, arguments, from, line),
        Step::Stuck => Turn::Over {
            moved: Moved {
                text: line,
                how: Outcome::Stopped,
            },
        },
        Step::Lost { lack } => Turn::Lost { lack },
    }
}

// The line on the position, where all moves are made.
fn stop(alloc: Global, debugger: &mut SourceDebugger<'_>) -> Result<Moved, NoMemory>
    ensures told { IfOk result (λ moved. all_made (told_by (source_of debugger.old.program)
        (trail_of debugger.old) (Command.Step 0) debugger.old.position)
        ≡ Some (record {
          position = debugger.new.position;
          text = string_bytes moved.text;
          how = moved.how;
        })) }
    ensures same { IsSameRun debugger.old debugger.new }
{
    let mut text = String::new(alloc);
    debugger.command(alloc, &Command::Step(0), &mut text)?;
    Ok(Moved {
        text,
        how: Outcome::Made,
    })
}

// A search from the position on, at most so far. If memory runs out, some moves were made.
fn seek_on(
    alloc: Global,
    debugger: &mut SourceDebugger<'_>,
    ask: Ask,
    arguments: &[&[u8]],
    from: &Mark,
) -> Result<Moved, NoMemory>
    ensures told { IfOk result (λ moved. seek_in (source_of debugger.old.program)
        (trail_of debugger.old) (way_of ask.back)
        (wanted_at (source_of debugger.old.program) (trail_of debugger.old) ask.goal
        (map (λ word. word.now) arguments.now) (Some (kept_mark_of from.now)))
        ask.most debugger.old.position
        ≡ Some (record {
          position = debugger.new.position;
          text = string_bytes moved.text;
          how = moved.how;
        })) }
    ensures same { IsSameRun debugger.old debugger.new }
{
    for _ in 0..ask.most {
        match make_turn(alloc, debugger, ask, arguments, from) {
            Turn::On => {}
            Turn::Over { moved } => return Ok(moved),
            Turn::Lost { lack } => return Err(lack),
        }
    }
    stop(alloc, debugger)
}

/// A search from the position on. If memory runs out, some moves were made.
pub(crate) fn seek(
    alloc: Global,
    debugger: &mut SourceDebugger<'_>,
    ask: Ask,
    arguments: &[&[u8]],
) -> Result<Moved, NoMemory>
    ensures told { IfOk result (λ moved. seek_in (source_of debugger.old.program)
        (trail_of debugger.old) (way_of ask.back)
        (wanted_at (source_of debugger.old.program) (trail_of debugger.old) ask.goal
        (map (λ word. word.now) arguments.now)
        (search_mark_at (source_of debugger.old.program) (trail_of debugger.old)
        (map (λ word. word.now) arguments.now) debugger.old.position))
        ask.most debugger.old.position
        ≡ Some (record {
          position = debugger.new.position;
          text = string_bytes moved.text;
          how = moved.how;
        })) }
    ensures same { IsSameRun debugger.old debugger.new }
{
    let from = make_mark(alloc, debugger, arguments)?;
    seek_on(alloc, debugger, ask, arguments, &from)
}
