// Moves that are asked for.
ghost use Rattle.std.specs.Prelude.{◌≡◌, ◌-◌, IfOk, IsErrOf, true, string_bytes, Some, map};
ghost use Rattle.source_debugger.specs.meaning_points.rpp_tree.Views.{source_of};
ghost use Rattle.source_debugger.specs.Standing.{trail_of};
ghost use Rattle.live_searches.specs.Steps.{IsSameRun};
ghost use Rattle.live_searches.specs.Makings.{made, return_way};

use crate::lists::points;
use crate::moves::{Moved, way};
use crate::searches::seek;
use live_requests::{Ask, Command, Goal};
use source_debugger::{NoMemory, SourceDebugger};
use std::alloc::Global;

/// There was no memory for moves.
#[derive(Clone, Copy, PartialEq, Eq, Debug)]
pub enum Lost {
    /// The position is as before.
    Unmoved,
    /// Some moves were made, and there was no memory to undo them.
    Moved,
}

// The way from a position to another.
fn way_back(from: u64, to: u64) -> Command
    ensures { result ≡ return_way from to }
{
    if from < to {
        Command::Step(to - from)
    } else {
        Command::Back(from - to)
    }
}

// Goes to a position, as a rule. It returns whether it is there.
fn return_to(alloc: Global, debugger: &mut SourceDebugger<'_>, position: u64) -> bool
    ensures there { result ≡ true → debugger.new.position ≡ position }
    ensures same { IsSameRun debugger.old debugger.new }
{
    let mut text = String::new(alloc);
    match debugger.command(alloc, &way_back(debugger.position(), position), &mut text) {
        Ok(()) => debugger.position() == position,
        Err(NoMemory) => false,
    }
}

fn make_on(
    alloc: Global,
    debugger: &mut SourceDebugger<'_>,
    ask: Ask,
    arguments: &[&[u8]],
) -> Result<Moved, NoMemory>
    ensures told { IfOk result (λ moved. made (source_of debugger.old.program)
        (trail_of debugger.old) ask (map (λ word. word.now) arguments.now) debugger.old.position
        ≡ Some (record {
          position = debugger.new.position;
          text = string_bytes moved.text;
          how = moved.how;
        })) }
    ensures same { IsSameRun debugger.old debugger.new }
{
    match ask.goal {
        Goal::Points => points(alloc, debugger, way(ask.back), ask.most),
        Goal::Any => seek(alloc, debugger, ask, arguments),
        Goal::Depth(_depth) => seek(alloc, debugger, ask, arguments),
        Goal::Change => seek(alloc, debugger, ask, arguments),
        Goal::Cell(_address) => seek(alloc, debugger, ask, arguments),
    }
}

/// Makes moves that are asked for. If memory runs out, those that were made are undone, unless
/// there is no memory for that either.
pub fn make(
    alloc: Global,
    debugger: &mut SourceDebugger<'_>,
    ask: Ask,
    arguments: &[&[u8]],
) -> Result<Moved, Lost>
    ensures told { IfOk result (λ moved. made (source_of debugger.old.program)
        (trail_of debugger.old) ask (map (λ word. word.now) arguments.now) debugger.old.position
        ≡ Some (record {
          position = debugger.new.position;
          text = string_bytes moved.text;
          how = moved.how;
        })) }
    ensures same { IsSameRun debugger.old debugger.new }
    ensures stays { IsErrOf result Lost.Unmoved → debugger.new ≡ debugger.old }
{
    let from = debugger.position();
    match make_on(alloc, debugger, ask, arguments) {
        Ok(moved) => Ok(moved),
        Err(NoMemory) => {
            if return_to(alloc, debugger, from) {
                Err(Lost::Unmoved)
            } else {
                Err(Lost::Moved)
            }
        }
    }
}
