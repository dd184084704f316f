// Single moves.
ghost use Rattle.std.specs.Prelude.{◌≡◌, nat_eq, if◌then◌else◌, string_bytes};
ghost use Rattle.live_searches.specs.Steps.{Goes};
ghost use Rattle.live_requests.specs.Asks.{way_of};

use live_requests::Command;
use source_debugger::{NoMemory, SourceDebugger};
use std::alloc::Global;

/// How moves ended.
#[derive(Clone, Copy, PartialEq, Eq, Debug)]
pub enum Outcome {
    /// At a position that they look for.
    Met,
    /// All were made.
    Made,
    /// Where one more leads nowhere.
    Stopped,
}

/// What moves printed, and how they ended.
#[derive(Drop)]
pub struct Moved {
    pub text: String,
    pub how: Outcome,
}

// What one move comes to.
#[derive(Clone, Copy, PartialEq, Eq, Debug)]
pub(crate) enum Step {
    /// It leads to another position.
    Gone,
    /// It leads nowhere.
    Stuck,
    /// There was no memory for it.
    Lost { lack: NoMemory },
}

/// One move back or forward.
pub(crate) fn way(back: bool) -> Command
    ensures { result ≡ way_of back }
{
    if back {
        Command::Back(1)
    } else {
        Command::Step(1)
    }
}

// Whether a debugger is at a position.
fn is_at(debugger: &SourceDebugger<'_>, position: u64) -> bool
    ensures { result ≡ nat_eq debugger.now.position position }
{
    debugger.position() == position
}

fn step_by(stuck: bool) -> Step
    ensures { result ≡ (if stuck then Step.Stuck else Step.Gone) }
{
    if stuck { Step::Stuck } else { Step::Gone }
}

/// Makes one move, and adds what it prints.
pub(crate) fn go(
    alloc: Global,
    debugger: &mut SourceDebugger<'_>,
    way: Command,
    text: &mut String,
) -> Step
    ensures { Goes debugger.old way debugger.new (string_bytes text.old) (string_bytes text.new)
        result }
{
    let from = debugger.position();
    match debugger.command(alloc, &way, text) {
        Ok(()) => step_by(is_at(debugger, from)),
        Err(lack) => Step::Lost { lack },
    }
}
