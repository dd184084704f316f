// Single moves.
ghost use Rattle.std.specs.Prelude.{◌≡◌, if◌then◌else◌, string_bytes};
ghost use Rattle.image_searches.specs.Steps.{led_to, ImageGoes};
ghost use Rattle.live_requests.specs.Asks.{way_of};

use live_requests::{Command, Debugger, NoMemory, Steps};
use std::alloc::Global;
use std::sync::ledger::Ledger;

/// How moves ended.
#[derive(Clone, Copy, PartialEq, Eq, Debug)]
pub enum Outcome {
    /// At a position that they look for.
    Met,
    /// All were made.
    Made,
    /// Where one more leads nowhere.
    Stopped,
}

/// What moves printed, and how they ended.
#[derive(Drop)]
pub struct Moved {
    pub text: String,
    pub how: Outcome,
}

// What one move comes to.
#[derive(Clone, Copy, PartialEq, Eq, Debug)]
pub(crate) enum Step {
    /// It leads to another position.
    Gone,
    /// It leads nowhere.
    Stuck,
    /// There was no memory for its line.
    Lost { lack: NoMemory },
}

/// One move back or forward.
pub(crate) fn way(back: bool) -> Command
    ensures { result ≡ way_of back }
{
    if back {
        Command::Back(1)
    } else {
        Command::Step(1)
    }
}

fn step_by(stuck: bool) -> Step
    ensures { result ≡ (if stuck then Step.Stuck else Step.Gone) }
{
    if stuck { Step::Stuck } else { Step::Gone }
}

/// Makes one move, and adds what it prints.
pub(crate) fn go<L: Ledger>(
    alloc: Global,
    debugger: &mut Debugger,
    steps: &mut Steps<L>,
    way: Command,
    text: &mut String,
) -> Step
    ensures position { debugger.new ≡ led_to way debugger.old }
    ensures goes { ImageGoes way debugger.old (string_bytes text.old) (string_bytes text.new) result }
{
    let from = debugger.machine().made();
    match debugger.command(alloc, &way, text, steps) {
        Ok(()) => step_by(debugger.machine().made() == from),
        Err(lack) => Step::Lost { lack },
    }
}
