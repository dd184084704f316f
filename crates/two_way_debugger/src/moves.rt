// Moves along the positions of a machine.
ghost use Rattle.std.specs.Prelude.{◌≡◌, ◌≤◌, ◌+◌, ℤ, Some, true, false, if◌then◌else◌, is_some};
ghost use Rattle.two_way_debugger.specs.Moves.{moved_position, barrier, is_at as at_place, machine_walk, spent_by, MachineWalk};

use pisa_machine::{Machine, Steps};
use pisa_scripts::Stop;
use std::sync::ledger::Ledger;

/// The last position that a debugger moves to.
pub const LAST_POSITION: u64 = pisa_scripts::LAST_POSITION;

/// How the moves of a command ended.
#[derive(Clone, Copy, PartialEq, Eq, Debug)]
pub(crate) enum Ending {
    /// With the last requested one.
    Made,
    /// At the last position.
    Last,
    /// At position 0, if one more step back was requested.
    Start,
    /// At a stop, if one more step was requested.
    Stopped(Stop),
}

// One step forward, or why none is made.
fn step<L: Ledger>(machine: &mut Machine, steps: &mut Steps<L>) -> Option<Ending>
    ensures ending { result ≡ barrier false machine.old }
    ensures position { machine.new ≡ (if is_some result then machine.old else moved_position false machine.old) }
    ensures counter { steps.new ≡ steps.old + spent_by result }
{
    if machine.made() >= LAST_POSITION {
        return Some(Ending::Last);
    }
    match machine.make_step(steps) {
        Some(stop) => Some(Ending::Stopped(stop)),
        None => None,
    }
}

// One step back, or why none is made.
fn step_back<L: Ledger>(machine: &mut Machine, steps: &mut Steps<L>) -> Option<Ending>
    ensures ending { result ≡ barrier true machine.old }
    ensures position { machine.new ≡ (if is_some result then machine.old else moved_position true machine.old) }
    ensures counter { steps.new ≡ steps.old + spent_by result }
{
    if machine.step_back(steps) {
        None
    } else {
        Some(Ending::Start)
    }
}

// One move, or why none is made.
fn move_once<L: Ledger>(
    machine: &mut Machine,
    backward: bool,
    steps: &mut Steps<L>,
) -> Option<Ending>
    ensures ending { result ≡ barrier backward machine.old }
    ensures position { machine.new ≡ (if is_some result then machine.old
        else moved_position backward machine.old) }
    ensures counter { steps.new ≡ steps.old + spent_by result }
{
    if backward {
        step_back(machine, steps)
    } else {
        step(machine, steps)
    }
}

// Whether the machine is at a code address, if there is one to go to.
fn is_at(machine: &Machine, place: Option<i64>) -> bool
    ensures { result ≡ at_place place machine.now }
{
    match place {
        None => false,
        Some(place) => machine.core().pc == place,
    }
}

// At most so many moves forward, in one run of the machine.
fn run_on<L: Ledger>(machine: &mut Machine, most: u64, steps: &mut Steps<L>) -> Ending
    ensures ending { result ≡ (machine_walk false None most machine.old).ending }
    ensures position { machine.new ≡ (machine_walk false None most machine.old).position }
    ensures counter { steps.new ≡ steps.old + (machine_walk false None most machine.old).spent }
{
    let before = machine.made();
    if most == 0 {
        return Ending::Made;
    }
    if before >= LAST_POSITION {
        return Ending::Last;
    }
    let bound = most.min(LAST_POSITION - before);
    let end = machine.run(bound, steps);
    if machine.made() != before + bound {
        Ending::Stopped(end.stop)
    } else if bound != most {
        Ending::Last
    } else {
        Ending::Made
    }
}

// At most so many moves, one by one, up to the first after which the machine is at the code
// address.
fn move_each<L: Ledger>(
    machine: &mut Machine,
    backward: bool,
    place: Option<i64>,
    most: u64,
    steps: &mut Steps<L>,
) -> Ending
    ensures ending { result ≡ (machine_walk backward place most machine.old).ending }
    ensures position { machine.new ≡ (machine_walk backward place most machine.old).position }
    ensures counter { steps.new ≡ steps.old + (machine_walk backward place most machine.old).spent }
    ensures within { (machine_walk backward place most machine.old).spent ≤ most }
{
    for made in 0..most {
        if let Some(ending) = move_once(machine, backward, steps) {
            return ending;
        }
        if is_at(machine, place) {
            return Ending::Made;
        }
    }
    Ending::Made
}

/// At most so many moves, up to the first after which the machine is at the code address. Moves
/// forward without a code address are one run of the machine.
pub(crate) fn make_moves<L: Ledger>(
    machine: &mut Machine,
    backward: bool,
    place: Option<i64>,
    most: u64,
    steps: &mut Steps<L>,
) -> Ending
    ensures ending { result ≡ (machine_walk backward place most machine.old).ending }
    ensures position { machine.new ≡ (machine_walk backward place most machine.old).position }
    ensures counter { steps.new ≡ steps.old + (machine_walk backward place most machine.old).spent }
    ensures within { (machine_walk backward place most machine.old).spent ≤ most }
{
    match place {
        None if !backward => run_on(machine, most, steps),
        _ => move_each(machine, backward, place, most, steps),
    }
}
