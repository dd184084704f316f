// Runs of at most so many steps.
ghost use Rattle.std.specs.Prelude.{◌≡◌, ◌<◌, ◌≤◌, ◌+◌, ◌↔◌, pos, ◌≤ℤ◌, ◌<ℤ◌, length, IsSome, IsNone, IsTrue, Some};
ghost use Rattle.pisa_isa.specs.Table.{IsCell};
ghost use Rattle.pisa_isa.specs.Machine.{core_state, stop, fetch, IsCode};
ghost use Rattle.pisa_isa.specs.Runs.{run, steps as steps_made, counted, counted_by, stop_at_bound};

use crate::rows::{Outcome, Way, step_by};
use crate::steps::Steps;
use pisa_isa::{Cell, Cells, Core, Stop};
use std::sync::ledger::Ledger;

/// How a run ends.
#[derive(Clone, Copy, PartialEq, Eq, Debug)]
pub struct RunEnd {
    /// Why it ended.
    pub stop: Stop,
    /// How many steps were made. A stop is one of them, except for `OffCode` and `Bound`.
    pub spent: u64,
}

/// How many steps a stop counts for.
pub(crate) fn steps_of(stop: Stop) -> u64
    ensures value { result ≡ counted stop }
    ensures one { result ≤ 1 }
{
    match stop {
        Stop::OffCode(_) | Stop::Bound => 0,
        _ => 1,
    }
}

/// Counts a step, which may be a stop, if it is one that counts.
pub(crate) fn count_step<L: Ledger>(stop: Option<Stop>, steps: &mut Steps<L>)
    ensures { steps.new ≡ steps.old + counted_by stop }
{
    match stop {
        Some(Stop::OffCode(_) | Stop::Bound) => {}
        _ => steps.tick(),
    }
}

/// How a part of a run ends.
#[derive(Clone, Copy)]
pub(crate) struct Leg {
    /// How many steps were made, each of which was no stop.
    pub(crate) made: u64,
    /// Why the machine stops after them, if it does.
    pub(crate) stop: Option<Stop>,
}

/// Whether a place is in the code. A place below 0 is a large number when it is read without its
/// sign, so that one test is enough.
pub(crate) fn is_in_code(code: &[Cell], pc: i64) -> bool
    requires { IsCode code.now }
    ensures answer { IsTrue result ↔ IsSome (fetch code.now pc) }
    ensures low { IsTrue result → pos 0 ≤ℤ pc }
    ensures high { IsTrue result → pc <ℤ pos (length code.now) }
{
    pc.cast_unsigned() < code.len() as u64
}

/// The cell at a code address.
pub(crate) fn cell_at(code: &[Cell], pc: i64) -> &Cell
    requires code { IsCode code.now }
    requires there { IsSome (fetch code.now pc) }
    ensures found { fetch code.now pc ≡ Some result.now }
    ensures cell { IsCell result.now }
{
    &code[pc as usize]
}

/// Writes the place and the branch register back, and the direction.
pub(crate) fn leave(core: &mut Core, way: &Way, back: bool)
    ensures { core.new ≡ record core.old { pc = way.now.pc; br = way.now.br; back = back } }
{
    core.pc = way.pc;
    core.br = way.br;
    core.back = back;
}

/// Makes at most `bound` steps in one direction, up to and with the first that turns it. The code
/// address, the branch register and what is left of the step limit are in locals. At the end they
/// are stored in the core again.
#[inline(always)]
fn run_one_way<C: Cells, L: Ledger>(
    core: &mut Core,
    code: &[Cell],
    cells: &mut C,
    back: bool,
    bound: u64,
    steps: &mut Steps<L>,
) -> Leg
    requires code { IsCode code.now }
    requires back { back ≡ core.old.back }
    ensures makes { steps_made code.now result.made (core_state core.old (C.words cells.old))
        ≡ Some (core_state core.new (C.words cells.new)) }
    ensures stops { IsSome result.stop
        → result.stop ≡ stop code.now (core_state core.new (C.words cells.new)) }
    ensures within { result.made ≤ bound }
    ensures before { IsSome result.stop → result.made < bound }
    ensures goes { IsNone result.stop → 0 < bound → 0 < result.made }
    ensures counter { steps.new ≡ steps.old + result.made }
{
    let mut way = Way::at(core.pc, core.br);
    for made in 0..bound {
        if !is_in_code(code, way.pc) {
            let stop = Some(Stop::OffCode(way.pc));
            leave(core, &way, back);
            return Leg { made, stop };
        }
        let cell = cell_at(code, way.pc);
        match step_by(&mut core.regs, &mut way, cell, back, cells) {
            Outcome::Goes => steps.tick(),
            Outcome::Turns => {
                steps.tick();
                leave(core, &way, !back);
                return Leg {
                    made: made + 1,
                    stop: None,
                };
            }
            Outcome::Stops(stop) => {
                leave(core, &way, back);
                return Leg {
                    made,
                    stop: Some(stop),
                };
            }
        }
    }
    leave(core, &way, back);
    Leg {
        made: bound,
        stop: None,
    }
}

/// Makes at most `bound` steps in the direction that the machine has, up to and with the first that
/// turns it.
fn run_leg<C: Cells, L: Ledger>(
    core: &mut Core,
    code: &[Cell],
    cells: &mut C,
    bound: u64,
    steps: &mut Steps<L>,
) -> Leg
    requires { IsCode code.now }
    ensures makes { steps_made code.now result.made (core_state core.old (C.words cells.old))
        ≡ Some (core_state core.new (C.words cells.new)) }
    ensures stops { IsSome result.stop
        → result.stop ≡ stop code.now (core_state core.new (C.words cells.new)) }
    ensures within { result.made ≤ bound }
    ensures before { IsSome result.stop → result.made < bound }
    ensures goes { IsNone result.stop → 0 < bound → 0 < result.made }
    ensures counter { steps.new ≡ steps.old + result.made }
{
    if core.back {
        run_one_way(core, code, cells, true, bound, steps)
    } else {
        run_one_way(core, code, cells, false, bound, steps)
    }
}

/// Where the allowed steps were made.
pub(crate) fn stop_at_bound(code: &[Cell], pc: i64) -> Stop
    ensures { result ≡ stop_at_bound (fetch code.now pc) pc }
{
    if pc >= 0 && (pc as usize) < code.len() {
        Stop::Bound
    } else {
        Stop::OffCode(pc)
    }
}

/// Makes at most `bound` steps.
pub(crate) fn run_from<C: Cells, L: Ledger>(
    core: &mut Core,
    code: &[Cell],
    cells: &mut C,
    bound: u64,
    steps: &mut Steps<L>,
) -> RunEnd
    requires { IsCode code.now }
    ensures runs { run code.now bound (core_state core.old (C.words cells.old))
        ≡ record {
          why = result.stop;
          spent = result.spent;
          last = core_state core.new (C.words cells.new);
        } }
    ensures counter { steps.new ≡ steps.old + result.spent }
    ensures within { result.spent ≤ bound }
    ensures counts { counted result.stop ≤ result.spent }
{
    let mut made = 0;
    while made < bound {
        let leg = run_leg(core, code, cells, bound - made, steps);
        made += leg.made;
        if let Some(stop) = leg.stop {
            count_step(Some(stop), steps);
            return RunEnd {
                stop,
                spent: made + steps_of(stop),
            };
        }
    }
    RunEnd {
        stop: stop_at_bound(code, core.pc),
        spent: bound,
    }
}
