// Runs in one direction whose steps are noted.
ghost use Rattle.std.specs.Prelude.{◌≡◌, ◌<◌, ◌≤◌, ◌+◌, ◌^◌, pos, ◌≤ℤ◌, ◌<ℤ◌, length, take, slice_set, Some};
ghost use Rattle.pisa_isa.specs.Machine.{core_state, IsCode};
ghost use Rattle.pisa_isa.specs.Runs.{steps as steps_made};
ghost use Rattle.pisa_machine.specs.Told.{code_address, counted_steps};

use crate::rows::{Outcome, Way, step_by};
use crate::run::{cell_at, is_in_code, leave};
use crate::steps::Steps;
use pisa_isa::{Cell, Cells, Core};
use rpp_probes::StepAt;
use std::sync::ledger::Ledger;

/// Notes a step from a place.
#[inline(always)]
fn note(noted: &mut [StepAt], at: usize, pc: i64, back: bool)
    requires at { at < length noted.old }
    requires low { pos 0 ≤ℤ pc }
    requires high { pc <ℤ pos (2 ^ 32) }
    ensures { noted.new ≡ slice_set noted.old at (record { place = code_address pc; back = back }) }
{
    noted[at] = StepAt {
        place: pc as u32,
        back,
    };
}

/// Makes steps in one direction, as many as can be noted at most, up to and with the first that
/// turns it, and notes each as it stands before it is made. None of them is a stop.
#[inline(always)]
fn note_one_way<C: Cells, L: Ledger>(
    core: &mut Core,
    code: &[Cell],
    cells: &mut C,
    back: bool,
    noted: &mut [StepAt],
    steps: &mut Steps<L>,
) -> usize
    requires code { IsCode code.now }
    requires back { back ≡ core.old.back }
    ensures makes { steps_made code.now result (core_state core.old (C.words cells.old))
        ≡ Some (core_state core.new (C.words cells.new)) }
    ensures notes { take result noted.new
        ≡ counted_steps code.now result (core_state core.old (C.words cells.old)) }
    ensures within { result ≤ length noted.old }
    ensures counter { steps.new ≡ steps.old + result }
{
    let mut way = Way::at(core.pc, core.br);
    for made in 0..noted.len() {
        if !is_in_code(code, way.pc) {
            leave(core, &way, back);
            return made;
        }
        note(noted, made, way.pc, back);
        let cell = cell_at(code, way.pc);
        match step_by(&mut core.regs, &mut way, cell, back, cells) {
            Outcome::Goes => steps.tick(),
            Outcome::Turns => {
                steps.tick();
                leave(core, &way, !back);
                return made + 1;
            }
            Outcome::Stops(_stop) => {
                leave(core, &way, back);
                return made;
            }
        }
    }
    leave(core, &way, back);
    noted.len()
}

/// Makes steps in the direction that the machine has, as many as can be noted at most, up to and
/// with the first that turns it, and notes each.
pub(crate) fn note_leg<C: Cells, L: Ledger>(
    core: &mut Core,
    code: &[Cell],
    cells: &mut C,
    noted: &mut [StepAt],
    steps: &mut Steps<L>,
) -> usize
    requires { IsCode code.now }
    ensures makes { steps_made code.now result (core_state core.old (C.words cells.old))
        ≡ Some (core_state core.new (C.words cells.new)) }
    ensures notes { take result noted.new
        ≡ counted_steps code.now result (core_state core.old (C.words cells.old)) }
    ensures within { result ≤ length noted.old }
    ensures counter { steps.new ≡ steps.old + result }
{
    if core.back {
        note_one_way(core, code, cells, true, noted, steps)
    } else {
        note_one_way(core, code, cells, false, noted, steps)
    }
}
