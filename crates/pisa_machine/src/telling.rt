// Runs that probes watch.
ghost use Rattle.std.specs.Prelude.{◌≡◌, ◌≤◌, ◌<◌, ◌^◌, ◌+◌, ◌++◌, [], length, map, replicate, Some, IfOk, IfErr, OnOk, string_bytes};
ghost use Rattle.pisa_isa.specs.Runs.{run, steps as steps_made, counted};
ghost use Rattle.pisa_machine.specs.Position.{IsMachine};
ghost use Rattle.pisa_machine.specs.Told.{counted_steps, BreaksOff};
ghost use Rattle.rpp_probes.specs.Tally.{left_after, lines_after, AreSureFor, IsCutShort};

use crate::machine::Machine;
use crate::run::{RunEnd, steps_of};
use crate::steps::Steps;
use pisa_isa::{NoMemory, Stop};
use rpp_probes::{Probes, StepAt};
use std::alloc::Global;
use std::sync::ledger::Ledger;

// How many steps are observed together at most.
const TOLD_TOGETHER: usize = 256;

// Lets probes observe a step at which the machine stops, if it counts as a step.
#[cold]
#[inline(never)]
fn tell_stop<P: Probes>(
    alloc: Global,
    probes: &mut P,
    lines: &mut Vec<String>,
    step: StepAt,
    stop: Stop,
) -> Result<(), NoMemory>
    ensures told { OnOk result (P.watches probes.new
        ≡ left_after (replicate (counted stop) step) (P.watches probes.old)) }
    ensures lines { OnOk result (map string_bytes lines.new.items ≡
        map string_bytes lines.old.items
        ++ lines_after (replicate (counted stop) step) (P.watches probes.old)) }
    ensures cut_short { IfErr result (λ _. IsCutShort step (P.watches probes.old) (P.watches probes.new)
        (map string_bytes lines.old.items) (map string_bytes lines.new.items)) }
    ensures counts { IfErr result (λ _. counted stop ≡ 1) }
{
    if steps_of(stop) == 0 {
        return Ok(());
    }
    match probes.tell(alloc, lines, step) {
        Ok(()) => Ok(()),
        Err(NoMemory) => Err(NoMemory),
    }
}

impl Machine {
    // Makes steps that end no probe, as many as can be noted at most, and lets the probes observe
    // them together.
    fn tell_leg<L: Ledger, P: Probes>(
        &mut self,
        probes: &mut P,
        noted: &mut [StepAt],
        steps: &mut Steps<L>,
    ) -> usize
        requires made { self.old.made + length noted.old < 2 ^ 63 }
        requires sure { AreSureFor (length noted.old) (P.watches probes.old) }
        ensures makes { steps_made self.old.image.code result self.old.state ≡ Some self.new.state }
        ensures image { self.new.image ≡ self.old.image }
        ensures made { self.new.made ≡ self.old.made + result }
        ensures within { result ≤ length noted.old }
        ensures counter { steps.new ≡ steps.old + result }
        ensures told { P.watches probes.new ≡
            left_after (counted_steps self.old.image.code result self.old.state) (P.watches probes.old) }
        ensures lines { lines_after (counted_steps self.old.image.code result self.old.state)
            (P.watches probes.old) ≡ [] }
    {
        let made = self.note_leg(noted, steps);
        probes.tell_each(&noted[..made]);
        made
    }

    // Makes at most `bound` steps of which the probes are sure that none ends them, as many as can
    // be noted at most. The probes observe them together. It may make none.
    fn tell_sure<L: Ledger, P: Probes>(
        &mut self,
        bound: u64,
        probes: &mut P,
        noted: &mut [StepAt],
        steps: &mut Steps<L>,
    ) -> u64
        requires { self.old.made + bound < 2 ^ 63 }
        ensures makes { steps_made self.old.image.code result self.old.state ≡ Some self.new.state }
        ensures image { self.new.image ≡ self.old.image }
        ensures made { self.new.made ≡ self.old.made + result }
        ensures within { result ≤ bound }
        ensures counter { steps.new ≡ steps.old + result }
        ensures told { P.watches probes.new ≡
            left_after (counted_steps self.old.image.code result self.old.state) (P.watches probes.old) }
        ensures lines { lines_after (counted_steps self.old.image.code result self.old.state)
            (P.watches probes.old) ≡ [] }
    {
        let sure = probes.sure_steps().min(bound).min(noted.len() as u64);
        if sure == 0 {
            return 0;
        }
        self.tell_leg(probes, &mut noted[..sure as usize], steps) as u64
    }

    /// Runs at most `bound` steps, and counts those that it makes, as `run` does. The probes
    /// observe each counted step, in the order of the list. A probe that ends with a step is
    /// dropped, and its line is added to `lines`; the others keep their order. If memory runs out,
    /// the machine is after the step during which it ran out.
    pub fn run_told<L: Ledger, P: Probes>(
        &mut self,
        alloc: Global,
        bound: u64,
        probes: &mut P,
        lines: &mut Vec<String>,
        steps: &mut Steps<L>,
    ) -> Result<RunEnd, NoMemory>
        requires { self.old.made + bound < 2 ^ 63 }
        ensures runs { IfOk result (λ end. run self.old.image.code bound self.old.state
            ≡ record { why = end.stop; spent = end.spent; last = self.new.state }) }
        ensures made { IfOk result (λ end. self.new.made + counted end.stop ≡ self.old.made + end.spent) }
        ensures within { IfOk result (λ end. end.spent ≤ bound) }
        ensures counter { IfOk result (λ end. steps.new ≡ steps.old + end.spent) }
        ensures told { OnOk result (P.watches probes.new ≡
            left_after (counted_steps self.old.image.code bound self.old.state) (P.watches probes.old)) }
        ensures lines { OnOk result (map string_bytes lines.new.items ≡ map string_bytes lines.old.items
            ++ lines_after (counted_steps self.old.image.code bound self.old.state)
            (P.watches probes.old)) }
        ensures broken_off { IfErr result (λ _. BreaksOff bound self.old self.new steps.old steps.new
            (P.watches probes.old) (P.watches probes.new) (map string_bytes lines.old.items)
            (map string_bytes lines.new.items)) }
        ensures image { self.new.image ≡ self.old.image }
        ensures machine { IsMachine self.old }
    {
        let _before = self.made();
        let mut noted = [StepAt {
            place: 0,
            back: false,
        }; TOLD_TOGETHER];
        let mut made = 0;
        while made < bound {
            made += self.tell_sure(bound - made - 1, probes, &mut noted, steps);
            let step = self.next_step();
            match self.make_step(steps) {
                None => match probes.tell(alloc, lines, step) {
                    Ok(()) => made += 1,
                    Err(NoMemory) => return Err(NoMemory),
                },
                Some(stop) => {
                    let spent = made + steps_of(stop);
                    return match tell_stop(alloc, probes, lines, step, stop) {
                        Ok(()) => Ok(RunEnd { stop, spent }),
                        Err(NoMemory) => Err(NoMemory),
                    };
                }
            }
        }
        Ok(RunEnd {
            stop: self.stop_here(),
            spent: bound,
        })
    }
}
