// Machines.
ghost use Rattle.std.specs.Prelude.{◌≡◌, IsSome, ◌<◌, ◌≤◌, ◌^◌, ◌+◌, ◌-◌, ◌↔◌, pos, false, All, length, take, replicate, ◌++◌, Some, slice_get, vec_len, IsTrue, IsFalse, IfOk, if◌then◌else◌};
ghost use Rattle.pisa_isa.specs.rpp_words.Words.{IsWord};
ghost use Rattle.pisa_isa.specs.Machine.{core_state, word_at, stop, fetch, back, IsCode, IsNext};
ghost use Rattle.pisa_isa.specs.Image.{IsImage, start_of};
ghost use Rattle.pisa_isa.specs.Runs.{run, steps as steps_made, counted, counted_by, stop_at_bound};
ghost use Rattle.pisa_machine.specs.Position.{Position, IsMachine, first_position, stepped};
ghost use Rattle.pisa_machine.specs.Told.{step_at, counted_steps, code_address as number_of};

use crate::lazy_cells::LazyCells;
use crate::noting::note_leg;
use crate::run::{RunEnd, count_step, run_from, steps_of, stop_at_bound};
use crate::steps::Steps;
use pisa_isa::{Cell, Cells, Core, Image, NoMemory, Stop, step, unstep};
use rpp_probes::StepAt;
use std::alloc::Global;
use std::marker::Model;
use std::sync::ledger::Ledger;

/// A machine with its image, its registers and its data cells, at a position of its run: the state
/// after `made` steps that were no stops.
#[derive(Drop)]
pub struct Machine {
    image: Image,
    core: Core,
    cells: LazyCells,
    made: u64,
}

impl Model for Machine {
    ghost use Rattle.pisa_isa.specs.Machine.{core_state};
    ghost use Rattle.pisa_machine.specs.Reached.{words_of};
    ghost use Rattle.pisa_machine.specs.Position.{Position, IsMachine};

    ghost Value = { Position };

    ghost view = { λ m. record {
      image = m.image;
      state = core_state m.core (words_of m.cells.words.items m.cells.count);
      made = m.made;
    } };

    ghost invariant = { λ m. IsMachine
        (record {
          image = m.image;
          state = core_state m.core
              (words_of m.cells.words.items m.cells.count);
          made = m.made;
        }) };
}

/// A slice holds words.
fn are_words(words: &[u32])
    ensures { All IsWord words.now }
{}

/// Registers are 32 words.
fn are_registers(regs: &[u32; 32])
    ensures count { length regs.now ≡ 32 }
    ensures words { All IsWord regs.now }
{
    are_words(regs);
}

/// The registers at the start of a run.
fn start_core(image: &Image, regs: [u32; 32]) -> Core
    ensures core { result ≡ record {
      pc = pos (start_of image.now.code);
      br = 0;
      back = false;
      regs = regs;
    } }
    ensures image { IsImage image.now }
{
    Core {
        pc: i64::from(image.start()),
        br: 0,
        back: false,
        regs,
    }
}

/// The number of a code address.
#[inline(always)]
fn place_of(code: &[Cell], pc: i64) -> u32
    requires { IsCode code.now }
    ensures { IsSome (fetch code.now pc) → result ≡ number_of pc }
{
    if pc >= 0 && (pc as usize) < code.len() {
        pc as u32
    } else {
        0
    }
}

impl Machine {
    /// A machine at the start of a run of an image, with these registers and data cells.
    pub fn start_with(
        _alloc: Global,
        image: Image,
        regs: [u32; 32],
        cells: Vec<u32>,
    ) -> Result<Machine, NoMemory>
        requires { vec_len cells < 2 ^ 32 }
        ensures { IfOk result (λ machine. machine ≡ first_position image regs cells.items) }
    {
        Machine::start_with_more(image, regs, cells, 0)
    }

    /// A machine at the start of a run of an image, with these registers, these data cells, and so
    /// many of 0 after them. Memory for all of them is reserved here, so that no call that runs the
    /// machine allocates memory. Those of 0 are written only once the run is near them.
    pub fn start_with_more(
        image: Image,
        regs: [u32; 32],
        cells: Vec<u32>,
        more: u32,
    ) -> Result<Machine, NoMemory>
        requires { vec_len cells + more < 2 ^ 32 }
        ensures { IfOk result (λ machine. machine
            ≡ first_position image regs (cells.items ++ replicate more 0)) }
    {
        are_registers(&regs);
        are_words(&cells);
        Ok(Machine {
            core: start_core(&image, regs),
            image,
            cells: LazyCells::of(cells, more)?,
            made: 0,
        })
    }

    /// Runs at most `bound` steps, and counts those that it makes.
    pub fn run<L: Ledger>(&mut self, bound: u64, steps: &mut Steps<L>) -> RunEnd
        requires { self.old.made + bound < 2 ^ 63 }
        ensures runs { run self.old.image.code bound self.old.state
            ≡ record { why = result.stop; spent = result.spent; last = self.new.state } }
        ensures image { self.new.image ≡ self.old.image }
        ensures made { self.new.made + counted result.stop ≡ self.old.made + result.spent }
        ensures within { result.spent ≤ bound }
        ensures counter { steps.new ≡ steps.old + result.spent }
        ensures machine { IsMachine self.old }
    {
        let end = run_from(
            &mut self.core,
            self.image.code(),
            &mut self.cells,
            bound,
            steps,
        );
        self.made += end.spent - steps_of(end.stop);
        end
    }

    /// Makes steps in the direction that the machine has, as many as can be noted at most, up to
    /// and with the first that turns it, and notes each as it stands before it is made. None of
    /// them is a stop.
    pub(crate) fn note_leg<L: Ledger>(
        &mut self,
        noted: &mut [StepAt],
        steps: &mut Steps<L>,
    ) -> usize
        requires { self.old.made + length noted.old < 2 ^ 63 }
        ensures makes { steps_made self.old.image.code result self.old.state ≡ Some self.new.state }
        ensures notes { take result noted.new ≡ counted_steps self.old.image.code result self.old.state }
        ensures image { self.new.image ≡ self.old.image }
        ensures made { self.new.made ≡ self.old.made + result }
        ensures within { result ≤ length noted.old }
        ensures counter { steps.new ≡ steps.old + result }
        ensures machine { IsMachine self.old }
    {
        let made = note_leg(
            &mut self.core,
            self.image.code(),
            &mut self.cells,
            noted,
            steps,
        );
        self.made += made as u64;
        made
    }

    /// The step that is next, if there is a cell at its place.
    #[inline(always)]
    pub(crate) fn next_step(&self) -> StepAt
        ensures step { IsSome (fetch self.now.image.code self.now.state.pc)
            → result ≡ step_at self.now.state }
        ensures machine { IsMachine self.now }
    {
        StepAt {
            place: place_of(self.image.code(), self.core.pc),
            back: self.core.back,
        }
    }

    /// Makes one step, or returns why the machine stops, and counts what counts as a step.
    #[inline(always)]
    pub fn make_step<L: Ledger>(&mut self, steps: &mut Steps<L>) -> Option<Stop>
        requires { self.old.made + 1 < 2 ^ 63 }
        ensures stops { result ≡ stop self.old.image.code self.old.state }
        ensures stepped { self.new ≡ stepped result self.old }
        ensures counter { steps.new ≡ steps.old + counted_by result }
    {
        match step(&mut self.core, self.image.code(), &mut self.cells) {
            Some(stop) => {
                count_step(Some(stop), steps);
                Some(stop)
            }
            None => {
                count_step(None, steps);
                self.made += 1;
                None
            }
        }
    }

    /// Why a run ends here if it has made the steps that it may.
    pub(crate) fn stop_here(&self) -> Stop
        ensures { result ≡ stop_at_bound (fetch self.now.image.code self.now.state.pc) self.now.state.pc }
    {
        stop_at_bound(self.image.code(), self.core.pc)
    }

    /// Undoes the last step, or returns false if none is left.
    pub fn step_back<L: Ledger>(&mut self, steps: &mut Steps<L>) -> bool
        ensures answer { IsTrue result ↔ (0 < self.old.made) }
        ensures stays { IsFalse result → self.new ≡ self.old }
        ensures goes { IsTrue result → self.new ≡ record self.old
            { state = back self.old.image.code self.old.state; made = self.old.made - 1 } }
        ensures undoes { IsTrue result → IsNext self.old.image.code self.old.state }
        ensures counter { steps.new ≡ steps.old + (if result then 1 else 0) }
    {
        if self.made == 0 {
            return false;
        }
        unstep(&mut self.core, self.image.code(), &mut self.cells);
        self.made -= 1;
        steps.tick();
        true
    }

    /// How many steps led here that were no stops and were not undone.
    pub fn made(&self) -> u64
        ensures made { result ≡ self.now.made }
        ensures machine { IsMachine self.now }
    {
        self.made
    }

    /// The place, the branch register, the direction and the registers.
    pub fn core(&self) -> &Core
        ensures state { core_state result.now self.now.state.cells ≡ self.now.state }
        ensures machine { IsMachine self.now }
    {
        &self.core
    }

    /// The word in a data cell, if there is the cell.
    pub fn cell(&self, at: u32) -> Option<u32>
        ensures { result ≡ slice_get self.now.state.cells at }
    {
        self.cells.get(at)
    }

    /// How many data cells there are.
    pub fn cells(&self) -> u32
        ensures { result ≡ length self.now.state.cells }
    {
        self.cells.len()
    }

    /// The image that the machine runs.
    pub fn image(&self) -> &Image
        ensures image { result.now ≡ self.now.image }
        ensures machine { IsMachine self.now }
    {
        &self.image
    }

    /// The machine at the start of a run of another image, with its registers and data cells kept.
    pub fn with_image(self, image: Image) -> Machine
        ensures { result ≡ first_position image self.state.regs self.state.cells }
    {
        let Machine {
            image: _,
            core,
            cells,
            made: _,
        } = self;
        are_registers(&core.regs);
        Machine {
            core: start_core(&image, core.regs),
            image,
            cells,
            made: 0,
        }
    }
}

/// The word in a data cell of a machine, and 0 after its memory.
pub fn word_at(machine: &Machine, at: u64) -> u32
    ensures { result ≡ word_at machine.now.state.cells at }
{
    if at >= u64::from(machine.cells()) {
        return 0;
    }
    match machine.cell(at as u32) {
        None => 0,
        Some(word) => word,
    }
}
