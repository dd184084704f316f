// Debuggers.
ghost use Rattle.std.specs.Prelude.{◌≡◌, ◌≤◌, ◌+◌, ◌++◌, IfOk, OnOk, OnErr, string_bytes};
ghost use Rattle.two_way_debugger.specs.Along.{IsAlong};
ghost use Rattle.two_way_debugger.specs.Moves.{machine_walk};
ghost use Rattle.two_way_debugger.specs.Shown.{walk_of, walk_shown, text_of, most_moves, position_after, shown, spent_in};

use crate::moves::make_moves;
use crate::shown::{cell_text, register_text, walk_line};
use pisa_machine::{Machine, NoMemory, Steps};
use pisa_scripts::Command;
use std::alloc::{AllocError, Global};
use std::marker::Model;
use std::sync::ledger::Ledger;

/// A debugger of a machine. It moves the machine only by runs, by single steps and by steps back.
#[derive(Drop)]
pub struct Debugger {
    machine: Machine,
}

impl Model for Debugger {
    ghost use Rattle.pisa_machine.specs.Position.{Position};

    ghost Value = { Position };

    ghost view = { λ d. d.machine };
}

// The text of moves, so many at most, up to a code address if there is one to go to.
fn walk_text<L: Ledger>(
    alloc: Global,
    machine: &mut Machine,
    backward: bool,
    place: Option<i64>,
    most: u64,
    steps: &mut Steps<L>,
) -> Result<String, AllocError>
    ensures position { machine.new ≡ (machine_walk backward place most machine.old).position }
    ensures text { IfOk result (λ text. string_bytes text
        ≡ walk_shown (machine_walk backward place most machine.old)) }
    ensures counter { steps.new ≡ steps.old + (machine_walk backward place most machine.old).spent }
    ensures within { (machine_walk backward place most machine.old).spent ≤ most }
{
    let ending = make_moves(machine, backward, place, most, steps);
    walk_line(alloc, machine, ending)
}

// Carries out a command, and returns its text.
fn carry_out<L: Ledger>(
    alloc: Global,
    machine: &mut Machine,
    command: Command,
    steps: &mut Steps<L>,
) -> Result<String, AllocError>
    ensures position { machine.new ≡ (walk_of command machine.old).position }
    ensures text { IfOk result (λ text. string_bytes text ≡ text_of command machine.old) }
    ensures counter { steps.new ≡ steps.old + (walk_of command machine.old).spent }
    ensures within { (walk_of command machine.old).spent ≤ most_moves command }
{
    match command {
        Command::Step(most) => walk_text(alloc, machine, false, None, most, steps),
        Command::Back(most) => walk_text(alloc, machine, true, None, most, steps),
        Command::To(place, most) => walk_text(alloc, machine, false, Some(place), most, steps),
        Command::BackTo(place, most) => walk_text(alloc, machine, true, Some(place), most, steps),
        Command::Regs => register_text(alloc, &machine.core().regs),
        Command::Cells(from, count) => cell_text(alloc, machine, from, count),
    }
}

impl Debugger {
    /// A debugger of a machine, at its position.
    pub fn new(machine: Machine) -> Debugger
        ensures { result ≡ machine }
    {
        Debugger { machine }
    }

    /// Carries out a command, and adds what it prints to a text. The counter rises by the steps of
    /// the machine, at most one for each requested move. If memory runs out, the moves were made,
    /// and the text is as before.
    pub fn command<L: Ledger>(
        &mut self,
        alloc: Global,
        command: &Command,
        out: &mut String,
        steps: &mut Steps<L>,
    ) -> Result<(), NoMemory>
        ensures position { self.new ≡ (walk_of command.now self.old).position }
        ensures text { OnOk result (string_bytes out.new
            ≡ string_bytes out.old ++ text_of command.now self.old) }
        ensures kept { OnErr result (string_bytes out.new ≡ string_bytes out.old) }
        ensures counter { steps.new ≡ steps.old + (walk_of command.now self.old).spent }
        ensures within { steps.new ≤ steps.old + most_moves command.now }
    {
        let text = carry_out(alloc, &mut self.machine, *command, steps)?;
        out.push_str(text.as_str())?;
        Ok(())
    }

    /// Carries out commands, one after the other, and adds what they print to a text. If memory
    /// runs out, the moves of some first commands were made, and the text is as before.
    pub fn follow<L: Ledger>(
        &mut self,
        alloc: Global,
        script: &[Command],
        out: &mut String,
        steps: &mut Steps<L>,
    ) -> Result<(), NoMemory>
        ensures position { OnOk result (self.new ≡ position_after script.now self.old) }
        ensures text { OnOk result (string_bytes out.new
            ≡ string_bytes out.old ++ shown script.now self.old) }
        ensures counter { OnOk result (steps.new ≡ steps.old + spent_in script.now self.old) }
        ensures kept { OnErr result (string_bytes out.new ≡ string_bytes out.old) }
        ensures along { OnErr result (IsAlong script.now self.old self.new steps.old steps.new) }
    {
        let mut text = String::new(alloc);
        for command in script {
            self.command(alloc, command, &mut text, steps)?;
        }
        out.push_str(text.as_str())?;
        Ok(())
    }

    /// The machine, at its position.
    pub fn machine(&self) -> &Machine
        ensures { result.now ≡ self.now }
    {
        &self.machine
    }
}
