// Debuggers of the source.
ghost use Rattle.std.specs.Prelude.{◌≡◌, ◌≤◌, ◌++◌, ◌∷◌, [], List, ℕ, Some, IfOk, OnOk, OnErr, option_map, string_bytes};
ghost use Rattle.source_courses.specs.rpp_tree.Views.{source_of};
ghost use Rattle.source_lines.specs.meaning_points.Trail.{trail};
ghost use Rattle.source_courses.specs.rpp_words.Limits.{IsLimits};
ghost use Rattle.source_courses.specs.declared.running.TheConstants.{MOST_COST};
ghost use Rattle.source_courses.specs.declared.moves.TheConstants.{LAST_POSITION};
ghost use Rattle.source_debugger.specs.Shown.{told_by, walked_trail};
ghost use Rattle.source_debugger.specs.Standing.{IsValidRun, trail_of, CommandsLead, IsAlongRun};
ghost use Rattle.source_courses.specs.Courses.{Holds};
ghost use Rattle.source_debugger.specs.Looks.{seen_of};
ghost use Rattle.source_debugger.specs.Failures.{account_of, fails_at, shown_of};
ghost use Rattle.source_debugger.specs.Stacks.{TellsStack, TellsCall};
ghost use Rattle.source_courses.specs.Walks.{stand_at};

use crate::failing::{Detail, tell_failure};
use crate::looking::{Seen, look_at};
use crate::shown::{cells_text, regs_text, walk_text};
use crate::stacks::{tell_call, tell_stack};
use source_courses::{
    Command, Course, Input, Limits, NoMemory, Run, Walk, backward, begin, forward,
};
use source_lines::{Checked, Lack};
use std::alloc::Global;
use std::marker::Model;

/// A debugger of a program's run on an input. It keeps a position, and the run where the last
/// command left it: a move forward goes on from there, and a move back steps back from there.
#[derive(Drop)]
pub struct SourceDebugger<'a> {
    checked: &'a Checked,
    input: &'a Input,
    limits: Limits,
    position: u64,
    course: Course<'a>,
}

impl<'a> Model for SourceDebugger<'a> {
    ghost use Rattle.source_courses.specs.rpp_tree.contracts.tree.Stmt as stmt;
    ghost use Rattle.source_courses.specs.rpp_tree.contracts.tree.Expr as expr;
    ghost use Rattle.std.specs.Coded.{codes};
    ghost use Rattle.std.specs.Prelude.{◌≤◌};
    ghost use Rattle.source_courses.specs.rpp_tree.Views.{source_of};
    ghost use Rattle.source_courses.specs.declared.moves.TheConstants.{LAST_POSITION};
    ghost use Rattle.source_debugger.specs.Standing.{Standing, IsValidRun};
    ghost use Rattle.source_courses.specs.Courses.{Holds};

    ghost Value = { Standing };

    ghost coded = { Prim.hlevel (codes, stmt.the_row.coded, expr.the_row.coded) };

    ghost view = { λ d. record {
      program = d.checked.now;
      limits = d.limits;
      input = d.input.now.words.items;
      position = d.position;
    } };

    ghost invariant = { λ d. IsValidRun (source_of d.checked.now) d.limits d.input.now.words.items
        × (d.position ≤ LAST_POSITION)
        × Holds (source_of d.checked.now) d.limits d.input.now.words.items d.course };
}

// What a command printed: where it leads, and its text.
#[derive(Drop)]
struct Answer {
    position: u64,
    text: String,
}

// The result of moves.
fn walk_answer<'a>(run: &Run<'a>, course: &mut Course<'a>, walk: Walk) -> Result<Answer, Lack>
    requires run { IsValidRun (source_of run.now.checked.now) run.now.limits
        run.now.input.now.words.items }
    requires holds { Holds (source_of run.now.checked.now) run.now.limits
        run.now.input.now.words.items course.old }
    ensures told { IfOk result (λ answer.
        walked_trail (trail (source_of run.now.checked.now) run.now.limits run.now.input.now.words.items
        MOST_COST) (Some walk)
        ≡ Some (record { position = answer.position; text = string_bytes answer.text })) }
    ensures within { IfOk result (λ answer. answer.position ≡ walk.position) }
    ensures holds { Holds (source_of run.now.checked.now) run.now.limits
        run.now.input.now.words.items course.new }
{
    let text = walk_text(run, course, walk)?;
    Ok(Answer {
        position: walk.position,
        text,
    })
}

// Carries out a command at a position.
fn carry_out<'a>(
    run: &Run<'a>,
    course: &mut Course<'a>,
    command: Command,
    position: u64,
) -> Result<Answer, Lack>
    requires run { IsValidRun (source_of run.now.checked.now) run.now.limits
        run.now.input.now.words.items }
    requires within { position ≤ LAST_POSITION }
    requires holds { Holds (source_of run.now.checked.now) run.now.limits
        run.now.input.now.words.items course.old }
    ensures told { IfOk result (λ answer. told_by (source_of run.now.checked.now)
        (trail (source_of run.now.checked.now) run.now.limits run.now.input.now.words.items
        MOST_COST) command position
        ≡ Some (record { position = answer.position; text = string_bytes answer.text })) }
    ensures within { IfOk result (λ answer. answer.position ≤ LAST_POSITION) }
    ensures holds { Holds (source_of run.now.checked.now) run.now.limits
        run.now.input.now.words.items course.new }
{
    match command {
        Command::Step(most) => {
            let walk = forward(run, course, None, most, position)?;
            walk_answer(run, course, walk)
        }
        Command::Back(most) => {
            let walk = backward(run, course, None, most, position)?;
            walk_answer(run, course, walk)
        }
        Command::To(place, most) => {
            let walk = forward(run, course, Some(place), most, position)?;
            walk_answer(run, course, walk)
        }
        Command::BackTo(place, most) => {
            let walk = backward(run, course, Some(place), most, position)?;
            walk_answer(run, course, walk)
        }
        Command::Regs => Ok(Answer {
            position,
            text: regs_text(run, course, position)?,
        }),
        Command::Cells(from, count) => Ok(Answer {
            position,
            text: cells_text(run, course, position, from, count)?,
        }),
    }
}

// Carries out a command at a position. A run whose cost, a count or a name is as high as it can be
// counts as out of memory.
fn answer_to<'a>(
    run: &Run<'a>,
    course: &mut Course<'a>,
    command: Command,
    position: u64,
) -> Result<Answer, NoMemory>
    requires run { IsValidRun (source_of run.now.checked.now) run.now.limits
        run.now.input.now.words.items }
    requires within { position ≤ LAST_POSITION }
    requires holds { Holds (source_of run.now.checked.now) run.now.limits
        run.now.input.now.words.items course.old }
    ensures told { IfOk result (λ answer. told_by (source_of run.now.checked.now)
        (trail (source_of run.now.checked.now) run.now.limits run.now.input.now.words.items
        MOST_COST) command position
        ≡ Some (record { position = answer.position; text = string_bytes answer.text })) }
    ensures within { IfOk result (λ answer. answer.position ≤ LAST_POSITION) }
    ensures holds { Holds (source_of run.now.checked.now) run.now.limits
        run.now.input.now.words.items course.new }
{
    match carry_out(run, course, command, position) {
        Ok(answer) => Ok(answer),
        Err(lack) => Err(lack.as_no_memory()),
    }
}

impl<'a> SourceDebugger<'a> {
    /// A debugger of the run of a program on an input, at position 0. The only error is that memory
    /// ran out.
    pub fn new(
        alloc: Global,
        checked: &'a Checked,
        input: &'a Input,
        limits: Limits,
    ) -> Result<SourceDebugger<'a>, NoMemory>
        requires { IsValidRun (source_of checked.now) limits input.now.words.items }
        ensures { IfOk result (λ debugger. debugger
            ≡ record {
              program = checked.now;
              limits = limits;
              input = input.now.words.items;
              position = 0;
            }) }
    {
        let run = Run {
            alloc,
            checked,
            limits,
            input,
        };
        let course = begin(&run)?;
        Ok(SourceDebugger {
            checked,
            input,
            limits,
            position: 0,
            course,
        })
    }

    /// Carries out a command, and adds what it prints to a text. If memory runs out, the text and
    /// the position are as before.
    pub fn command(
        &mut self,
        alloc: Global,
        command: &Command,
        out: &mut String,
    ) -> Result<(), NoMemory>
        ensures told { OnOk result ((text : List ℕ)
            × CommandsLead self.old (command.now ∷ []) self.new text
            × (string_bytes out.new ≡ string_bytes out.old ++ text)) }
        ensures kept { OnErr result (string_bytes out.new ≡ string_bytes out.old) }
        ensures stays { OnErr result (self.new ≡ self.old) }
    {
        let run = Run {
            alloc,
            checked: self.checked,
            limits: self.limits,
            input: self.input,
        };
        let answer = answer_to(&run, &mut self.course, *command, self.position)?;
        out.push_str(answer.text.as_str())?;
        self.position = answer.position;
        Ok(())
    }

    /// Carries out commands, one after the other, and adds what they print to a text. If memory
    /// runs out, some first commands were carried out, and the text is as before.
    pub fn follow(
        &mut self,
        alloc: Global,
        script: &[Command],
        out: &mut String,
    ) -> Result<(), NoMemory>
        ensures told { OnOk result ((text : List ℕ) × CommandsLead self.old script.now self.new text
            × (string_bytes out.new ≡ string_bytes out.old ++ text)) }
        ensures kept { OnErr result (string_bytes out.new ≡ string_bytes out.old) }
        ensures along { OnErr result (IsAlongRun self.old script.now self.new) }
    {
        let mut text = String::new(alloc);
        for command in script {
            self.command(alloc, command, &mut text)?;
        }
        out.push_str(text.as_str())?;
        Ok(())
    }

    /// What is at the position. One that the run does not have counts as `NoMemory`.
    pub fn look(&mut self, alloc: Global) -> Result<Seen, NoMemory>
        ensures seen { IfOk result
            (λ seen. seen_of (stand_at (trail_of self.old) self.old.position) ≡ Some seen) }
        ensures stays { self.new ≡ self.old }
    {
        let run = Run {
            alloc,
            checked: self.checked,
            limits: self.limits,
            input: self.input,
        };
        look_at(&run, &mut self.course, self.position)
    }

    /// The lines of the active calls, the outermost first.
    pub fn stack(&mut self, alloc: Global) -> Result<String, NoMemory>
        ensures told { IfOk result (λ text. TellsStack (source_of self.old.program)
            self.old.limits self.old.input self.old.position (string_bytes text)) }
        ensures stays { self.new ≡ self.old }
    {
        let run = Run {
            alloc,
            checked: self.checked,
            limits: self.limits,
            input: self.input,
        };
        tell_stack(&run, &mut self.course, self.position)
    }

    /// The lines of the fields and variables of the call with so many active calls; none if there is
    /// no such call.
    pub fn call(&mut self, alloc: Global, depth: u64) -> Result<Option<String>, NoMemory>
        ensures told { IfOk result (λ text. TellsCall (source_of self.old.program) self.old.limits
            self.old.input self.old.position depth (option_map string_bytes text)) }
        ensures stays { self.new ≡ self.old }
    {
        let run = Run {
            alloc,
            checked: self.checked,
            limits: self.limits,
            input: self.input,
        };
        tell_call(&run, &mut self.course, self.position, depth)
    }

    /// What is printed of what fails if one more move is made; none if the move can be made. The lines
    /// of the test name the fault, the test that fails, its offset and that of its statement. Then
    /// come the values that it compares, how many calls are active, and the fields and variables at
    /// that moment.
    pub fn failure(&mut self, alloc: Global, detail: Detail) -> Result<Option<String>, NoMemory>
        ensures told { IfOk result (λ text. option_map string_bytes text
            ≡ fails_at (account_of self.old) (shown_of (source_of self.old.program) detail)
            self.old.position) }
        ensures stays { self.new ≡ self.old }
    {
        let run = Run {
            alloc,
            checked: self.checked,
            limits: self.limits,
            input: self.input,
        };
        tell_failure(&run, &mut self.course, self.position, detail)
    }

    /// How many statements of the run began before its place.
    pub fn position(&self) -> u64
        ensures { result ≡ self.now.position }
    {
        self.position
    }

    /// The program that is debugged, with its class table.
    pub fn checked(&self) -> &'a Checked
        ensures { result.now ≡ self.now.program }
    {
        self.checked
    }

    /// The limits of the run.
    pub fn limits(&self) -> Limits
        ensures same { result ≡ self.now.limits }
        ensures in_range { IsLimits result }
    {
        self.limits
    }

    /// The words that the run starts with.
    pub fn input(&self) -> &'a Input
        ensures { result.now.words.items ≡ self.now.input }
    {
        self.input
    }
}
