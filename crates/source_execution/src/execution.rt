// A run of the source, as a layer above sees it.
ghost use Rattle.std.specs.Prelude.{◌≡◌, ◌+◌, ◌*◌, ◌≤◌, ◌↔◌, IsTrue, false, IfOk, OnOk, length, map, slice_set, option_map, IfErr};
ghost use Rattle.source_checks.specs.rpp_words.Limits.{IsLimits};
ghost use Rattle.source_statements.specs.rpp_tree.Views.{source_of};
ghost use Rattle.source_checks.specs.roopl_semantics.Store.{Word};
ghost use Rattle.source_checks.specs.roopl_semantics.Source.{with_input, main_body};
ghost use Rattle.source_checks.specs.meaning_machine.Machine.{next};
ghost use Rattle.source_checks.specs.meaning_machine.Turned.{turn as turned_round};
ghost use Rattle.source_checks.specs.meaning_machine.SourceLaws.{set_for, start_config};
ghost use Rattle.source_checks.specs.meaning_machine.Reversed.{back as next_back};
ghost use Rattle.source_checks.specs.source_store.ValueView.{values_of};
ghost use Rattle.source_checks.specs.source_steps.Metered.{MeteredGives, metered, IsFault, OnFault};
ghost use Rattle.source_checks.specs.source_blocks.Tasks.{task_of};
ghost use Rattle.source_statements.specs.Steps.{StepFalls, step_in, MayStopAt};
ghost use Rattle.source_execution.specs.Variables.{binding_of};
ghost use Rattle.source_checks.specs.Failures.{tested as tested_at};
ghost use Rattle.source_checks.specs.TestedView.{tested_of};
ghost use Rattle.source_execution.specs.Calls.{active_calls, inside_call};
ghost use Rattle.source_execution.specs.CallsView.{active_of, inside_of};
ghost use Rattle.source_execution.specs.Standing.{IsOver, Walks, config_at, setting_at, next_place, starting_heap};

use crate::calls::{Active, CallState, calls_in, inside_in};
use crate::places::run_place;
use crate::variables::{Variable, variables_in};
use source_checks::{
    FieldWord, Head, Heap, Input, Lack, Limits, NoMemory, Run, Task, Tested, Value, line_at,
    line_place, test_next, turn,
};
use source_statements::{Checked, Setting, Stop, method_at, put_value, step, zeros};
use std::alloc::Global;
use std::marker::Model;

fn put_word(cells: &mut Vec<Value>, field: u32, word: u32)
    ensures { values_of cells.new.items ≡ slice_set (values_of cells.old.items) field (Word word) }
{
    put_value(cells, field as usize, Value::Word(word));
}

/// The input's words go into their fields.
fn set_input(cells: &mut Vec<Value>, words: &[FieldWord])
    ensures { values_of cells.new.items ≡ with_input words.now (values_of cells.old.items) }
{
    for word in words {
        put_word(cells, word.field, word.word);
    }
}

/// The heap before a run: only the main object, with the input's words.
fn first_heap(
    alloc: Global,
    checked: &Checked,
    limits: Limits,
    input: &Input,
) -> Result<Heap, NoMemory>
    requires { IsLimits limits }
    ensures { IfOk result (λ heap. heap
        ≡ starting_heap (source_of checked.now) input.now.words.items limits.heap) }
{
    let table = checked.table();
    let class = table.main().class;
    let mut cells = zeros(alloc, table.fields(class))?;
    set_input(&mut cells, &input.words);
    Heap::new(alloc, limits.heap, Head::Class(class), cells)
}

/// The body of the main method.
fn main_task<'a>(checked: &'a Checked) -> Task<'a>
    ensures { task_of result ≡ main_body (source_of checked.now) }
{
    match method_at(checked.program(), checked.table().main()) {
        None => Task::Nothing,
        Some(method) => Task::Text {
            block: &method.body,
            back: false,
        },
    }
}

/// Whether a run that stops so is aborted. A fault leaves it where it was.
pub fn breaks(why: Stop) -> bool
    ensures fault { IsFault why → result ≡ false }
    ensures only { result ≡ false → IsFault why }
{
    match why {
        Stop::Fault(_code) => false,
        Stop::More => true,
        Stop::Lacks(_lack) => true,
    }
}

/// A run of the source: its position, and what encloses it.
#[derive(Drop)]
pub struct Execution<'a> {
    run: Run<'a>,
    /// Whether a step aborted the run.
    broken: bool,
}

impl<'a> Model for Execution<'a> {
    ghost use Rattle.source_statements.specs.rpp_tree.contracts.tree.Stmt as stmt;
    ghost use Rattle.source_statements.specs.rpp_tree.contracts.tree.Expr as expr;
    ghost use Rattle.std.specs.Coded.{codes};
    ghost use Rattle.std.specs.Prelude.{◌≡◌, false};
    ghost use Rattle.source_execution.specs.Standing.{ExecutionStanding};
    ghost use Rattle.source_checks.specs.source_blocks.Runs.{IsSound};

    ghost Value = { ExecutionStanding };

    ghost coded = { Prim.hlevel (codes, stmt.the_row.coded, expr.the_row.coded) };

    ghost view = { λ e. record { run = e.run; broken = e.broken } };

    ghost invariant = { λ e. e.broken ≡ false → IsSound e.run };
}

impl<'a> Execution<'a> {
    /// The run of a program before its first step. The only error is that memory ran out.
    pub fn start(
        alloc: Global,
        checked: &'a Checked,
        limits: Limits,
        input: &Input,
    ) -> Result<Execution<'a>, NoMemory>
        requires { IsLimits limits }
        ensures setting { IfOk result (λ execution. setting_at execution
            ≡ set_for (source_of checked.now) limits) }
        ensures start { IfOk result (λ execution. config_at execution
            ≡ start_config (source_of checked.now) input.now.words.items) }
        ensures whole { IfOk result (λ execution. execution.broken ≡ false) }
    {
        let heap = first_heap(alloc, checked, limits, input)?;
        Ok(Execution {
            run: Run {
                setting: Setting {
                    alloc,
                    checked,
                    limits,
                    object: 1,
                    depth: 1,
                },
                params: &[],
                locals: Vec::new(alloc),
                marks: 0,
                values: Vec::new(alloc),
                heap,
                task: main_task(checked),
                at: 0,
                frames: Vec::new(alloc),
            },
            broken: false,
        })
    }

    /// Whether the run is over.
    pub fn is_over(&self) -> bool
        ensures { IsTrue result ↔ IsOver (config_at self.now) }
    {
        if !self.run.frames.is_empty() {
            return false;
        }
        match line_at(&self.run.task, self.run.at) {
            None => true,
            Some(_line) => false,
        }
    }

    /// A step of the run: one of the machine of the semantics, if it is not aborted. Running out of
    /// fuel or memory aborts the run. A fault leaves it where it was.
    #[inline(always)]
    pub fn step(&mut self, fuel: &mut u64) -> Result<(), Stop>
        requires whole { self.old.broken ≡ false }
        ensures gives { MeteredGives (λ u. config_at self.new) result fuel.new
            (metered fuel.old (next (setting_at self.old) (config_at self.old))) }
        ensures whole { OnOk result (self.new.broken ≡ false) }
        ensures setting { setting_at self.new ≡ setting_at self.old }
        ensures stays { OnFault result ((config_at self.new ≡ config_at self.old)
            × (self.new.broken ≡ false)) }
        ensures falls { OnOk result (StepFalls (config_at self.old)
            (2 * fuel.new + length (config_at self.new).around)
            (2 * fuel.old + length (config_at self.old).around)) }
        ensures less { fuel.new ≤ fuel.old }
        ensures stops { IfErr result (λ why. MayStopAt (config_at self.old).rest why) }
    {
        self.go(fuel, false)
    }

    /// A step of the reversed run: one of the reversed machine, in which `new` and `delete` undo
    /// requests to the heap. What aborts a step aborts it, and a fault leaves it where it was.
    pub fn step_back(&mut self, fuel: &mut u64) -> Result<(), Stop>
        requires whole { self.old.broken ≡ false }
        ensures gives { MeteredGives (λ u. config_at self.new) result fuel.new
            (metered fuel.old (next_back (setting_at self.old) (config_at self.old))) }
        ensures whole { OnOk result (self.new.broken ≡ false) }
        ensures setting { setting_at self.new ≡ setting_at self.old }
        ensures stays { OnFault result ((config_at self.new ≡ config_at self.old)
            × (self.new.broken ≡ false)) }
        ensures falls { OnOk result (StepFalls (config_at self.old)
            (2 * fuel.new + length (config_at self.new).around)
            (2 * fuel.old + length (config_at self.old).around)) }
        ensures less { fuel.new ≤ fuel.old }
        ensures stops { IfErr result (λ why. MayStopAt (config_at self.old).rest why) }
    {
        self.go(fuel, true)
    }

    // A step, reversed or not. An error aborts the run, unless it is a fault.
    #[inline(always)]
    fn go(&mut self, fuel: &mut u64, back: bool) -> Result<(), Stop>
        requires whole { self.old.broken ≡ false }
        ensures gives { MeteredGives (λ u. config_at self.new) result fuel.new
            (metered fuel.old (step_in back (setting_at self.old) (config_at self.old))) }
        ensures whole { OnOk result (self.new.broken ≡ false) }
        ensures setting { setting_at self.new ≡ setting_at self.old }
        ensures stays { OnFault result ((config_at self.new ≡ config_at self.old)
            × (self.new.broken ≡ false)) }
        ensures falls { OnOk result (StepFalls (config_at self.old)
            (2 * fuel.new + length (config_at self.new).around)
            (2 * fuel.old + length (config_at self.old).around)) }
        ensures less { fuel.new ≤ fuel.old }
        ensures stops { IfErr result (λ why. MayStopAt (config_at self.old).rest why) }
    {
        match step(&mut self.run, fuel, back) {
            Ok(()) => Ok(()),
            Err(why) => {
                self.broken = breaks(why);
                Err(why)
            }
        }
    }

    /// The run turns round: what is past is to come, undone.
    pub fn turn(&mut self)
        requires whole { self.old.broken ≡ false }
        ensures turned { config_at self.new ≡ turned_round (config_at self.old) }
        ensures whole { self.new.broken ≡ false }
        ensures setting { setting_at self.new ≡ setting_at self.old }
    {
        turn(&mut self.run);
    }

    /// Steps until the run is over, if it is not aborted.
    pub fn run(&mut self, fuel: &mut u64) -> Result<(), Stop>
        requires whole { self.old.broken ≡ false }
        ensures over { OnOk result (IsOver (config_at self.new)) }
        ensures walks { Walks self.old self.new fuel.old result fuel.new }
        ensures whole { OnOk result (self.new.broken ≡ false) }
        ensures setting { setting_at self.new ≡ setting_at self.old }
        ensures less { fuel.new ≤ fuel.old }
    {
        while !self.is_over() {
            self.step(fuel)?;
        }
        Ok(())
    }

    /// The place of the statement that begins, if one does.
    #[inline(always)]
    pub fn place(&self) -> Option<u32>
        ensures { result ≡ next_place (config_at self.now).rest }
    {
        run_place(&self.run)
    }

    /// The place of the statement that is past last, if one is.
    pub fn last_place(&self) -> Option<u32>
        requires { self.now.broken ≡ false }
        ensures { result ≡ next_place (config_at self.now).past }
    {
        if self.run.at == 0 {
            return None;
        }
        match line_at(&self.run.task, self.run.at - 1) {
            None => None,
            Some(line) => Some(line_place(&line)),
        }
    }

    /// What the next step tests, which stops with this fault. An expression that costs more than
    /// 2 ^ 64 is refused as `Full`.
    pub fn tested(&self, code: u32) -> Result<Tested, Lack>
        requires { self.now.broken ≡ false }
        ensures { IfOk result (λ it. tested_of it
            ≡ tested_at (setting_at self.now) code (config_at self.now)) }
    {
        test_next(&self.run, code)
    }

    /// The active calls, the outermost first. The only error is that memory ran out.
    pub fn calls(&self, alloc: Global) -> Result<Vec<Active>, NoMemory>
        requires { self.now.broken ≡ false }
        ensures { IfOk result (λ calls. map active_of calls.items
            ≡ active_calls (config_at self.now)) }
    {
        calls_in(alloc, &self.run)
    }

    /// What the call with so many active calls has, if there is one. The only error is that memory
    /// ran out.
    pub fn inside(&self, alloc: Global, depth: u64) -> Result<Option<CallState>, NoMemory>
        ensures { IfOk result (λ found. option_map inside_of found
            ≡ inside_call depth (config_at self.now)) }
    {
        inside_in(alloc, &self.run, depth)
    }

    /// How many calls are open, the main method among them.
    pub fn depth(&self) -> u32
        ensures { result ≡ (config_at self.now).state.depth }
    {
        self.run.setting.depth
    }

    /// The number of the object whose method runs.
    pub fn object(&self) -> u32
        ensures { result ≡ (config_at self.now).state.self }
    {
        self.run.setting.object
    }

    /// How many parameters the open method has.
    pub fn params(&self) -> usize
        ensures { result ≡ (config_at self.now).params }
    {
        self.run.params.len()
    }

    /// A copy of the variables of the open method, the innermost first. The only error is that memory
    /// ran out.
    pub fn variables(&self, alloc: Global) -> Result<Vec<Variable>, NoMemory>
        ensures { IfOk result (λ variables. map binding_of variables.items
            ≡ (config_at self.now).state.frame) }
    {
        variables_in(alloc, &self.run.locals, self.run.params, &self.run.values)
    }

    /// The objects and arrays of the run, with their log.
    pub fn heap(&self) -> &Heap
        ensures store { result.now.store ≡ (config_at self.now).state.store }
        ensures log { result.now.log ≡ (config_at self.now).state.log }
    {
        &self.run.heap
    }

    /// The heap of the run, which ends with it.
    pub fn into_heap(self) -> Heap
        ensures store { result.store ≡ (config_at self.entry).state.store }
        ensures log { result.log ≡ (config_at self.entry).state.log }
    {
        self.run.heap
    }
}
