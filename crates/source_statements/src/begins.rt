// A statement that begins.
ghost use Rattle.std.specs.Prelude.{◌≡◌, ◌+◌, ◌<◌, ◌≤◌, ◌^◌, OnOk, MatchResult, length, true, if◌then◌else◌, IfErr};
ghost use Rattle.source_blocks.specs.rpp_tree.Tree.{If, From as Repeat, Null};
ghost use Rattle.source_blocks.specs.rpp_tree.Views.{expression_of, block_of, statement_of};
ghost use Rattle.source_blocks.specs.roopl_semantics.Execution.{in_direction, opened};
ghost use Rattle.source_blocks.specs.meaning_machine.Machine.{begun, held_local, inside, Chosen, Holding};
ghost use Rattle.source_blocks.specs.source_store.ValueView.{value_of};
ghost use Rattle.source_blocks.specs.source_steps.Ends.{turned};
ghost use Rattle.source_blocks.specs.source_steps.Metered.{MeteredGives, metered, OnFault};
ghost use Rattle.source_blocks.specs.source_steps.StateView.{setting_of};
ghost use Rattle.source_blocks.specs.Blocks.{statement_count};
ghost use Rattle.source_blocks.specs.Tasks.{task_of, statement_line};
ghost use Rattle.source_blocks.specs.Opens.{closing_of};
ghost use Rattle.source_blocks.specs.Runs.{IsSound, IsSimple, config_of, state_in, here_in, rest_in};
ghost use Rattle.source_blocks.specs.Stops.{MayStop};

use crate::calls::{call, call_on};
use source_blocks::faults::LOOP;
use source_blocks::tree::Block;
use source_blocks::{
    Calls, Closing, Construct, Expr, Lack, Line, Local, Loop, Part, Run, Stmt, Stop, Task, Value,
    carry_line, carry_out, closing_value, element_place, is_true, open_block, pass, refuse,
    turned_call, value_in, with_mark,
};

/// A choice, in its direction.
#[derive(Clone, Copy)]
pub struct Choice<'a> {
    pub test: &'a Expr,
    pub taken: &'a Block,
    pub other: &'a Block,
    pub after: &'a Expr,
    pub back: bool,
}

/// A choice begins: the side that its test finds is open.
fn choose<'a>(run: &mut Run<'a>, fuel: &mut u64, at: u32, choice: &Choice<'a>) -> Result<(), Stop>
    requires sound { IsSound run.old }
    requires within { run.old.at < statement_count (task_of run.old.task) }
    requires here { here_in run.old ≡ If at (expression_of choice.now.test.now)
        (in_direction choice.now.back (block_of choice.now.taken.now))
        (in_direction choice.now.back (block_of choice.now.other.now))
        (expression_of choice.now.after.now) }
    ensures gives { MeteredGives (λ u. config_of run.new) result fuel.new
        (metered fuel.old (begun (setting_of run.old.setting) (config_of run.old)
        (here_in run.old) (rest_in run.old))) }
    ensures sound { OnOk result (IsSound run.new) }
    ensures opens { OnOk result (length run.new.frames.items ≤ 1 + length run.old.frames.items) }
    ensures setting { setting_of run.new.setting ≡ setting_of run.old.setting }
    ensures stays { OnFault result (run.new ≡ run.old) }
    ensures less { fuel.new ≤ fuel.old }
{
    match value_in(run, fuel, choice.test) {
        Err(why) => Err(why),
        Ok(value) => open_side(run, is_true(value), choice),
    }
}

/// A side of a choice is open.
fn open_side<'a>(run: &mut Run<'a>, side: bool, choice: &Choice<'a>) -> Result<(), Stop>
    requires sound { IsSound run.old }
    requires within { run.old.at < statement_count (task_of run.old.task) }
    ensures opened { MatchResult result (λ u. config_of run.new
        ≡ inside (config_of run.old) (here_in run.old) (rest_in run.old)
        (Chosen side (expression_of choice.now.test.now) (expression_of choice.now.after.now))
        (if side then in_direction choice.now.back (block_of choice.now.taken.now)
        else in_direction choice.now.back (block_of choice.now.other.now)) (state_in run.old))
        (λ why. why ≡ Stop.Lacks Lack.NoMemory) }
    ensures sound { OnOk result (IsSound run.new) }
    ensures opens { OnOk result (length run.new.frames.items ≤ 1 + length run.old.frames.items) }
    ensures setting { run.new.setting ≡ run.old.setting }
{
    let part = Part::Chosen {
        side,
        test: choice.test,
        after: choice.after,
    };
    if side {
        let task = Task::Text {
            block: choice.taken,
            back: choice.back,
        };
        open_block(run, part, task)
    } else {
        let task = Task::Text {
            block: choice.other,
            back: choice.back,
        };
        open_block(run, part, task)
    }
}

/// A loop begins: its first part is open if its entry holds.
fn repeat<'a>(run: &mut Run<'a>, fuel: &mut u64, at: u32, turns: &Loop<'a>) -> Result<(), Stop>
    requires sound { IsSound run.old }
    requires within { run.old.at < statement_count (task_of run.old.task) }
    requires here { here_in run.old ≡ Repeat at (expression_of turns.now.entry.now)
        (in_direction turns.now.back (block_of turns.now.first.now))
        (in_direction turns.now.back (block_of turns.now.again.now))
        (expression_of turns.now.exit.now) }
    ensures gives { MeteredGives (λ u. config_of run.new) result fuel.new
        (metered fuel.old (begun (setting_of run.old.setting) (config_of run.old)
        (here_in run.old) (rest_in run.old))) }
    ensures sound { OnOk result (IsSound run.new) }
    ensures opens { OnOk result (length run.new.frames.items ≤ 1 + length run.old.frames.items) }
    ensures setting { setting_of run.new.setting ≡ setting_of run.old.setting }
    ensures stays { OnFault result (run.new ≡ run.old) }
    ensures less { fuel.new ≤ fuel.old }
{
    match value_in(run, fuel, turns.entry) {
        Err(why) => Err(why),
        Ok(value) => match refuse(fuel, LOOP, !is_true(value)) {
            Err(why) => Err(why),
            Ok(()) => {
                let task = Task::Text {
                    block: turns.first,
                    back: turns.back,
                };
                open_block(run, Part::First(*turns), task)
            }
        },
    }
}

/// A local variable appears.
fn open_variable<'a>(run: &mut Run<'a>, name: &'a [u8], value: Value) -> Result<(), Stop>
    requires sound { IsSound run.old }
    ensures opened { MatchResult result (λ u. state_in run.new
        ≡ opened name.now (value_of value) (state_in run.old)) (λ why. why ≡ Stop.Lacks Lack.NoMemory) }
    ensures sound { OnOk result (IsSound run.new) }
    ensures same { run.new ≡ record run.old {
      locals = run.new.locals;
      marks = run.new.marks;
      values = run.new.values;
    } }
{
    run.values.insert(0, value)?;
    run.locals.insert(0, name)?;
    run.marks = with_mark(run.marks, name);
    Ok(())
}

/// A local variable begins, with its block.
pub fn open_local<'a>(
    run: &mut Run<'a>,
    fuel: &mut u64,
    local: &Local<'a>,
    task: Task<'a>,
) -> Result<(), Stop>
    requires sound { IsSound run.old }
    requires within { run.old.at < statement_count (task_of run.old.task) }
    ensures gives { MeteredGives (λ u. config_of run.new) result fuel.new
        (metered fuel.old (held_local (setting_of run.old.setting) (config_of run.old)
        (here_in run.old) (rest_in run.old) local.now.name.now (closing_of local.now.value)
        (task_of task.entry) (closing_of local.now.end_value))) }
    ensures sound { OnOk result (IsSound run.new) }
    ensures opens { OnOk result (length run.new.frames.items ≤ 1 + length run.old.frames.items) }
    ensures setting { setting_of run.new.setting ≡ setting_of run.old.setting }
    ensures stays { OnFault result (run.new ≡ run.old) }
    ensures less { fuel.new ≤ fuel.old }
{
    match closing_value(run, fuel, &local.value) {
        Err(why) => Err(why),
        Ok(value) => open_holding(run, value, local, task),
    }
}

/// A local variable of this value is open, with its block.
fn open_holding<'a>(
    run: &mut Run<'a>,
    value: Value,
    local: &Local<'a>,
    task: Task<'a>,
) -> Result<(), Stop>
    requires sound { IsSound run.old }
    requires within { run.old.at < statement_count (task_of run.old.task) }
    ensures opened { MatchResult result (λ u. config_of run.new
        ≡ inside (config_of run.old) (here_in run.old) (rest_in run.old)
        (Holding local.now.name.now (closing_of local.now.value) (closing_of local.now.end_value))
        (task_of task.entry) (opened local.now.name.now (value_of value) (state_in run.old)))
        (λ why. why ≡ Stop.Lacks Lack.NoMemory) }
    ensures sound { OnOk result (IsSound run.new) }
    ensures opens { OnOk result (length run.new.frames.items ≤ 1 + length run.old.frames.items) }
    ensures setting { run.new.setting ≡ run.old.setting }
{
    match open_variable(run, local.name, value) {
        Err(why) => Err(why),
        Ok(()) => open_block(run, Part::Holding(*local), task),
    }
}

/// A simple statement begins, and is past.
fn begin_simple<'a>(run: &mut Run<'a>, fuel: &mut u64, line: &Line<'a>) -> Result<(), Stop>
    requires sound { IsSound run.old }
    requires within { run.old.at < statement_count (task_of run.old.task) }
    requires here { here_in run.old ≡ statement_line line.now }
    requires simple { IsSimple (statement_line line.now) }
    ensures gives { MeteredGives (λ u. config_of run.new) result fuel.new
        (metered fuel.old (begun (setting_of run.old.setting) (config_of run.old)
        (here_in run.old) (rest_in run.old))) }
    ensures sound { OnOk result (IsSound run.new) }
    ensures opens { OnOk result (length run.new.frames.items ≤ 1 + length run.old.frames.items) }
    ensures setting { setting_of run.new.setting ≡ setting_of run.old.setting }
    ensures stays { OnFault result (run.new ≡ run.old) }
    ensures less { fuel.new ≤ fuel.old }
    ensures stops { IfErr result (λ why. MayStop (statement_line line.now) why) }
{
    match carry_line(run, fuel, line) {
        Err(why) => Err(why),
        Ok(()) => {
            pass(run);
            Ok(())
        }
    }
}

/// A simple statement of the text begins, and is past.
#[inline(always)]
pub fn begin_plain(run: &mut Run, fuel: &mut u64, s: &Stmt, back: bool) -> Result<(), Stop>
    requires sound { IsSound run.old }
    requires within { run.old.at < statement_count (task_of run.old.task) }
    requires here { here_in run.old ≡ turned back (statement_of s.now) }
    requires simple { IsSimple (turned back (statement_of s.now)) }
    ensures gives { MeteredGives (λ u. config_of run.new) result fuel.new
        (metered fuel.old (begun (setting_of run.old.setting) (config_of run.old)
        (here_in run.old) (rest_in run.old))) }
    ensures sound { OnOk result (IsSound run.new) }
    ensures opens { OnOk result (length run.new.frames.items ≤ 1 + length run.old.frames.items) }
    ensures setting { setting_of run.new.setting ≡ setting_of run.old.setting }
    ensures stays { OnFault result (run.new ≡ run.old) }
    ensures less { fuel.new ≤ fuel.old }
    ensures stops { IfErr result (λ why. MayStop (turned back (statement_of s.now)) why) }
{
    match carry_out(run, fuel, s, back) {
        Err(why) => Err(why),
        Ok(()) => {
            pass(run);
            Ok(())
        }
    }
}

/// A statement of the text begins, as it stands.
pub fn begin_forward<'a>(run: &mut Run<'a>, fuel: &mut u64, s: &'a Stmt) -> Result<(), Stop>
    requires sound { IsSound run.old }
    requires within { run.old.at < statement_count (task_of run.old.task) }
    requires here { here_in run.old ≡ statement_of s.now }
    ensures gives { MeteredGives (λ u. config_of run.new) result fuel.new
        (metered fuel.old (begun (setting_of run.old.setting) (config_of run.old)
        (here_in run.old) (rest_in run.old))) }
    ensures sound { OnOk result (IsSound run.new) }
    ensures opens { OnOk result (length run.new.frames.items ≤ 1 + length run.old.frames.items) }
    ensures setting { setting_of run.new.setting ≡ setting_of run.old.setting }
    ensures stays { OnFault result (run.new ≡ run.old) }
    ensures less { fuel.new ≤ fuel.old }
    ensures stops { IfErr result (λ why. MayStop (statement_of s.now) why) }
{
    match s {
        Stmt::If {
            at,
            test,
            yes,
            no,
            after,
        } => choose(
            run,
            fuel,
            *at,
            &Choice {
                test,
                taken: yes,
                other: no,
                after,
                back: false,
            },
        ),
        Stmt::From {
            at,
            entry,
            first,
            again,
            until,
        } => repeat(
            run,
            fuel,
            *at,
            &Loop {
                entry,
                first,
                again,
                exit: until,
                back: false,
            },
        ),
        Stmt::Local {
            at: _at,
            var,
            value,
            body,
            end_var: _end_var,
            end_value,
        } => open_local(
            run,
            fuel,
            &Local {
                name: var.name.text.bytes(),
                value: Closing::Of(value),
                end_value: Closing::Of(end_value),
            },
            Task::Text {
                block: body,
                back: false,
            },
        ),
        Stmt::Construct {
            at,
            class,
            name,
            body,
            end: _end,
        } => construct(
            run,
            fuel,
            &Construct {
                at: *at,
                class,
                name,
                body,
                back: false,
            },
        ),
        Stmt::Call {
            at,
            back,
            receiver,
            method,
            args,
        } => call(
            run,
            fuel,
            receiver,
            &Calls {
                at: *at,
                back: *back,
                method,
                args,
            },
        ),
        Stmt::Update { .. }
        | Stmt::Swap { .. }
        | Stmt::New { .. }
        | Stmt::Delete { .. }
        | Stmt::Copy { .. }
        | Stmt::Uncopy { .. }
        | Stmt::Skip { .. } => {
            begin_simple(
                run,
                fuel,
                &Line::Text {
                    stmt: s,
                    back: false,
                },
            )
        }
    }
}

/// A statement of the text begins, undone.
pub fn begin_backward<'a>(run: &mut Run<'a>, fuel: &mut u64, s: &'a Stmt) -> Result<(), Stop>
    requires sound { IsSound run.old }
    requires within { run.old.at < statement_count (task_of run.old.task) }
    requires here { here_in run.old ≡ turned true (statement_of s.now) }
    ensures gives { MeteredGives (λ u. config_of run.new) result fuel.new
        (metered fuel.old (begun (setting_of run.old.setting) (config_of run.old)
        (here_in run.old) (rest_in run.old))) }
    ensures sound { OnOk result (IsSound run.new) }
    ensures opens { OnOk result (length run.new.frames.items ≤ 1 + length run.old.frames.items) }
    ensures setting { setting_of run.new.setting ≡ setting_of run.old.setting }
    ensures stays { OnFault result (run.new ≡ run.old) }
    ensures less { fuel.new ≤ fuel.old }
    ensures stops { IfErr result (λ why. MayStop (turned true (statement_of s.now)) why) }
{
    match s {
        Stmt::If {
            at,
            test,
            yes,
            no,
            after,
        } => choose(
            run,
            fuel,
            *at,
            &Choice {
                test: after,
                taken: yes,
                other: no,
                after: test,
                back: true,
            },
        ),
        Stmt::From {
            at,
            entry,
            first,
            again,
            until,
        } => repeat(
            run,
            fuel,
            *at,
            &Loop {
                entry: until,
                first,
                again,
                exit: entry,
                back: true,
            },
        ),
        Stmt::Local {
            at: _at,
            var: _var,
            value,
            body,
            end_var,
            end_value,
        } => open_local(
            run,
            fuel,
            &Local {
                name: end_var.name.text.bytes(),
                value: Closing::Of(end_value),
                end_value: Closing::Of(value),
            },
            Task::Text {
                block: body,
                back: true,
            },
        ),
        Stmt::Construct {
            at,
            class,
            name,
            body,
            end: _end,
        } => construct(
            run,
            fuel,
            &Construct {
                at: *at,
                class,
                name,
                body,
                back: true,
            },
        ),
        Stmt::Call {
            at,
            back,
            receiver,
            method,
            args,
        } => call(
            run,
            fuel,
            receiver,
            &Calls {
                at: *at,
                back: turned_call(true, *back),
                method,
                args,
            },
        ),
        Stmt::Update { .. }
        | Stmt::Swap { .. }
        | Stmt::New { .. }
        | Stmt::Delete { .. }
        | Stmt::Copy { .. }
        | Stmt::Uncopy { .. }
        | Stmt::Skip { .. } => {
            begin_simple(
                run,
                fuel,
                &Line::Text {
                    stmt: s,
                    back: true,
                },
            )
        }
    }
}

/// A `construct` begins: its variable appears, with what it means inside.
fn construct<'a>(run: &mut Run<'a>, fuel: &mut u64, made: &Construct<'a>) -> Result<(), Stop>
    requires sound { IsSound run.old }
    requires within { run.old.at < statement_count (task_of run.old.task) }
    ensures gives { MeteredGives (λ u. config_of run.new) result fuel.new
        (metered fuel.old (held_local (setting_of run.old.setting) (config_of run.old)
        (here_in run.old) (rest_in run.old) made.now.name.now.text (Null made.now.at)
        (task_of (Task.Made made.now)) (Null made.now.at))) }
    ensures sound { OnOk result (IsSound run.new) }
    ensures opens { OnOk result (length run.new.frames.items ≤ 1 + length run.old.frames.items) }
    ensures setting { setting_of run.new.setting ≡ setting_of run.old.setting }
    ensures stays { OnFault result (run.new ≡ run.old) }
    ensures less { fuel.new ≤ fuel.old }
{
    open_local(
        run,
        fuel,
        &Local {
            name: made.name.text.bytes(),
            value: Closing::Nil(made.at),
            end_value: Closing::Nil(made.at),
        },
        Task::Made(*made),
    )
}

/// A statement of the block that runs begins.
pub fn begin<'a>(run: &mut Run<'a>, fuel: &mut u64, line: &Line<'a>) -> Result<(), Stop>
    requires sound { IsSound run.old }
    requires within { run.old.at < statement_count (task_of run.old.task) }
    requires here { here_in run.old ≡ statement_line line.now }
    ensures gives { MeteredGives (λ u. config_of run.new) result fuel.new
        (metered fuel.old (begun (setting_of run.old.setting) (config_of run.old)
        (here_in run.old) (rest_in run.old))) }
    ensures sound { OnOk result (IsSound run.new) }
    ensures opens { OnOk result (length run.new.frames.items ≤ 1 + length run.old.frames.items) }
    ensures setting { setting_of run.new.setting ≡ setting_of run.old.setting }
    ensures stays { OnFault result (run.new ≡ run.old) }
    ensures less { fuel.new ≤ fuel.old }
    ensures stops { IfErr result (λ why. MayStop (statement_line line.now) why) }
{
    match line {
        Line::Text { stmt, back } => {
            if *back {
                begin_backward(run, fuel, stmt)
            } else {
                begin_forward(run, fuel, stmt)
            }
        }
        Line::Make(_made) => begin_simple(run, fuel, line),
        Line::Delete(_made) => begin_simple(run, fuel, line),
        Line::Exchange { .. } => begin_simple(run, fuel, line),
        Line::Call(calls) => {
            match element_place(run.setting.alloc, calls.at) {
                Err(why) => Err(why),
                Ok(held) => call_on(run, fuel, &held.name, calls),
            }
        }
    }
}
