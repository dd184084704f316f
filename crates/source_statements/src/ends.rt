// The end of a block.
ghost use Rattle.std.specs.Prelude.{◌≡◌, ◌+◌, ◌*◌, ◌<◌, ◌≤◌, ◌++◌, suc, not, if◌then◌else◌, OnOk, OnErr, length, map, IfErr};
ghost use Rattle.source_blocks.specs.rpp_tree.Views.{expression_of};
ghost use Rattle.source_blocks.specs.roopl_semantics.Execution.{closed, moved_back};
ghost use Rattle.source_blocks.specs.meaning_machine.Machine.{closing};
ghost use Rattle.source_blocks.specs.source_store.ValueView.{values_of};
ghost use Rattle.source_blocks.specs.source_steps.CellView.{cell_view};
ghost use Rattle.source_blocks.specs.source_steps.Metered.{MeteredGives, metered, IsOwn, IsOwnOrFull, OnFault};
ghost use Rattle.source_blocks.specs.source_steps.StateView.{setting_of};
ghost use Rattle.source_blocks.specs.Blocks.{past_at, rest_at, statement_count};
ghost use Rattle.source_blocks.specs.Tasks.{task_of};
ghost use Rattle.source_blocks.specs.Opens.{part_of, caller_of, caller_names, cells_in, values_in, HasPart};
ghost use Rattle.source_blocks.specs.Runs.{IsSound, RunStays, config_of, state_in};
ghost use Rattle.source_blocks.specs.Endings.{IsInCall};
ghost use Rattle.source_statements.specs.Endings.{IsInSide, caller_state, HasCallSpace, Falls};
ghost use Rattle.source_blocks.specs.source_steps.Marks.{AreMarked};

use source_blocks::faults::{DELOCAL, FI, LOOP};
use source_blocks::{
    Caller, Ending, Expr, Frame, Heap, Lack, Local, Loop, Part, Run, Setting, Stop, Task, Value,
    block_ending, close_block, closing_value, go_over, innermost, is_true, refuse, return_values,
    scope_of, value_in,
};
use std::slice::from_ref;

/// Whether a choice that took this side is left with a test that is not that of the side.
fn differs(side: bool, test: bool) -> bool
    ensures { result ≡ (if side then not test else test) }
{
    if side { !test } else { test }
}

/// A side of a choice ends.
fn end_side(run: &mut Run, fuel: &mut u64, side: bool, after: &Expr) -> Result<(), Stop>
    requires sound { IsSound run.old }
    requires within { IsInSide (config_of run.old) side (expression_of after.now) }
    ensures gives { MeteredGives (λ u. config_of run.new) result fuel.new
        (metered fuel.old (closing (setting_of run.old.setting) (config_of run.old)
        (config_of run.old).around)) }
    ensures sound { OnOk result (IsSound run.new) }
    ensures opens { OnOk result (length run.new.frames.items < length run.old.frames.items) }
    ensures setting { setting_of run.new.setting ≡ setting_of run.old.setting }
    ensures stays { OnFault result (run.new ≡ run.old) }
    ensures less { fuel.new ≤ fuel.old }
    ensures own { IfErr result IsOwn }
{
    match value_in(run, fuel, after) {
        Err(why) => Err(why),
        Ok(value) => match refuse(fuel, FI, differs(side, is_true(value))) {
            Err(why) => Err(why),
            Ok(()) => {
                close_block(run);
                Ok(())
            }
        },
    }
}

/// The first part of a loop's iteration ends: the loop is left if its exit holds.
fn end_first<'a>(run: &mut Run<'a>, fuel: &mut u64, turns: &Loop<'a>) -> Result<(), Stop>
    requires sound { IsSound run.old }
    requires within { HasPart (config_of run.old).around (part_of (Part.First turns.now)) }
    ensures gives { MeteredGives (λ u. config_of run.new) result fuel.new
        (metered fuel.old (closing (setting_of run.old.setting) (config_of run.old)
        (config_of run.old).around)) }
    ensures sound { OnOk result (IsSound run.new) }
    ensures opens { OnOk result (length run.new.frames.items ≤ length run.old.frames.items) }
    ensures setting { setting_of run.new.setting ≡ setting_of run.old.setting }
    ensures stays { OnFault result (run.new ≡ run.old) }
    ensures some { OnOk result (fuel.new < fuel.old) }
    ensures less { fuel.new ≤ fuel.old }
    ensures own { IfErr result IsOwn }
{
    match value_in(run, fuel, turns.exit) {
        Err(why) => Err(why),
        Ok(value) => {
            if is_true(value) {
                close_block(run);
                return Ok(());
            }
            go_over(run, true);
            Ok(())
        }
    }
}

/// The second part of a loop's iteration ends: the next iteration begins if the entry does not
/// hold.
fn end_again<'a>(run: &mut Run<'a>, fuel: &mut u64, turns: &Loop<'a>) -> Result<(), Stop>
    requires sound { IsSound run.old }
    requires within { HasPart (config_of run.old).around (part_of (Part.Again turns.now)) }
    ensures gives { MeteredGives (λ u. config_of run.new) result fuel.new
        (metered fuel.old (closing (setting_of run.old.setting) (config_of run.old)
        (config_of run.old).around)) }
    ensures sound { OnOk result (IsSound run.new) }
    ensures opens { OnOk result (length run.new.frames.items ≤ length run.old.frames.items) }
    ensures setting { setting_of run.new.setting ≡ setting_of run.old.setting }
    ensures stays { OnFault result (run.new ≡ run.old) }
    ensures some { OnOk result (fuel.new < fuel.old) }
    ensures less { fuel.new ≤ fuel.old }
    ensures own { IfErr result IsOwn }
{
    match value_in(run, fuel, turns.entry) {
        Err(why) => Err(why),
        Ok(value) => match refuse(fuel, LOOP, is_true(value)) {
            Err(why) => Err(why),
            Ok(()) => {
                go_over(run, false);
                Ok(())
            }
        },
    }
}

/// The innermost local variable goes.
fn close_variable(run: &mut Run)
    requires sound { IsSound run.old }
    requires local { 0 < length run.old.locals.items }
    ensures closed { state_in run.new ≡ closed (state_in run.old) }
    ensures sound { IsSound run.new }
    ensures same { run.new ≡ record run.old {
      locals = run.new.locals;
      marks = run.new.marks;
      values = run.new.values;
    } }
{
    run.locals.remove(0);
    run.values.remove(0);
}

/// The block of a local variable ends: its value is compared with the closing one, and it goes. If
/// no local variable is in scope, that is refused as `Full`.
#[inline(never)]
fn end_local(run: &mut Run, fuel: &mut u64, local: &Local) -> Result<(), Stop>
    requires sound { IsSound run.old }
    requires within { HasPart (config_of run.old).around (part_of (Part.Holding local.now)) }
    ensures gives { MeteredGives (λ u. config_of run.new) result fuel.new
        (metered fuel.old (closing (setting_of run.old.setting) (config_of run.old)
        (config_of run.old).around)) }
    ensures sound { OnOk result (IsSound run.new) }
    ensures opens { OnOk result (length run.new.frames.items < length run.old.frames.items) }
    ensures setting { setting_of run.new.setting ≡ setting_of run.old.setting }
    ensures stays { OnFault result (run.new ≡ run.old) }
    ensures less { fuel.new ≤ fuel.old }
    ensures own { IfErr result IsOwnOrFull }
{
    match closing_value(run, fuel, &local.end_value) {
        Err(why) => Err(why),
        Ok(last) => match refuse(fuel, DELOCAL, !innermost(run).same(last)) {
            Err(why) => Err(why),
            Ok(()) => {
                if run.locals.is_empty() {
                    return Err(Stop::Lacks(Lack::Full));
                }
                close_variable(run);
                close_block(run);
                Ok(())
            }
        },
    }
}

/// The values of a receiver and of the arguments move back to a caller. If one finds its cell
/// written, all stays.
fn give_back(
    setting: &Setting,
    heap: &mut Heap,
    fuel: &mut u64,
    caller: &mut Caller,
    inside: &[Value],
) -> Result<(), Stop>
    requires room { HasCallSpace setting.now caller.old heap.old }
    ensures gives { MeteredGives (λ u. caller_state setting.now caller.new heap.new) result fuel.new
        (metered fuel.old (moved_back (cells_in caller.old.receiver ++ map cell_view
        caller.old.args.items) (values_in caller.old.receiver ++ values_of inside.now)
        (caller_state setting.now caller.old heap.old))) }
    ensures stays { OnErr result (caller_state setting.now caller.new heap.new
        ≡ caller_state setting.now caller.old heap.old) }
    ensures room { HasCallSpace setting.now caller.new heap.new }
    ensures same { caller.new ≡ record caller.old { values = caller.new.values } }
    ensures fuel { fuel.new ≡ fuel.old }
    ensures own { IfErr result IsOwn }
{
    let scope = scope_of(&caller.locals, caller.params, caller.marks);
    let values = &mut caller.values;
    match &caller.receiver {
        None => return_values(
            setting,
            &scope,
            heap,
            values,
            fuel,
            &[],
            &caller.args,
            &[],
            inside,
        ),
        Some(receiver) => return_values(
            setting,
            &scope,
            heap,
            values,
            fuel,
            from_ref(&receiver.cell),
            &caller.args,
            from_ref(&receiver.value),
            inside,
        ),
    }
}

/// A method is past: what encloses its caller is active again.
fn become_caller<'a>(run: &mut Run<'a>, task: Task<'a>, at: usize, caller: Caller<'a>)
    requires within { at < statement_count (task_of task) }
    requires sound { IsSound run.old }
    requires each { length caller.values.items ≡ length (caller_names caller) }
    requires marked { AreMarked caller.marks (caller_names caller) }
    ensures state { state_in run.new ≡ record {
      frame = (caller_of caller.entry).frame;
      self = caller.entry.object;
      depth = caller.entry.depth;
      store = run.old.heap.store;
      log = run.old.heap.log;
    } }
    ensures place { config_of run.new ≡ record {
      past = past_at (suc at) (task_of task.entry);
      rest = rest_at (suc at) (task_of task.entry);
      params = length caller.entry.params.now;
      state = state_in run.new;
      around = (config_of run.old).around;
    } }
    ensures sound { IsSound run.new }
    ensures frames { run.new.frames ≡ run.old.frames }
    ensures setting { setting_of run.new.setting ≡ setting_of run.old.setting }
{
    run.setting = caller_setting(&run.setting, &caller);
    run.params = caller.params;
    run.locals = caller.locals;
    run.marks = caller.marks;
    run.values = caller.values;
    run.task = task;
    run.at = at + 1;
}

/// What encloses a caller.
fn caller_setting<'a>(setting: &Setting<'a>, caller: &Caller) -> Setting<'a>
    ensures { result ≡ record setting.now {
      object = caller.now.object;
      depth = caller.now.depth;
    } }
{
    Setting {
        alloc: setting.alloc,
        checked: setting.checked,
        limits: setting.limits,
        object: caller.object,
        depth: caller.depth,
    }
}

/// A method ends: the values move back, and its caller goes on. If one finds its cell written, the
/// method stays active.
#[inline(never)]
fn end_call(run: &mut Run, fuel: &mut u64) -> Result<(), Stop>
    requires sound { IsSound run.old }
    requires within { IsInCall (config_of run.old).around }
    ensures gives { MeteredGives (λ u. config_of run.new) result fuel.new
        (metered fuel.old (closing (setting_of run.old.setting) (config_of run.old)
        (config_of run.old).around)) }
    ensures sound { OnOk result (IsSound run.new) }
    ensures opens { OnOk result (length run.new.frames.items < length run.old.frames.items) }
    ensures setting { setting_of run.new.setting ≡ setting_of run.old.setting }
    ensures stays { OnFault result (RunStays run.old run.new) }
    ensures less { fuel.new ≤ fuel.old }
    ensures own { IfErr result IsOwn }
{
    match run.frames.pop() {
        None => Ok(()),
        Some(Frame { task, at, part }) => match part {
            Part::Calling(mut caller) => {
                let setting = caller_setting(&run.setting, &caller);
                match give_back(&setting, &mut run.heap, fuel, &mut caller, &run.values) {
                    Ok(()) => {
                        become_caller(run, task, at, caller);
                        Ok(())
                    }
                    Err(why) => {
                        let part = Part::Calling(caller);
                        run.frames.push_reserved(Frame { task, at, part });
                        Err(why)
                    }
                }
            }
            _ => Ok(()),
        },
    }
}

/// The block that runs ends.
pub fn end(run: &mut Run, fuel: &mut u64) -> Result<(), Stop>
    requires sound { IsSound run.old }
    ensures gives { MeteredGives (λ u. config_of run.new) result fuel.new
        (metered fuel.old (closing (setting_of run.old.setting) (config_of run.old)
        (config_of run.old).around)) }
    ensures sound { OnOk result (IsSound run.new) }
    ensures falls { OnOk result (Falls (config_of run.old).around
        (2 * fuel.new + length run.new.frames.items)
        (2 * fuel.old + length run.old.frames.items)) }
    ensures setting { setting_of run.new.setting ≡ setting_of run.old.setting }
    ensures stays { OnFault result (RunStays run.old run.new) }
    ensures less { fuel.new ≤ fuel.old }
    ensures own { IfErr result IsOwnOrFull }
{
    match block_ending(&run.frames) {
        Ending::Over => Ok(()),
        Ending::Chosen {
            side,
            test: _test,
            after,
        } => end_side(run, fuel, side, after),
        Ending::First(turns) => end_first(run, fuel, &turns),
        Ending::Again(turns) => end_again(run, fuel, &turns),
        Ending::Holding(local) => end_local(run, fuel, &local),
        Ending::Calling => end_call(run, fuel),
    }
}
