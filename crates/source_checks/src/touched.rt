// What was written into lent variables during a call.
ghost use Rattle.std.specs.Prelude.{◌≡◌, ◌++◌, length, map, reverse};
ghost use Rattle.source_blocks.specs.source_store.ValueView.{values_of};
ghost use Rattle.source_blocks.specs.source_steps.CellView.{cell_view};
ghost use Rattle.source_blocks.specs.source_steps.StateView.{IsFramed, bindings, state_of, setting_of};
ghost use Rattle.source_blocks.specs.Opens.{open_of, caller_of, caller_names, cells_in};
ghost use Rattle.source_blocks.specs.Runs.{IsSound, state_in};
ghost use Rattle.source_checks.specs.Checks.{first_touched as first_touched_of, touched as touched_of};
ghost use Rattle.source_compared.specs.ComparedView.{compared_of};
ghost use Rattle.source_checks.specs.TestedView.{around_touched};
ghost use Rattle.source_blocks.specs.source_steps.Marks.{AreMarked};

use source_blocks::{Caller, Cell, Part, Run, Scope, Setting, read_cell, scope_of};
use source_compared::{Compared, Heap, Value, to_be_zero};

// The first of these cells that was changed.
fn first_touched(
    setting: &Setting,
    scope: &Scope,
    heap: &Heap,
    values: &[Value],
    cells: &[Cell],
) -> Compared
    requires { IsFramed setting.now scope.now heap.now values.now }
    ensures { compared_of result ≡ first_touched_of
        (state_of setting.now scope.now heap.now values.now) (map cell_view cells.now) }
{
    match cells {
        [] => Compared::Nothing,
        [cell, cells @ ..] => {
            let now = read_cell(setting, scope, heap, values, *cell);
            if now.is_zero() {
                first_touched(setting, scope, heap, values, cells)
            } else {
                to_be_zero(now)
            }
        }
    }
}

// What encloses a caller.
fn caller_setting<'a>(setting: &Setting<'a>, caller: &Caller) -> Setting<'a>
    ensures { result ≡ record setting.now {
      object = caller.now.object;
      depth = caller.now.depth;
    } }
{
    Setting {
        alloc: setting.alloc,
        checked: setting.checked,
        limits: setting.limits,
        object: caller.object,
        depth: caller.depth,
    }
}

// The first lent variable of a caller that was changed.
fn touched(run: &Run, caller: &Caller) -> Compared
    requires sound { IsSound run.now }
    requires each { length caller.now.values.items ≡ length (caller_names caller.now) }
    requires marked { AreMarked caller.now.marks (caller_names caller.now) }
    ensures { compared_of result ≡ touched_of (caller_of caller.now)
        (cells_in caller.now.receiver) (map cell_view caller.now.args.items) (state_in run.now) }
{
    let setting = caller_setting(&run.setting, caller);
    let scope = scope_of(&caller.locals, caller.params, caller.marks);
    match &caller.receiver {
        None => first_touched(&setting, &scope, &run.heap, &caller.values, &caller.args),
        Some(receiver) => {
            let now = read_cell(&setting, &scope, &run.heap, &caller.values, receiver.cell);
            if now.is_zero() {
                first_touched(&setting, &scope, &run.heap, &caller.values, &caller.args)
            } else {
                to_be_zero(now)
            }
        }
    }
}

/// The first lent variable of the caller that was changed, if the innermost open statement is a
/// call.
pub(crate) fn touched_around(run: &Run) -> Compared
    requires sound { IsSound run.now }
    ensures { compared_of result ≡ around_touched (state_in run.now)
        (map open_of (reverse run.now.frames.items)) }
{
    match run.frames.last() {
        None => Compared::Nothing,
        Some(frame) => match &frame.part {
            Part::Calling(caller) => touched(run, caller),
            Part::Chosen { .. } => Compared::Nothing,
            Part::First(_turns) => Compared::Nothing,
            Part::Again(_turns) => Compared::Nothing,
            Part::Holding(_local) => Compared::Nothing,
        },
    }
}
