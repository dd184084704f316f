// The values that move into a call and back.
ghost use Rattle.std.specs.Prelude.{◌≡◌, ◌≤◌, ◌++◌, IfOk, OnOk, OnErr, MatchResult, length, map, not, IfErr};
ghost use Rattle.source_store.specs.roopl_semantics.Value.{read};
ghost use Rattle.source_store.specs.roopl_semantics.Execution.{cells_named, moved_out, moved_back};
ghost use Rattle.source_store.specs.ValueView.{value_of, values_of};
ghost use Rattle.source_steps.specs.CellView.{cell_view};
ghost use Rattle.source_steps.specs.Metered.{metered, IsOwn};
ghost use Rattle.source_steps.specs.Ends.{EndsAs};
ghost use Rattle.source_steps.specs.StateView.{IsFramed, state_of, setting_of};

use crate::cell::{Cell, cell_of_name, read_cell, write_cell};
use crate::expressions::Setting;
use crate::scope::Scope;
use crate::steps::refuse;
use crate::stop::Stop;
use class_table::NoMemory;
use class_table::tree::Ident;
use source_store::faults::TOUCHED;
use source_store::{Heap, Lack, Value};
use std::alloc::Global;

/// The cells of these names, after some others.
pub fn name_cells(
    setting: &Setting,
    scope: &Scope,
    heap: &Heap,
    values: &[Value],
    cells: &mut Vec<Cell>,
    names: &[Ident],
) -> Result<(), NoMemory>
    requires { IsFramed setting.now scope.now heap.now values.now }
    ensures { OnOk result (map cell_view cells.new.items ≡ map cell_view cells.old.items
        ++ cells_named (setting_of setting.now) (state_of setting.now scope.now heap.now values.now)
        names.now) }
{
    for name in names {
        cells.push(cell_of_name(setting, scope, heap, values, &name.text))?;
    }
    Ok(())
}

/// What these cells hold.
pub fn read_cells(
    alloc: Global,
    setting: &Setting,
    scope: &Scope,
    heap: &Heap,
    values: &[Value],
    cells: &[Cell],
) -> Result<Vec<Value>, NoMemory>
    requires { IsFramed setting.now scope.now heap.now values.now }
    ensures { IfOk result (λ moved. values_of moved.items
        ≡ map (read (state_of setting.now scope.now heap.now values.now)) (map cell_view cells.now)) }
{
    let mut moved = Vec::new(alloc);
    for cell in cells {
        moved.push(read_cell(setting, scope, heap, values, *cell))?;
    }
    Ok(moved)
}

/// The values of these cells move away.
pub fn move_out(
    setting: &Setting,
    scope: &Scope,
    heap: &mut Heap,
    values: &mut Vec<Value>,
    cells: &[Cell],
)
    requires { IsFramed setting.now scope.now heap.old values.old.items }
    ensures moved { state_of setting.now scope.now heap.new values.new.items
        ≡ moved_out (map cell_view cells.now)
        (state_of setting.now scope.now heap.old values.old.items) }
    ensures framed { IsFramed setting.now scope.now heap.new values.new.items }
{
    for cell in cells {
        let old = read_cell(setting, scope, heap, values, *cell);
        write_cell(setting, scope, heap, values, *cell, old.cleared());
    }
}

/// The values move back, each into a cell that still reads 0 or nil. If one does not, all stays.
#[tactic(auto, using(crate::proofs::Restored::taken_back, crate::proofs::Fuelled::handed))]
pub fn move_back(
    setting: &Setting,
    scope: &Scope,
    heap: &mut Heap,
    values: &mut Vec<Value>,
    fuel: &mut u64,
    cells: &[Cell],
    moved: &[Value],
) -> Result<(), Stop>
    requires { IsFramed setting.now scope.now heap.old values.old.items }
    ensures ends { EndsAs setting.now scope.now result heap.new values.new.items fuel.new
        (metered fuel.old (moved_back (map cell_view cells.now) (values_of moved.now)
        (state_of setting.now scope.now heap.old values.old.items))) }
    ensures stays { OnErr result (state_of setting.now scope.now heap.new values.new.items
        ≡ state_of setting.now scope.now heap.old values.old.items) }
    ensures framed { IsFramed setting.now scope.now heap.new values.new.items }
    ensures same { fuel.new ≡ fuel.old }
    ensures own { IfErr result IsOwn }
{
    match cells {
        [] => Ok(()),
        [cell, cells @ ..] => match moved {
            [] => Ok(()),
            [value, moved @ ..] => {
                let place = *cell;
                let now = read_cell(setting, scope, heap, values, place);
                refuse(fuel, TOUCHED, !now.is_zero())?;
                write_cell(setting, scope, heap, values, place, *value);
                match move_back(setting, scope, heap, values, fuel, cells, moved) {
                    Ok(()) => Ok(()),
                    Err(why) => {
                        write_cell(setting, scope, heap, values, place, now);
                        Err(why)
                    }
                }
            }
        },
    }
}

/// The cells of these names.
pub fn cells_of(
    setting: &Setting,
    scope: &Scope,
    heap: &Heap,
    values: &Vec<Value>,
    names: &[Ident],
) -> Result<Vec<Cell>, Stop>
    requires { IsFramed setting.now scope.now heap.now values.now.items }
    ensures { MatchResult result (λ cells. map cell_view cells.items
        ≡ cells_named (setting_of setting.now)
        (state_of setting.now scope.now heap.now values.now.items) names.now)
        (λ why. why ≡ Stop.Lacks Lack.NoMemory) }
{
    let mut cells = Vec::new(setting.alloc);
    match name_cells(setting, scope, heap, values, &mut cells, names) {
        Err(_full) => Err(Stop::Lacks(Lack::NoMemory)),
        Ok(()) => Ok(cells),
    }
}

/// The values of a receiver and of arguments move back. If one finds its cell written, all stays.
#[tactic(auto, using(crate::proofs::Restored::taken_back, crate::proofs::Fuelled::handed))]
pub fn return_values(
    setting: &Setting,
    scope: &Scope,
    heap: &mut Heap,
    values: &mut Vec<Value>,
    fuel: &mut u64,
    receiver: &[Cell],
    args: &[Cell],
    held: &[Value],
    inside: &[Value],
) -> Result<(), Stop>
    requires framed { IsFramed setting.now scope.now heap.old values.old.items }
    requires same { length held.now ≡ length receiver.now }
    ensures ends { EndsAs setting.now scope.now result heap.new values.new.items fuel.new
        (metered fuel.old (moved_back (map cell_view receiver.now ++ map cell_view args.now)
        (values_of held.now ++ values_of inside.now)
        (state_of setting.now scope.now heap.old values.old.items))) }
    ensures stays { OnErr result (state_of setting.now scope.now heap.new values.new.items
        ≡ state_of setting.now scope.now heap.old values.old.items) }
    ensures framed { IsFramed setting.now scope.now heap.new values.new.items }
    ensures same { fuel.new ≡ fuel.old }
    ensures own { IfErr result IsOwn }
{
    match receiver {
        [] => move_back(setting, scope, heap, values, fuel, args, inside),
        [cell, receiver @ ..] => match held {
            [] => Ok(()),
            [value, held @ ..] => {
                let place = *cell;
                let before = read_cell(setting, scope, heap, values, place);
                refuse(fuel, TOUCHED, !before.is_zero())?;
                write_cell(setting, scope, heap, values, place, *value);
                match return_values(
                    setting, scope, heap, values, fuel, receiver, args, held, inside,
                ) {
                    Ok(()) => Ok(()),
                    Err(why) => {
                        write_cell(setting, scope, heap, values, place, before);
                        Err(why)
                    }
                }
            }
        },
    }
}
