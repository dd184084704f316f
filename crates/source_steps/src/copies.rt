// Copies of references.
ghost use Rattle.std.specs.Prelude.{◌≡◌, ◌≤◌, OnOk, not, IfErr};
ghost use Rattle.class_table.specs.rpp_tree.Tree.{Copy as CopyTo, Uncopy};
ghost use Rattle.class_table.specs.rpp_tree.Views.{lvalue_of};
ghost use Rattle.source_store.specs.roopl_semantics.Execution.{same_cell};
ghost use Rattle.source_steps.specs.CellView.{cell_view};
ghost use Rattle.source_steps.specs.Ends.{EndsAs, does_simply, copied, uncopied};
ghost use Rattle.source_steps.specs.Metered.{metered, IsOwn, IsOwnOrFull, OnFault};
ghost use Rattle.source_steps.specs.StateView.{IsFramed, state_of, setting_of};

use crate::apart::copy_apart;
use crate::cell::{Cell, read_cell, write_cell};
use crate::expressions::Setting;
use crate::scope::Scope;
use crate::steps::{locate, refuse};
use crate::stop::Stop;
use class_table::tree::{Place, VarType};
use source_store::faults::{NIL, NOT_NIL, NOT_SAME};
use source_store::{Heap, Value};

/// Whether two cells are one.
fn is_same_cell(a: Cell, b: Cell) -> bool
    ensures { result ≡ same_cell (cell_view a) (cell_view b) }
{
    match (a, b) {
        (Cell::Slot(a), Cell::Slot(b)) => a == b,
        (Cell::Part { name: x, index: a }, Cell::Part { name: y, index: b }) => x == y && a == b,
        (Cell::Slot(_), Cell::Part { .. }) => false,
        (Cell::Part { .. }, Cell::Slot(_)) => false,
    }
}

/// After the places of a `copy`: the second of two cells refers to what the first does.
#[tactic(auto, using(crate::proofs::Fuelled::either))]
fn refer(
    setting: &Setting,
    scope: &Scope,
    heap: &mut Heap,
    values: &mut Vec<Value>,
    fuel: &mut u64,
    a: Cell,
    b: Cell,
) -> Result<(), Stop>
    requires { IsFramed setting.now scope.now heap.old values.old.items }
    ensures ends { EndsAs setting.now scope.now result heap.new values.new.items fuel.new
        (metered fuel.old (copied (cell_view a) (cell_view b)
        (state_of setting.now scope.now heap.old values.old.items))) }
    ensures framed { OnOk result (IsFramed setting.now scope.now heap.new values.new.items) }
    ensures stays { OnFault result ((heap.new ≡ heap.old) × (values.new ≡ values.old)) }
    ensures less { fuel.new ≤ fuel.old }
    ensures own { IfErr result IsOwnOrFull }
{
    let first = read_cell(setting, scope, heap, values, a);
    let second = read_cell(setting, scope, heap, values, b);
    refuse(fuel, NIL, first.is_nil())?;
    refuse(fuel, NOT_NIL, !second.is_nil())?;
    write_cell(setting, scope, heap, values, b, first);
    heap.raise(first.number())?;
    Ok(())
}

/// Gives a place that is nil a second reference, and counts it.
#[tactic(auto, using(crate::proofs::Fuelled::either))]
pub fn copy(
    setting: &Setting,
    scope: &Scope,
    heap: &mut Heap,
    values: &mut Vec<Value>,
    fuel: &mut u64,
    at: u32,
    kind: &VarType,
    source: &Place,
    target: &Place,
) -> Result<(), Stop>
    requires { IsFramed setting.now scope.now heap.old values.old.items }
    ensures ends { EndsAs setting.now scope.now result heap.new values.new.items fuel.new
        (does_simply setting.now fuel.old
        (CopyTo at kind.now (lvalue_of source.now) (lvalue_of target.now))
        (state_of setting.now scope.now heap.old values.old.items)) }
    ensures framed { OnOk result (IsFramed setting.now scope.now heap.new values.new.items) }
    ensures stays { OnFault result ((heap.new ≡ heap.old) × (values.new ≡ values.old)) }
    ensures less { fuel.new ≤ fuel.old }
    ensures own { IfErr result IsOwnOrFull }
{
    let a = locate(setting, scope, heap, values, fuel, source)?;
    let b = locate(setting, scope, heap, values, fuel, target)?;
    copy_apart(setting, scope, heap, values, fuel, source, target)?;
    refer(setting, scope, heap, values, fuel, a, b)
}

/// The second of two cells becomes nil, if both hold one reference.
fn take_back(
    setting: &Setting,
    scope: &Scope,
    heap: &mut Heap,
    values: &mut Vec<Value>,
    fuel: &mut u64,
    a: Cell,
    b: Cell,
) -> Result<(), Stop>
    requires { IsFramed setting.now scope.now heap.old values.old.items }
    ensures ends { EndsAs setting.now scope.now result heap.new values.new.items fuel.new
        (metered fuel.old (uncopied (cell_view a) (cell_view b)
        (state_of setting.now scope.now heap.old values.old.items))) }
    ensures framed { OnOk result (IsFramed setting.now scope.now heap.new values.new.items) }
    ensures stays { OnFault result ((heap.new ≡ heap.old) × (values.new ≡ values.old)) }
    ensures less { fuel.new ≤ fuel.old }
    ensures own { IfErr result IsOwn }
{
    let first = read_cell(setting, scope, heap, values, a);
    let second = read_cell(setting, scope, heap, values, b);
    refuse(fuel, NIL, first.is_nil())?;
    refuse(fuel, NOT_SAME, !first.same(second) || is_same_cell(a, b))?;
    write_cell(setting, scope, heap, values, b, Value::Nil);
    heap.lower(first.number());
    Ok(())
}

/// Takes back a second reference, and counts it.
pub fn uncopy(
    setting: &Setting,
    scope: &Scope,
    heap: &mut Heap,
    values: &mut Vec<Value>,
    fuel: &mut u64,
    at: u32,
    kind: &VarType,
    source: &Place,
    target: &Place,
) -> Result<(), Stop>
    requires { IsFramed setting.now scope.now heap.old values.old.items }
    ensures ends { EndsAs setting.now scope.now result heap.new values.new.items fuel.new
        (does_simply setting.now fuel.old
        (Uncopy at kind.now (lvalue_of source.now) (lvalue_of target.now))
        (state_of setting.now scope.now heap.old values.old.items)) }
    ensures framed { OnOk result (IsFramed setting.now scope.now heap.new values.new.items) }
    ensures stays { OnFault result ((heap.new ≡ heap.old) × (values.new ≡ values.old)) }
    ensures less { fuel.new ≤ fuel.old }
    ensures own { IfErr result IsOwn }
{
    let a = locate(setting, scope, heap, values, fuel, source)?;
    let b = locate(setting, scope, heap, values, fuel, target)?;
    copy_apart(setting, scope, heap, values, fuel, source, target)?;
    take_back(setting, scope, heap, values, fuel, a, b)
}
