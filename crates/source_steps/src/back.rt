// Requests to the heap undone.
ghost use Rattle.std.specs.Prelude.{◌≡◌, ◌≤◌, ◌<◌, ◌^◌, OnOk, length};
ghost use Rattle.class_table.specs.rpp_tree.Tree.{Object as AnObject};
ghost use Rattle.class_table.specs.rpp_tree.Views.{creation_of, expression_of, lvalue_of};
ghost use Rattle.source_store.specs.meaning_machine.Reversed.{untaken, ungiven, unmade as unmade_in, undeleted as undeleted_in};
ghost use Rattle.source_store.specs.ValueView.{value_of, values_of, kept_head};
ghost use Rattle.source_steps.specs.CellView.{cell_view};
ghost use Rattle.source_steps.specs.Ends.{EndsAs, array_head, first_element, there_again, array_again, array_undeleted};
ghost use Rattle.source_steps.specs.Metered.{metered, OnFault};
ghost use Rattle.source_steps.specs.StateView.{IsFramed, state_of, setting_of};

use crate::cell::{Cell, write_cell};
use crate::expressions::Setting;
use crate::objects::{class_of_name, element_of, elements, fields_of, head_of_array, zeros};
use crate::scope::Scope;
use crate::steps::{evaluate, locate};
use crate::stop::Stop;
use class_table::tree::{Ident, Made, Place};
use class_table::{Expr, Text};
use source_store::{Head, Heap, Lack, Value};

/// What a cell names goes, with the newest request, if that was for a new object.
fn untake(
    setting: &Setting,
    scope: &Scope,
    heap: &mut Heap,
    values: &mut Vec<Value>,
    fuel: &mut u64,
    cell: Cell,
) -> Result<(), Stop>
    requires framed { IsFramed setting.now scope.now heap.old values.old.items }
    ensures ends { EndsAs setting.now scope.now result heap.new values.new.items fuel.new
        (metered fuel.old (untaken heap.old.log (cell_view cell)
        (state_of setting.now scope.now heap.old values.old.items))) }
    ensures framed { OnOk result (IsFramed setting.now scope.now heap.new values.new.items) }
    ensures stays { OnFault result ((heap.new ≡ heap.old) × (values.new ≡ values.old)) }
    ensures same { fuel.new ≡ fuel.old }
{
    write_cell(setting, scope, heap, values, cell, Value::Nil);
    match heap.untake()? {
        true => Ok(()),
        false => Err(Stop::More),
    }
}

/// Undoes a `new`: unmakes what it made and empties the place.
pub fn unmade(
    setting: &Setting,
    scope: &Scope,
    heap: &mut Heap,
    values: &mut Vec<Value>,
    fuel: &mut u64,
    place: &Place,
) -> Result<(), Stop>
    requires framed { IsFramed setting.now scope.now heap.old values.old.items }
    ensures ends { EndsAs setting.now scope.now result heap.new values.new.items fuel.new
        (metered fuel.old (unmade_in (setting_of setting.now) (lvalue_of place.now)
        (state_of setting.now scope.now heap.old values.old.items))) }
    ensures framed { OnOk result (IsFramed setting.now scope.now heap.new values.new.items) }
    ensures stays { OnFault result ((heap.new ≡ heap.old) × (values.new ≡ values.old)) }
    ensures less { fuel.new ≤ fuel.old }
{
    let cell = locate(setting, scope, heap, values, fuel, place)?;
    untake(setting, scope, heap, values, fuel, cell)
}

/// What the newest request gave back lives again, and a cell names it.
fn ungive(
    setting: &Setting,
    scope: &Scope,
    heap: &mut Heap,
    values: &mut Vec<Value>,
    fuel: &mut u64,
    cell: Cell,
    head: Head,
    cells: Vec<Value>,
) -> Result<(), Stop>
    requires framed { IsFramed setting.now scope.now heap.old values.old.items }
    requires small { length cells.items < 2 ^ 31 }
    ensures ends { EndsAs setting.now scope.now result heap.new values.new.items fuel.new
        (metered fuel.old (ungiven heap.old.log (cell_view cell) (kept_head head)
        (values_of cells.items) (state_of setting.now scope.now heap.old values.old.items))) }
    ensures framed { OnOk result (IsFramed setting.now scope.now heap.new values.new.items) }
    ensures stays { OnFault result ((heap.new ≡ heap.old) × (values.new ≡ values.old)) }
    ensures same { fuel.new ≡ fuel.old }
{
    match heap.ungive(head, cells)? {
        None => Err(Stop::More),
        Some(name) => {
            write_cell(setting, scope, heap, values, cell, Value::Name(name));
            Ok(())
        }
    }
}

/// After the place of a `delete` of an object that is undone.
fn put_object(
    setting: &Setting,
    scope: &Scope,
    heap: &mut Heap,
    values: &mut Vec<Value>,
    fuel: &mut u64,
    cell: Cell,
    class: &Text,
) -> Result<(), Stop>
    requires framed { IsFramed setting.now scope.now heap.old values.old.items }
    ensures ends { EndsAs setting.now scope.now result heap.new values.new.items fuel.new
        (metered fuel.old (there_again (setting_of setting.now) class.now (cell_view cell)
        (state_of setting.now scope.now heap.old values.old.items))) }
    ensures framed { OnOk result (IsFramed setting.now scope.now heap.new values.new.items) }
    ensures stays { OnFault result ((heap.new ≡ heap.old) × (values.new ≡ values.old)) }
    ensures same { fuel.new ≡ fuel.old }
{
    let number = class_of_name(setting, class);
    let cells = zeros(setting.alloc, fields_of(setting, number))?;
    ungive(
        setting,
        scope,
        heap,
        values,
        fuel,
        cell,
        Head::Class(number),
        cells,
    )
}

/// `delete` of an object, undone.
pub fn undelete_object(
    setting: &Setting,
    scope: &Scope,
    heap: &mut Heap,
    values: &mut Vec<Value>,
    fuel: &mut u64,
    class: &Ident,
    place: &Place,
) -> Result<(), Stop>
    requires framed { IsFramed setting.now scope.now heap.old values.old.items }
    ensures ends { EndsAs setting.now scope.now result heap.new values.new.items fuel.new
        (metered fuel.old (undeleted_in (setting_of setting.now) (AnObject class.now)
        (lvalue_of place.now) (state_of setting.now scope.now heap.old values.old.items))) }
    ensures framed { OnOk result (IsFramed setting.now scope.now heap.new values.new.items) }
    ensures stays { OnFault result ((heap.new ≡ heap.old) × (values.new ≡ values.old)) }
    ensures less { fuel.new ≤ fuel.old }
{
    let cell = locate(setting, scope, heap, values, fuel, place)?;
    put_object(setting, scope, heap, values, fuel, cell, &class.text)
}

/// After the place and the length of a `delete` of an array that is undone. More elements than a
/// heap has words are refused as `Full`.
fn put_array(
    setting: &Setting,
    scope: &Scope,
    heap: &mut Heap,
    values: &mut Vec<Value>,
    fuel: &mut u64,
    cell: Cell,
    kind: Option<u32>,
    size: Value,
) -> Result<(), Stop>
    requires framed { IsFramed setting.now scope.now heap.old values.old.items }
    ensures ends { EndsAs setting.now scope.now result heap.new values.new.items fuel.new
        (metered fuel.old (array_again (cell_view cell) (array_head kind) (first_element kind)
        (value_of size) (state_of setting.now scope.now heap.old values.old.items))) }
    ensures framed { OnOk result (IsFramed setting.now scope.now heap.new values.new.items) }
    ensures stays { OnFault result ((heap.new ≡ heap.old) × (values.new ≡ values.old)) }
    ensures same { fuel.new ≡ fuel.old }
{
    let count = size.number();
    if count >= 1 << 31 {
        return Err(Stop::Lacks(Lack::Full));
    }
    let cells = elements(setting.alloc, count, element_of(kind))?;
    ungive(
        setting,
        scope,
        heap,
        values,
        fuel,
        cell,
        head_of_array(kind, count),
        cells,
    )
}

/// `delete` of an array, undone.
fn undelete_array(
    setting: &Setting,
    scope: &Scope,
    heap: &mut Heap,
    values: &mut Vec<Value>,
    fuel: &mut u64,
    kind: Option<u32>,
    place: &Place,
    size: &Expr,
) -> Result<(), Stop>
    requires framed { IsFramed setting.now scope.now heap.old values.old.items }
    ensures ends { EndsAs setting.now scope.now result heap.new values.new.items fuel.new
        (metered fuel.old (array_undeleted (setting_of setting.now) (lvalue_of place.now)
        (expression_of size.now) (array_head kind) (first_element kind)
        (state_of setting.now scope.now heap.old values.old.items))) }
    ensures framed { OnOk result (IsFramed setting.now scope.now heap.new values.new.items) }
    ensures stays { OnFault result ((heap.new ≡ heap.old) × (values.new ≡ values.old)) }
    ensures less { fuel.new ≤ fuel.old }
{
    let cell = locate(setting, scope, heap, values, fuel, place)?;
    let value = evaluate(setting, scope, heap, values, fuel, size)?;
    put_array(setting, scope, heap, values, fuel, cell, kind, value)
}

/// Undoes a `delete`: makes again what it unmade, at the place.
pub fn undeleted(
    setting: &Setting,
    scope: &Scope,
    heap: &mut Heap,
    values: &mut Vec<Value>,
    fuel: &mut u64,
    made: &Made,
    place: &Place,
) -> Result<(), Stop>
    requires framed { IsFramed setting.now scope.now heap.old values.old.items }
    ensures ends { EndsAs setting.now scope.now result heap.new values.new.items fuel.new
        (metered fuel.old (undeleted_in (setting_of setting.now) (creation_of made.now)
        (lvalue_of place.now) (state_of setting.now scope.now heap.old values.old.items))) }
    ensures framed { OnOk result (IsFramed setting.now scope.now heap.new values.new.items) }
    ensures stays { OnFault result ((heap.new ≡ heap.old) × (values.new ≡ values.old)) }
    ensures less { fuel.new ≤ fuel.old }
{
    match made {
        Made::Object(class) => undelete_object(setting, scope, heap, values, fuel, class, place),
        Made::Ints(size) => undelete_array(setting, scope, heap, values, fuel, None, place, size),
        Made::Objects(class, size) => {
            let number = class_of_name(setting, &class.text);
            undelete_array(
                setting,
                scope,
                heap,
                values,
                fuel,
                Some(number),
                place,
                size,
            )
        }
    }
}
