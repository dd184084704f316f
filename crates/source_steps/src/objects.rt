// Objects and arrays that are made and deleted.
ghost use Rattle.std.specs.Prelude.{◌≡◌, ◌+◌, ◌≤◌, ◌<◌, ◌^◌, IfOk, OnOk, length, replicate};
ghost use Rattle.std.specs.Option.{unwrap_or};
ghost use Rattle.class_table.specs.rpp_tree.Tree.{New, Delete, Object as AnObject};
ghost use Rattle.class_table.specs.rpp_tree.Views.{source_of, creation_of, expression_of, lvalue_of};
ghost use Rattle.source_store.specs.class_rules.Classes.{class_fields, class_number};
ghost use Rattle.source_store.specs.roopl_semantics.Store.{zero_value, zero_values};
ghost use Rattle.source_store.specs.roopl_semantics.Execution.{allocated, freed, new_array as new_array_in, delete_array as delete_array_in};
ghost use Rattle.source_store.specs.ValueView.{value_of, values_of, kept_head};
ghost use Rattle.source_steps.specs.CellView.{cell_view};
ghost use Rattle.source_steps.specs.Ends.{EndsAs, does_simply, array_head, first_element, new_of, object_made, filled, made_array, emptied, gone, gone_array};
ghost use Rattle.source_steps.specs.Metered.{metered, OnFault};
ghost use Rattle.source_steps.specs.StateView.{IsFramed, state_of, setting_of};

use crate::apart::place_apart;
use crate::cell::{Cell, read_cell, write_cell};
use crate::expressions::Setting;
use crate::scope::Scope;
use crate::steps::{evaluate, locate, refuse, spend};
use crate::stop::Stop;
use class_table::tree::{Ident, Made, Place, Var, VarType};
use class_table::{Expr, NoMemory, Text, less};
use source_store::faults::{
    CLASS_DIFFERS, COUNT, HEAP_FULL, LENGTH, LENGTH_DIFFERS, NIL, NOT_EMPTY, NOT_NIL,
};
use source_store::{Head, Heap, Lack, Value};
use std::alloc::Global;

fn zero(kind: &VarType) -> Value
    ensures { value_of result ≡ zero_value kind.now }
{
    match kind {
        VarType::Int => Value::Word(0),
        VarType::Class(_) => Value::Nil,
        VarType::IntArray => Value::Nil,
        VarType::ClassArray(_) => Value::Nil,
    }
}

/// Zeros for these variables.
pub fn zeros(alloc: Global, vars: &[Var]) -> Result<Vec<Value>, NoMemory>
    ensures { IfOk result (λ cells. values_of cells.items ≡ zero_values vars.now) }
{
    let mut cells = Vec::new(alloc);
    for var in vars {
        cells.push(zero(&var.kind))?;
    }
    Ok(cells)
}

/// An object or array with these cells, if the heap has a block for it.
fn allocate(
    setting: &Setting,
    scope: &Scope,
    heap: &mut Heap,
    values: &mut Vec<Value>,
    fuel: &mut u64,
    cell: Cell,
    head: Head,
    cells: Vec<Value>,
) -> Result<(), Stop>
    requires framed { IsFramed setting.now scope.now heap.old values.old.items }
    requires small { length cells.items < 2 ^ 31 }
    ensures ends { EndsAs setting.now scope.now result heap.new values.new.items fuel.new
        (metered fuel.old (allocated (setting_of setting.now) (length cells.items) (cell_view cell)
        (kept_head head) (values_of cells.items)
        (state_of setting.now scope.now heap.old values.old.items))) }
    ensures framed { OnOk result (IsFramed setting.now scope.now heap.new values.new.items) }
    ensures stays { OnFault result ((heap.new ≡ heap.old) × (values.new ≡ values.old)) }
    ensures same { fuel.new ≡ fuel.old }
{
    if heap.is_too_large(cells.len() as u32) {
        return Err(Stop::Fault(HEAP_FULL));
    }
    match heap.take(head, cells)? {
        None => Err(Stop::Fault(HEAP_FULL)),
        Some(name) => {
            write_cell(setting, scope, heap, values, cell, Value::Name(name));
            Ok(())
        }
    }
}

/// After the place and the check of a `new` of an object.
fn make(
    setting: &Setting,
    scope: &Scope,
    heap: &mut Heap,
    values: &mut Vec<Value>,
    fuel: &mut u64,
    cell: Cell,
    class: &Text,
) -> Result<(), Stop>
    requires framed { IsFramed setting.now scope.now heap.old values.old.items }
    ensures ends { EndsAs setting.now scope.now result heap.new values.new.items fuel.new
        (metered fuel.old (object_made (setting_of setting.now) class.now (cell_view cell)
        (state_of setting.now scope.now heap.old values.old.items))) }
    ensures framed { OnOk result (IsFramed setting.now scope.now heap.new values.new.items) }
    ensures stays { OnFault result ((heap.new ≡ heap.old) × (values.new ≡ values.old)) }
    ensures less { fuel.new ≤ fuel.old }
{
    let old = read_cell(setting, scope, heap, values, cell);
    refuse(fuel, NOT_NIL, !old.is_nil())?;
    spend(fuel, setting.limits.heap as u64 + 1)?;
    allocate_object(setting, scope, heap, values, fuel, cell, class)
}

/// An object of a class, if the heap has a block for it.
fn allocate_object(
    setting: &Setting,
    scope: &Scope,
    heap: &mut Heap,
    values: &mut Vec<Value>,
    fuel: &mut u64,
    cell: Cell,
    class: &Text,
) -> Result<(), Stop>
    requires framed { IsFramed setting.now scope.now heap.old values.old.items }
    ensures ends { EndsAs setting.now scope.now result heap.new values.new.items fuel.new
        (metered fuel.old (new_of (setting_of setting.now) class.now (cell_view cell)
        (state_of setting.now scope.now heap.old values.old.items))) }
    ensures framed { OnOk result (IsFramed setting.now scope.now heap.new values.new.items) }
    ensures stays { OnFault result ((heap.new ≡ heap.old) × (values.new ≡ values.old)) }
    ensures less { fuel.new ≤ fuel.old }
{
    let number = class_of_name(setting, class);
    let cells = zeros(setting.alloc, fields_of(setting, number))?;
    allocate(
        setting,
        scope,
        heap,
        values,
        fuel,
        cell,
        Head::Class(number),
        cells,
    )
}

/// The number of the class of a name, or 0.
pub fn class_of_name(setting: &Setting, name: &Text) -> u32
    ensures { result ≡ unwrap_or (class_number (source_of setting.now.checked.now) name.now) 0 }
{
    match setting.checked.table().class_of(name) {
        None => 0,
        Some(number) => number,
    }
}

/// The fields of a class.
pub(crate) fn fields_of<'a>(setting: &Setting<'a>, class: u32) -> &'a [Var]
    ensures fields { result.now ≡ class_fields (source_of setting.now.checked.now) class }
    ensures few { length result.now ≤ 64 }
{
    setting.checked.table().fields(class)
}

/// Makes an object of a class at a place that is nil.
pub fn new_object(
    setting: &Setting,
    scope: &Scope,
    heap: &mut Heap,
    values: &mut Vec<Value>,
    fuel: &mut u64,
    at: u32,
    class: &Ident,
    place: &Place,
) -> Result<(), Stop>
    requires framed { IsFramed setting.now scope.now heap.old values.old.items }
    ensures ends { EndsAs setting.now scope.now result heap.new values.new.items fuel.new
        (does_simply setting.now fuel.old (New at (AnObject class.now) (lvalue_of place.now))
        (state_of setting.now scope.now heap.old values.old.items)) }
    ensures framed { OnOk result (IsFramed setting.now scope.now heap.new values.new.items) }
    ensures stays { OnFault result ((heap.new ≡ heap.old) × (values.new ≡ values.old)) }
    ensures less { fuel.new ≤ fuel.old }
{
    let cell = locate(setting, scope, heap, values, fuel, place)?;
    place_apart(setting, scope, heap, values, fuel, place)?;
    make(setting, scope, heap, values, fuel, cell, &class.text)
}

/// What an array's head is, and what its elements begin with.
pub(crate) fn element_of(kind: Option<u32>) -> Value
    ensures { value_of result ≡ first_element kind }
{
    match kind {
        None => Value::Word(0),
        Some(_) => Value::Nil,
    }
}

pub(crate) fn head_of_array(kind: Option<u32>, length: u32) -> Head
    ensures { kept_head result ≡ array_head kind length }
{
    match kind {
        None => Head::Ints(length),
        Some(class) => Head::Objects { class, length },
    }
}

/// So many equal elements.
pub(crate) fn elements(alloc: Global, count: u32, value: Value) -> Result<Vec<Value>, NoMemory>
    ensures { IfOk result (λ cells. cells.items ≡ replicate count value) }
{
    Ok(vec![in alloc; value; count as usize]?)
}

/// An array of so many elements, if the heap has a block for it.
fn allocate_array(
    setting: &Setting,
    scope: &Scope,
    heap: &mut Heap,
    values: &mut Vec<Value>,
    fuel: &mut u64,
    cell: Cell,
    kind: Option<u32>,
    count: u32,
) -> Result<(), Stop>
    requires framed { IsFramed setting.now scope.now heap.old values.old.items }
    requires small { count < 2 ^ 31 }
    ensures ends { EndsAs setting.now scope.now result heap.new values.new.items fuel.new
        (metered fuel.old (allocated (setting_of setting.now) count (cell_view cell)
        (array_head kind count) (replicate count (first_element kind))
        (state_of setting.now scope.now heap.old values.old.items))) }
    ensures framed { OnOk result (IsFramed setting.now scope.now heap.new values.new.items) }
    ensures stays { OnFault result ((heap.new ≡ heap.old) × (values.new ≡ values.old)) }
    ensures same { fuel.new ≡ fuel.old }
{
    if heap.is_too_large(count) {
        return Err(Stop::Fault(HEAP_FULL));
    }
    let cells = elements(setting.alloc, count, element_of(kind))?;
    allocate(
        setting,
        scope,
        heap,
        values,
        fuel,
        cell,
        head_of_array(kind, count),
        cells,
    )
}

/// After the place and the length of a `new` of an array.
fn make_array(
    setting: &Setting,
    scope: &Scope,
    heap: &mut Heap,
    values: &mut Vec<Value>,
    fuel: &mut u64,
    cell: Cell,
    kind: Option<u32>,
    size: Value,
) -> Result<(), Stop>
    requires framed { IsFramed setting.now scope.now heap.old values.old.items }
    ensures ends { EndsAs setting.now scope.now result heap.new values.new.items fuel.new
        (metered fuel.old (made_array (setting_of setting.now) (cell_view cell) (array_head kind)
        (first_element kind) (value_of size)
        (state_of setting.now scope.now heap.old values.old.items))) }
    ensures framed { OnOk result (IsFramed setting.now scope.now heap.new values.new.items) }
    ensures stays { OnFault result ((heap.new ≡ heap.old) × (values.new ≡ values.old)) }
    ensures less { fuel.new ≤ fuel.old }
{
    let old = read_cell(setting, scope, heap, values, cell);
    let count = size.number();
    refuse(fuel, NOT_NIL, !old.is_nil())?;
    refuse(fuel, LENGTH, less(count, 1))?;
    fill_array(setting, scope, heap, values, fuel, cell, kind, count)
}

/// An array of so many elements, with its cost.
fn fill_array(
    setting: &Setting,
    scope: &Scope,
    heap: &mut Heap,
    values: &mut Vec<Value>,
    fuel: &mut u64,
    cell: Cell,
    kind: Option<u32>,
    count: u32,
) -> Result<(), Stop>
    requires framed { IsFramed setting.now scope.now heap.old values.old.items }
    requires small { count < 2 ^ 31 }
    ensures ends { EndsAs setting.now scope.now result heap.new values.new.items fuel.new
        (metered fuel.old (filled (setting_of setting.now) (cell_view cell) (array_head kind)
        (first_element kind) count (state_of setting.now scope.now heap.old values.old.items))) }
    ensures framed { OnOk result (IsFramed setting.now scope.now heap.new values.new.items) }
    ensures stays { OnFault result ((heap.new ≡ heap.old) × (values.new ≡ values.old)) }
    ensures less { fuel.new ≤ fuel.old }
{
    spend(fuel, setting.limits.heap as u64 + 1)?;
    allocate_array(setting, scope, heap, values, fuel, cell, kind, count)?;
    spend(fuel, count as u64)
}

/// `new` of an array: of words, or of references to objects of a class.
pub fn new_array(
    setting: &Setting,
    scope: &Scope,
    heap: &mut Heap,
    values: &mut Vec<Value>,
    fuel: &mut u64,
    kind: Option<u32>,
    place: &Place,
    size: &Expr,
) -> Result<(), Stop>
    requires framed { IsFramed setting.now scope.now heap.old values.old.items }
    ensures ends { EndsAs setting.now scope.now result heap.new values.new.items fuel.new
        (metered fuel.old (new_array_in (setting_of setting.now) (lvalue_of place.now)
        (expression_of size.now) (array_head kind) (first_element kind)
        (state_of setting.now scope.now heap.old values.old.items))) }
    ensures framed { OnOk result (IsFramed setting.now scope.now heap.new values.new.items) }
    ensures stays { OnFault result ((heap.new ≡ heap.old) × (values.new ≡ values.old)) }
    ensures less { fuel.new ≤ fuel.old }
{
    let cell = locate(setting, scope, heap, values, fuel, place)?;
    let value = evaluate(setting, scope, heap, values, fuel, size)?;
    make_array(setting, scope, heap, values, fuel, cell, kind, value)
}

/// The block of what a cell names goes back to the heap.
fn free(
    setting: &Setting,
    scope: &Scope,
    heap: &mut Heap,
    values: &mut Vec<Value>,
    cell: Cell,
    name: u32,
) -> Result<(), Lack>
    requires framed { IsFramed setting.now scope.now heap.old values.old.items }
    ensures freed { OnOk result (state_of setting.now scope.now heap.new values.new.items
        ≡ freed (setting_of setting.now) (cell_view cell) name
        (state_of setting.now scope.now heap.old values.old.items)) }
    ensures framed { OnOk result (IsFramed setting.now scope.now heap.new values.new.items) }
{
    heap.give(name)?;
    write_cell(setting, scope, heap, values, cell, Value::Nil);
    Ok(())
}

/// After the checks of a `delete` but the last: the object goes at this cost, if it is empty.
fn empty_out(
    setting: &Setting,
    scope: &Scope,
    heap: &mut Heap,
    values: &mut Vec<Value>,
    fuel: &mut u64,
    cell: Cell,
    name: u32,
    cells: u32,
) -> Result<(), Stop>
    requires framed { IsFramed setting.now scope.now heap.old values.old.items }
    ensures ends { EndsAs setting.now scope.now result heap.new values.new.items fuel.new
        (metered fuel.old (emptied (setting_of setting.now)
        ((setting_of setting.now).limits.heap + 1 + cells) (cell_view cell) name
        (state_of setting.now scope.now heap.old values.old.items))) }
    ensures framed { OnOk result (IsFramed setting.now scope.now heap.new values.new.items) }
    ensures stays { OnFault result ((heap.new ≡ heap.old) × (values.new ≡ values.old)) }
    ensures less { fuel.new ≤ fuel.old }
{
    spend(fuel, setting.limits.heap as u64 + 1 + cells as u64)?;
    refuse(fuel, NOT_EMPTY, !heap.is_empty(name))?;
    free(setting, scope, heap, values, cell, name)?;
    Ok(())
}

/// After the place and the check of a `delete` of an object.
fn drop_object(
    setting: &Setting,
    scope: &Scope,
    heap: &mut Heap,
    values: &mut Vec<Value>,
    fuel: &mut u64,
    cell: Cell,
    class: &Text,
) -> Result<(), Stop>
    requires framed { IsFramed setting.now scope.now heap.old values.old.items }
    ensures ends { EndsAs setting.now scope.now result heap.new values.new.items fuel.new
        (metered fuel.old (gone (setting_of setting.now) class.now (cell_view cell)
        (state_of setting.now scope.now heap.old values.old.items))) }
    ensures framed { OnOk result (IsFramed setting.now scope.now heap.new values.new.items) }
    ensures stays { OnFault result ((heap.new ≡ heap.old) × (values.new ≡ values.old)) }
    ensures less { fuel.new ≤ fuel.old }
{
    let value = read_cell(setting, scope, heap, values, cell);
    let name = value.number();
    let named = setting.checked.table().class_of(class);
    refuse(fuel, NIL, value.is_nil())?;
    refuse(fuel, CLASS_DIFFERS, !heap.is_of_class(name, named))?;
    refuse(fuel, COUNT, heap.count_of(name) != 1)?;
    empty_out(setting, scope, heap, values, fuel, cell, name, 0)
}

/// `delete` of an object.
pub fn delete_object(
    setting: &Setting,
    scope: &Scope,
    heap: &mut Heap,
    values: &mut Vec<Value>,
    fuel: &mut u64,
    at: u32,
    class: &Ident,
    place: &Place,
) -> Result<(), Stop>
    requires framed { IsFramed setting.now scope.now heap.old values.old.items }
    ensures ends { EndsAs setting.now scope.now result heap.new values.new.items fuel.new
        (does_simply setting.now fuel.old (Delete at (AnObject class.now) (lvalue_of place.now))
        (state_of setting.now scope.now heap.old values.old.items)) }
    ensures framed { OnOk result (IsFramed setting.now scope.now heap.new values.new.items) }
    ensures stays { OnFault result ((heap.new ≡ heap.old) × (values.new ≡ values.old)) }
    ensures less { fuel.new ≤ fuel.old }
{
    let cell = locate(setting, scope, heap, values, fuel, place)?;
    place_apart(setting, scope, heap, values, fuel, place)?;
    drop_object(setting, scope, heap, values, fuel, cell, &class.text)
}

/// After the place and the length of a `delete` of an array.
fn drop_array(
    setting: &Setting,
    scope: &Scope,
    heap: &mut Heap,
    values: &mut Vec<Value>,
    fuel: &mut u64,
    cell: Cell,
    size: Value,
) -> Result<(), Stop>
    requires framed { IsFramed setting.now scope.now heap.old values.old.items }
    ensures ends { EndsAs setting.now scope.now result heap.new values.new.items fuel.new
        (metered fuel.old (gone_array (setting_of setting.now) (cell_view cell) (value_of size)
        (state_of setting.now scope.now heap.old values.old.items))) }
    ensures framed { OnOk result (IsFramed setting.now scope.now heap.new values.new.items) }
    ensures stays { OnFault result ((heap.new ≡ heap.old) × (values.new ≡ values.old)) }
    ensures less { fuel.new ≤ fuel.old }
{
    let value = read_cell(setting, scope, heap, values, cell);
    let name = value.number();
    let length = heap.length_of(name);
    refuse(fuel, NIL, value.is_nil())?;
    refuse(fuel, LENGTH_DIFFERS, length != size.number() as usize)?;
    refuse(fuel, COUNT, heap.count_of(name) != 1)?;
    empty_out(
        setting,
        scope,
        heap,
        values,
        fuel,
        cell,
        name,
        size.number(),
    )
}

/// Unmakes the array at a place, whose length must be the size.
pub fn delete_array(
    setting: &Setting,
    scope: &Scope,
    heap: &mut Heap,
    values: &mut Vec<Value>,
    fuel: &mut u64,
    place: &Place,
    size: &Expr,
) -> Result<(), Stop>
    requires framed { IsFramed setting.now scope.now heap.old values.old.items }
    ensures ends { EndsAs setting.now scope.now result heap.new values.new.items fuel.new
        (metered fuel.old (delete_array_in (setting_of setting.now) (lvalue_of place.now)
        (expression_of size.now) (state_of setting.now scope.now heap.old values.old.items))) }
    ensures framed { OnOk result (IsFramed setting.now scope.now heap.new values.new.items) }
    ensures stays { OnFault result ((heap.new ≡ heap.old) × (values.new ≡ values.old)) }
    ensures less { fuel.new ≤ fuel.old }
{
    let cell = locate(setting, scope, heap, values, fuel, place)?;
    let value = evaluate(setting, scope, heap, values, fuel, size)?;
    drop_array(setting, scope, heap, values, fuel, cell, value)
}

/// Makes an object or an array, as the statement says.
pub fn new_made(
    setting: &Setting,
    scope: &Scope,
    heap: &mut Heap,
    values: &mut Vec<Value>,
    fuel: &mut u64,
    at: u32,
    made: &Made,
    place: &Place,
) -> Result<(), Stop>
    requires framed { IsFramed setting.now scope.now heap.old values.old.items }
    ensures ends { EndsAs setting.now scope.now result heap.new values.new.items fuel.new
        (does_simply setting.now fuel.old (New at (creation_of made.now) (lvalue_of place.now))
        (state_of setting.now scope.now heap.old values.old.items)) }
    ensures framed { OnOk result (IsFramed setting.now scope.now heap.new values.new.items) }
    ensures stays { OnFault result ((heap.new ≡ heap.old) × (values.new ≡ values.old)) }
    ensures less { fuel.new ≤ fuel.old }
{
    match made {
        Made::Object(class) => new_object(setting, scope, heap, values, fuel, at, class, place),
        Made::Ints(size) => new_array(setting, scope, heap, values, fuel, None, place, size),
        Made::Objects(class, size) => {
            let number = class_of_name(setting, &class.text);
            new_array(
                setting,
                scope,
                heap,
                values,
                fuel,
                Some(number),
                place,
                size,
            )
        }
    }
}

/// Unmakes an object or an array, as the statement says.
pub fn delete_made(
    setting: &Setting,
    scope: &Scope,
    heap: &mut Heap,
    values: &mut Vec<Value>,
    fuel: &mut u64,
    at: u32,
    made: &Made,
    place: &Place,
) -> Result<(), Stop>
    requires framed { IsFramed setting.now scope.now heap.old values.old.items }
    ensures ends { EndsAs setting.now scope.now result heap.new values.new.items fuel.new
        (does_simply setting.now fuel.old (Delete at (creation_of made.now) (lvalue_of place.now))
        (state_of setting.now scope.now heap.old values.old.items)) }
    ensures framed { OnOk result (IsFramed setting.now scope.now heap.new values.new.items) }
    ensures stays { OnFault result ((heap.new ≡ heap.old) × (values.new ≡ values.old)) }
    ensures less { fuel.new ≤ fuel.old }
{
    match made {
        Made::Object(class) => delete_object(setting, scope, heap, values, fuel, at, class, place),
        Made::Ints(size) => delete_array(setting, scope, heap, values, fuel, place, size),
        Made::Objects(_, size) => delete_array(setting, scope, heap, values, fuel, place, size),
    }
}
