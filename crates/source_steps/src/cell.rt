// Cells: variables of the frame, and fields and elements.
ghost use Rattle.std.specs.Prelude.{◌≡◌, length, slice_get, slice_set};
ghost use Rattle.std.specs.Option.{unwrap_or};
ghost use Rattle.source_store.specs.class_rules.Classes.{class_fields};
ghost use Rattle.source_store.specs.roopl_semantics.Store.{Nil, class_of_head, object_at};
ghost use Rattle.source_store.specs.roopl_semantics.Value.{read, written, cell_named, value_at, variable_value};
ghost use Rattle.source_store.specs.class_rules.Members.{field_of};
ghost use Rattle.source_store.specs.class_rules.Table.{field_in as field_in_table};
ghost use Rattle.source_store.specs.ValueView.{value_of, values_of, object_of};
ghost use Rattle.source_steps.specs.CellView.{cell_view};
ghost use Rattle.source_steps.specs.StateView.{IsFramed, names_of, frame_of, state_of, setting_of};

use crate::expressions::Setting;
use crate::scope::{Scope, slot, var_slot};
use class_table::{ClassTable, Text};
use source_store::{Heap, Object, Value};

/// What can be read and changed: a variable of the frame, or a field or element.
#[derive(Clone, Copy, Debug, PartialEq, Eq)]
pub enum Cell {
    /// The variable at this place, the innermost at 0.
    Slot(usize),
    /// A field or element of an object or array.
    Part { name: u32, index: usize },
}

/// Another value at a place, if there is one.
#[tactic(auto, using(std::proofs::lemmas::List::set_past))]
pub fn put_value(values: &mut Vec<Value>, index: usize, value: Value)
    ensures { values.new.items ≡ slice_set values.old.items index value }
{
    if index < values.len() {
        values[index] = value;
    }
}

/// The value at a place, or nil past the end.
fn cell_in(cells: &[Value], index: usize) -> Value
    ensures { value_of result ≡ unwrap_or (slice_get (values_of cells.now) index) Nil }
{
    match cells.get(index) {
        None => Value::Nil,
        Some(value) => *value,
    }
}

/// The value of a variable.
fn value_of_slot(scope: &Scope, values: &[Value], index: usize) -> Value
    requires { length values.now ≡ length (names_of scope.now) }
    ensures { value_of result ≡ value_at (frame_of scope.now values.now) index }
{
    cell_in(values, index)
}

/// The value of a variable, a field or an element.
pub fn read_cell(
    setting: &Setting,
    scope: &Scope,
    heap: &Heap,
    values: &[Value],
    cell: Cell,
) -> Value
    requires { IsFramed setting.now scope.now heap.now values.now }
    ensures { value_of result ≡ read (state_of setting.now scope.now heap.now values.now) (cell_view cell) }
{
    match cell {
        Cell::Slot(index) => value_of_slot(scope, values, index),
        Cell::Part { name, index } => heap.part(name, index),
    }
}

/// If a class has no more fields than this, each is compared: that takes less time than a map.
const FEW_FIELDS: usize = 8;

/// The number of the field of this name.
#[inline(always)]
fn field_in(table: &ClassTable, class: u32, name: &Text) -> Option<usize>
    ensures { result ≡ field_in_table table.now class name.now }
{
    let fields = table.fields(class);
    if fields.len() <= FEW_FIELDS {
        return var_slot(fields, name);
    }
    match table.field_of(class, name) {
        None => None,
        Some(number) => Some(number as usize),
    }
}

/// The number of a field of the current object.
#[inline(never)]
fn field_number(setting: &Setting, heap: &Heap, name: &Text) -> usize
    ensures { result ≡ unwrap_or
        (field_of (class_fields (setting_of setting.now).program
        (class_of_head (object_at (heap.now.store) setting.now.object).head)) name.now) 0 }
{
    let class = heap.class_of(setting.object);
    match field_in(setting.checked.table(), class, name) {
        None => 0,
        Some(number) => number,
    }
}

/// The number of the field of this name of an object, or 0.
#[inline(always)]
fn number_in(setting: &Setting, object: &Object, name: &Text) -> usize
    ensures { result ≡ unwrap_or
        (field_of (class_fields (setting_of setting.now).program
        (class_of_head (object_of object.now).head)) name.now) 0 }
{
    let class = object.head.class();
    match field_in(setting.checked.table(), class, name) {
        None => 0,
        Some(number) => number,
    }
}

/// The number of a field of the current object, with its value.
#[inline(always)]
fn own_field(setting: &Setting, heap: &Heap, name: &Text) -> (usize, Value)
    ensures number { result.0 ≡ unwrap_or
        (field_of (class_fields (setting_of setting.now).program
        (class_of_head (object_at (heap.now.store) setting.now.object).head)) name.now) 0 }
    ensures value { value_of result.1 ≡ unwrap_or
        (slice_get (object_at (heap.now.store) setting.now.object).cells result.0) Nil }
{
    match heap.object(setting.object) {
        None => (field_number(setting, heap, name), Value::Nil),
        Some(object) => {
            let number = number_in(setting, object, name);
            (number, cell_in(&object.cells, number))
        }
    }
}

/// What a name means, with its value.
#[inline(always)]
pub fn cell_and_value(
    setting: &Setting,
    scope: &Scope,
    heap: &Heap,
    values: &[Value],
    name: &Text,
) -> (Cell, Value)
    requires { IsFramed setting.now scope.now heap.now values.now }
    ensures cell { cell_view result.0 ≡ cell_named (setting_of setting.now).program
        (state_of setting.now scope.now heap.now values.now) name.now }
    ensures value { value_of result.1 ≡ read
        (state_of setting.now scope.now heap.now values.now) (cell_view result.0) }
{
    match slot(scope, values, name) {
        Some(index) => (Cell::Slot(index), value_of_slot(scope, values, index)),
        None => {
            let (index, value) = own_field(setting, heap, name);
            (
                Cell::Part {
                    name: setting.object,
                    index,
                },
                value,
            )
        }
    }
}

/// What a name means: the innermost variable of that name, else a field.
#[inline(always)]
pub fn cell_of_name(
    setting: &Setting,
    scope: &Scope,
    heap: &Heap,
    values: &[Value],
    name: &Text,
) -> Cell
    requires { IsFramed setting.now scope.now heap.now values.now }
    ensures { cell_view result ≡ cell_named (setting_of setting.now).program
        (state_of setting.now scope.now heap.now values.now) name.now }
{
    match slot(scope, values, name) {
        Some(index) => Cell::Slot(index),
        None => Cell::Part {
            name: setting.object,
            index: field_number(setting, heap, name),
        },
    }
}

/// Another value in a cell.
pub fn write_cell(
    setting: &Setting,
    scope: &Scope,
    heap: &mut Heap,
    values: &mut Vec<Value>,
    cell: Cell,
    value: Value,
)
    requires { IsFramed setting.now scope.now heap.old values.old.items }
    ensures written { state_of setting.now scope.now heap.new values.new.items
        ≡ written (state_of setting.now scope.now heap.old values.old.items) (cell_view cell)
        (value_of value) }
    ensures framed { IsFramed setting.now scope.now heap.new values.new.items }
{
    match cell {
        Cell::Slot(index) => put_value(values, index, value),
        Cell::Part { name, index } => heap.set_part(name, index, value),
    }
}

/// The value of what a name means.
#[inline(never)]
pub fn variable(
    setting: &Setting,
    scope: &Scope,
    heap: &Heap,
    values: &[Value],
    name: &Text,
) -> Value
    requires { IsFramed setting.now scope.now heap.now values.now }
    ensures { value_of result ≡ variable_value (setting_of setting.now).program
        (state_of setting.now scope.now heap.now values.now) name.now }
{
    let (_cell, value) = cell_and_value(setting, scope, heap, values, name);
    value
}
