// Statements that hold no others, except for calls and the heap.
ghost use Rattle.std.specs.Prelude.{◌≡◌, ◌≤◌, OnOk, IfErr, not, if◌then◌else◌};
ghost use Rattle.class_table.specs.rpp_tree.Tree.{Update, Swap, Whole};
ghost use Rattle.class_table.specs.rpp_tree.Views.{expression_of, lvalue_of};
ghost use Rattle.source_store.specs.inverse_rules.Inverse.{inverse_operator};
ghost use Rattle.source_store.specs.roopl_semantics.Operators.{updated};
ghost use Rattle.source_steps.specs.Ends.{EndsAs, does_simply};
ghost use Rattle.source_steps.specs.Metered.{IsOwn, OnFault};
ghost use Rattle.source_steps.specs.StateView.{IsFramed, state_of, setting_of};

use crate::apart::{swap_apart, update_apart};
use crate::cell::{cell_and_value, read_cell, write_cell};
use crate::expressions::Setting;
use crate::scope::Scope;
use crate::steps::{evaluate, locate, operand};
use crate::stop::Stop;
use class_table::tree::{Ident, Place, UpdateOp};
use class_table::{Expr, wrap_add, wrap_sub};
use source_store::{Heap, Value};

fn update_word(op: UpdateOp, a: u32, b: u32) -> u32
    ensures { result ≡ updated op a b }
{
    match op {
        UpdateOp::Add => wrap_add(a, b),
        UpdateOp::Sub => wrap_sub(a, b),
        UpdateOp::Xor => a ^ b,
    }
}

/// An update of a variable or a field.
#[inline(always)]
fn update_variable(
    setting: &Setting,
    scope: &Scope,
    heap: &mut Heap,
    values: &mut Vec<Value>,
    fuel: &mut u64,
    at: u32,
    op: UpdateOp,
    name: &Ident,
    e: &Expr,
) -> Result<(), Stop>
    requires { IsFramed setting.now scope.now heap.old values.old.items }
    ensures ends { EndsAs setting.now scope.now result heap.new values.new.items fuel.new
        (does_simply setting.now fuel.old (Update at op (Whole name.now) (expression_of e.now))
        (state_of setting.now scope.now heap.old values.old.items)) }
    ensures framed { OnOk result (IsFramed setting.now scope.now heap.new values.new.items) }
    ensures stays { OnFault result ((heap.new ≡ heap.old) × (values.new ≡ values.old)) }
    ensures less { fuel.new ≤ fuel.old }
    ensures own { IfErr result IsOwn }
{
    let (cell, old) = cell_and_value(setting, scope, heap, values, &name.text);
    let value = operand(setting, scope, heap, values, fuel, e)?;
    let word = update_word(op, old.number(), value.number());
    write_cell(setting, scope, heap, values, cell, Value::Word(word));
    Ok(())
}

/// An update of an element.
#[inline(never)]
fn update_element(
    setting: &Setting,
    scope: &Scope,
    heap: &mut Heap,
    values: &mut Vec<Value>,
    fuel: &mut u64,
    at: u32,
    op: UpdateOp,
    place: &Place,
    e: &Expr,
) -> Result<(), Stop>
    requires { IsFramed setting.now scope.now heap.old values.old.items }
    ensures ends { EndsAs setting.now scope.now result heap.new values.new.items fuel.new
        (does_simply setting.now fuel.old (Update at op (lvalue_of place.now) (expression_of e.now))
        (state_of setting.now scope.now heap.old values.old.items)) }
    ensures framed { OnOk result (IsFramed setting.now scope.now heap.new values.new.items) }
    ensures stays { OnFault result ((heap.new ≡ heap.old) × (values.new ≡ values.old)) }
    ensures less { fuel.new ≤ fuel.old }
    ensures own { IfErr result IsOwn }
{
    let cell = locate(setting, scope, heap, values, fuel, place)?;
    let value = evaluate(setting, scope, heap, values, fuel, e)?;
    update_apart(setting, scope, heap, values, fuel, place, e)?;
    let old = read_cell(setting, scope, heap, values, cell);
    let word = update_word(op, old.number(), value.number());
    write_cell(setting, scope, heap, values, cell, Value::Word(word));
    Ok(())
}

/// Adds a value to a place, subtracts it, or takes the exclusive or.
pub fn update(
    setting: &Setting,
    scope: &Scope,
    heap: &mut Heap,
    values: &mut Vec<Value>,
    fuel: &mut u64,
    at: u32,
    op: UpdateOp,
    place: &Place,
    e: &Expr,
) -> Result<(), Stop>
    requires { IsFramed setting.now scope.now heap.old values.old.items }
    ensures ends { EndsAs setting.now scope.now result heap.new values.new.items fuel.new
        (does_simply setting.now fuel.old (Update at op (lvalue_of place.now) (expression_of e.now))
        (state_of setting.now scope.now heap.old values.old.items)) }
    ensures framed { OnOk result (IsFramed setting.now scope.now heap.new values.new.items) }
    ensures stays { OnFault result ((heap.new ≡ heap.old) × (values.new ≡ values.old)) }
    ensures less { fuel.new ≤ fuel.old }
    ensures own { IfErr result IsOwn }
{
    match &place.index {
        None => update_variable(setting, scope, heap, values, fuel, at, op, &place.name, e),
        Some(_index) => update_element(setting, scope, heap, values, fuel, at, op, place, e),
    }
}

/// Exchanges the values of two places.
pub fn swap(
    setting: &Setting,
    scope: &Scope,
    heap: &mut Heap,
    values: &mut Vec<Value>,
    fuel: &mut u64,
    at: u32,
    left: &Place,
    right: &Place,
) -> Result<(), Stop>
    requires { IsFramed setting.now scope.now heap.old values.old.items }
    ensures ends { EndsAs setting.now scope.now result heap.new values.new.items fuel.new
        (does_simply setting.now fuel.old (Swap at (lvalue_of left.now) (lvalue_of right.now))
        (state_of setting.now scope.now heap.old values.old.items)) }
    ensures framed { OnOk result (IsFramed setting.now scope.now heap.new values.new.items) }
    ensures stays { OnFault result ((heap.new ≡ heap.old) × (values.new ≡ values.old)) }
    ensures less { fuel.new ≤ fuel.old }
    ensures own { IfErr result IsOwn }
{
    let a = locate(setting, scope, heap, values, fuel, left)?;
    let b = locate(setting, scope, heap, values, fuel, right)?;
    swap_apart(setting, scope, heap, values, fuel, left, right)?;
    let first = read_cell(setting, scope, heap, values, a);
    let second = read_cell(setting, scope, heap, values, b);
    write_cell(setting, scope, heap, values, a, second);
    write_cell(setting, scope, heap, values, b, first);
    Ok(())
}

/// The operator of the update that undoes one.
pub fn undone(op: UpdateOp) -> UpdateOp
    ensures { result ≡ inverse_operator op }
{
    match op {
        UpdateOp::Add => UpdateOp::Sub,
        UpdateOp::Sub => UpdateOp::Add,
        UpdateOp::Xor => UpdateOp::Xor,
    }
}

/// The direction of a call, as it stands or undone.
pub fn turned_call(back: bool, call_back: bool) -> bool
    ensures { result ≡ (if back then not call_back else call_back) }
{
    if back { !call_back } else { call_back }
}
