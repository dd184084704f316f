// The steps that statements are made of, each with its cost.
ghost use Rattle.std.specs.Prelude.{◌≡◌, ◌+◌, ◌<◌, ◌≤◌, IfOk, OnOk, IfErr};
ghost use Rattle.class_table.specs.rpp_tree.Views.{expression_of, lvalue_of};
ghost use Rattle.source_store.specs.roopl_semantics.Execution.{holds};
ghost use Rattle.source_store.specs.roopl_semantics.Value.{evaluated as evaluated_in, found as found_in};
ghost use Rattle.source_store.specs.roopl_semantics.Run.{spend as spending, fault_if};
ghost use Rattle.source_store.specs.ValueView.{value_of};
ghost use Rattle.source_steps.specs.CellView.{cell_view};
ghost use Rattle.source_steps.specs.Metered.{MeteredGives, metered, IsOwn};
ghost use Rattle.source_steps.specs.StateView.{IsFramed, state_of, setting_of};

use crate::cell::{Cell, cell_of_name};
use crate::expressions::{Setting, combine, find, leaf, less_by, one_less, pay, pay_place, value};
use crate::scope::Scope;
use crate::stop::Stop;
use class_table::Expr;
use class_table::tree::Place;
use source_store::{Heap, Value};

/// Takes the cost of a step from the fuel, or stops where the fuel is less.
pub fn spend(fuel: &mut u64, cost: u64) -> Result<(), Stop>
    ensures gives { MeteredGives (λ u. tt) result fuel.new (metered fuel.old (spending cost)) }
    ensures less { fuel.new ≤ fuel.old }
    ensures paid { OnOk result (fuel.new + cost ≡ fuel.old) }
    ensures own { IfErr result IsOwn }
{
    if *fuel < cost {
        return Err(Stop::More);
    }
    *fuel -= cost;
    Ok(())
}

/// Stops with the fault if the test holds.
pub fn refuse(fuel: &mut u64, code: u32, test: bool) -> Result<(), Stop>
    ensures gives { MeteredGives (λ u. tt) result fuel.new (metered fuel.old (fault_if code test)) }
    ensures same { fuel.new ≡ fuel.old }
    ensures own { IfErr result IsOwn }
{
    if test {
        return Err(Stop::Fault(code));
    }
    Ok(())
}

/// The value of an expression of any form, after the cost of its nodes.
fn evaluate_tree(
    setting: &Setting,
    scope: &Scope,
    heap: &Heap,
    values: &Vec<Value>,
    fuel: &mut u64,
    e: &Expr,
) -> Result<Value, Stop>
    requires { IsFramed setting.now scope.now heap.now values.now.items }
    ensures gives { MeteredGives value_of result fuel.new
        (metered fuel.old (evaluated_in (setting_of setting.now).program (expression_of e.now)
        (state_of setting.now scope.now heap.now values.now.items))) }
    ensures less { fuel.new ≤ fuel.old }
    ensures some { IfOk result (λ value. fuel.new < fuel.old) }
    ensures own { IfErr result IsOwn }
{
    match pay(*fuel, e) {
        None => Err(Stop::More),
        Some(left) => {
            *fuel = left;
            match value(setting, scope, heap, values, e) {
                Ok(value) => Ok(value),
                Err(fault) => Err(Stop::Fault(fault)),
            }
        }
    }
}

/// The same of one that is no literal or variable. An operator on two of these is done at once.
fn evaluate_whole(
    setting: &Setting,
    scope: &Scope,
    heap: &Heap,
    values: &Vec<Value>,
    fuel: &mut u64,
    e: &Expr,
) -> Result<Value, Stop>
    requires { IsFramed setting.now scope.now heap.now values.now.items }
    ensures gives { MeteredGives value_of result fuel.new
        (metered fuel.old (evaluated_in (setting_of setting.now).program (expression_of e.now)
        (state_of setting.now scope.now heap.now values.now.items))) }
    ensures less { fuel.new ≤ fuel.old }
    ensures some { IfOk result (λ value. fuel.new < fuel.old) }
    ensures own { IfErr result IsOwn }
{
    match e {
        Expr::Binary {
            op,
            left,
            right,
            ..
        } => match leaf(setting, scope, heap, values, left) {
            None => evaluate_tree(setting, scope, heap, values, fuel, e),
            Some(first) => match leaf(setting, scope, heap, values, right) {
                None => evaluate_tree(setting, scope, heap, values, fuel, e),
                Some(second) => match less_by(*fuel, 3) {
                    None => Err(Stop::More),
                    Some(rest) => {
                        *fuel = rest;
                        Ok(combine(*op, first, second))
                    }
                },
            },
        },
        Expr::Number { .. } => evaluate_tree(setting, scope, heap, values, fuel, e),
        Expr::Nil { .. } => evaluate_tree(setting, scope, heap, values, fuel, e),
        Expr::Read(_place) => evaluate_tree(setting, scope, heap, values, fuel, e),
    }
}

/// The value of an expression, after the cost of its nodes.
#[inline(never)]
pub fn evaluate(
    setting: &Setting,
    scope: &Scope,
    heap: &Heap,
    values: &Vec<Value>,
    fuel: &mut u64,
    e: &Expr,
) -> Result<Value, Stop>
    requires { IsFramed setting.now scope.now heap.now values.now.items }
    ensures gives { MeteredGives value_of result fuel.new
        (metered fuel.old (evaluated_in (setting_of setting.now).program (expression_of e.now)
        (state_of setting.now scope.now heap.now values.now.items))) }
    ensures less { fuel.new ≤ fuel.old }
    ensures some { IfOk result (λ value. fuel.new < fuel.old) }
    ensures own { IfErr result IsOwn }
{
    match leaf(setting, scope, heap, values, e) {
        None => evaluate_whole(setting, scope, heap, values, fuel, e),
        Some(value) => match one_less(*fuel) {
            None => Err(Stop::More),
            Some(left) => {
                *fuel = left;
                Ok(value)
            }
        },
    }
}

/// The cell of an element, after the cost of its index.
fn locate_element(
    setting: &Setting,
    scope: &Scope,
    heap: &Heap,
    values: &Vec<Value>,
    fuel: &mut u64,
    place: &Place,
) -> Result<Cell, Stop>
    requires { IsFramed setting.now scope.now heap.now values.now.items }
    ensures gives { MeteredGives cell_view result fuel.new
        (metered fuel.old (found_in (setting_of setting.now).program (lvalue_of place.now)
        (state_of setting.now scope.now heap.now values.now.items))) }
    ensures less { fuel.new ≤ fuel.old }
    ensures own { IfErr result IsOwn }
{
    match pay_place(*fuel, place) {
        None => Err(Stop::More),
        Some(left) => {
            *fuel = left;
            match find(setting, scope, heap, values, place) {
                Ok(cell) => Ok(cell),
                Err(fault) => Err(Stop::Fault(fault)),
            }
        }
    }
}

/// The value of an expression, after the cost of its nodes. A literal needs no call.
#[inline(always)]
pub fn operand(
    setting: &Setting,
    scope: &Scope,
    heap: &Heap,
    values: &Vec<Value>,
    fuel: &mut u64,
    e: &Expr,
) -> Result<Value, Stop>
    requires { IsFramed setting.now scope.now heap.now values.now.items }
    ensures gives { MeteredGives value_of result fuel.new
        (metered fuel.old (evaluated_in (setting_of setting.now).program (expression_of e.now)
        (state_of setting.now scope.now heap.now values.now.items))) }
    ensures less { fuel.new ≤ fuel.old }
    ensures some { IfOk result (λ value. fuel.new < fuel.old) }
    ensures own { IfErr result IsOwn }
{
    match e {
        Expr::Number { word, .. } => match one_less(*fuel) {
            None => Err(Stop::More),
            Some(left) => {
                *fuel = left;
                Ok(Value::Word(*word))
            }
        },
        Expr::Nil { .. } => evaluate(setting, scope, heap, values, fuel, e),
        Expr::Read(_place) => evaluate(setting, scope, heap, values, fuel, e),
        Expr::Binary { .. } => evaluate(setting, scope, heap, values, fuel, e),
    }
}

/// The cell of a place, after the cost of its index.
pub fn locate(
    setting: &Setting,
    scope: &Scope,
    heap: &Heap,
    values: &Vec<Value>,
    fuel: &mut u64,
    place: &Place,
) -> Result<Cell, Stop>
    requires { IsFramed setting.now scope.now heap.now values.now.items }
    ensures gives { MeteredGives cell_view result fuel.new
        (metered fuel.old (found_in (setting_of setting.now).program (lvalue_of place.now)
        (state_of setting.now scope.now heap.now values.now.items))) }
    ensures less { fuel.new ≤ fuel.old }
    ensures own { IfErr result IsOwn }
{
    match &place.index {
        None => Ok(cell_of_name(setting, scope, heap, values, &place.name.text)),
        Some(_index) => locate_element(setting, scope, heap, values, fuel, place),
    }
}

/// Whether a test's value is true.
pub fn is_true(value: Value) -> bool
    ensures { result ≡ holds (value_of value) }
{
    value.number() != 0
}
