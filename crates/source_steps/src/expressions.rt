// The values of expressions and places.
ghost use Rattle.std.specs.Prelude.{◌≡◌, ◌<◌, ◌≤◌, Ok, IfSome, true};
ghost use Rattle.class_table.specs.rpp_tree.Tree.{nodes, index_nodes};
ghost use Rattle.class_table.specs.rpp_tree.Views.{expression_of, lvalue_of};
ghost use Rattle.source_store.specs.roopl_semantics.Operators.{truth_word, operated};
ghost use Rattle.source_store.specs.roopl_semantics.Store.{Word, number_of};
ghost use Rattle.source_store.specs.roopl_semantics.Value.{element_cell, element_of, value as value_in, cell_of as place_in, combined};
ghost use Rattle.source_store.specs.ValueView.{value_of};
ghost use Rattle.source_steps.specs.CellView.{cell_view};
ghost use Rattle.source_steps.specs.Metered.{left_of};
ghost use Rattle.source_steps.specs.StateView.{IsFramed, element_in, state_of, setting_of, seen_result};

use crate::cell::{Cell, cell_of_name, read_cell, variable};
use crate::scope::Scope;
use class_table::tree::{BinOp, Place};
use class_table::{Checked, Expr, Limits, less, wrap_add, wrap_sub};
use source_store::faults::{INDEX, NIL};
use source_store::{Heap, Value};
use std::alloc::Global;

/// The setting of an active method: the program and the limits, its object, and how many calls are
/// active.
#[derive(Clone, Copy)]
pub struct Setting<'a> {
    pub alloc: Global,
    pub checked: &'a Checked,
    pub limits: Limits,
    pub object: u32,
    pub depth: u32,
}

/// Fuel after a cost, if there is enough.
pub fn less_by(fuel: u64, cost: u64) -> Option<u64>
    requires { 0 < cost }
    ensures left { result ≡ left_of fuel cost }
    ensures less { IfSome result (λ left. left < fuel) }
{
    if fuel < cost { None } else { Some(fuel - cost) }
}

/// Fuel after one more cost, if there is enough.
pub fn one_less(fuel: u64) -> Option<u64>
    ensures left { result ≡ left_of fuel 1 }
    ensures less { IfSome result (λ left. left < fuel) }
{
    if fuel == 0 { None } else { Some(fuel - 1) }
}

/// Whether an expression is a literal or a variable, which has one node.
#[inline(always)]
fn is_leaf(e: &Expr) -> bool
    ensures { result ≡ true → nodes (expression_of e.now) ≡ 1 }
{
    match e {
        Expr::Number { .. } => true,
        Expr::Nil { .. } => true,
        Expr::Read(place) => place.index.is_none(),
        Expr::Binary { .. } => false,
    }
}

/// Fuel after the nodes of an expression.
#[cycle(pay)]
pub fn pay(fuel: u64, e: &Expr) -> Option<u64>
    ensures left { result ≡ left_of fuel (nodes (expression_of e.now)) }
    ensures less { IfSome result (λ left. left < fuel) }
{
    match e {
        Expr::Number { .. } => one_less(fuel),
        Expr::Nil { .. } => one_less(fuel),
        Expr::Read(place) => match one_less(fuel) {
            None => None,
            Some(left) => pay_place(left, place),
        },
        Expr::Binary { left, right, .. } => {
            if is_leaf(left) && is_leaf(right) {
                return less_by(fuel, 3);
            }
            match one_less(fuel) {
                None => None,
                Some(fuel) => match pay(fuel, left) {
                    None => None,
                    Some(fuel) => pay(fuel, right),
                },
            }
        }
    }
}

/// Fuel after the nodes of a place's index.
#[cycle(pay)]
pub fn pay_place(fuel: u64, place: &Place) -> Option<u64>
    ensures left { result ≡ left_of fuel (index_nodes (lvalue_of place.now)) }
    ensures less { IfSome result (λ left. left ≤ fuel) }
{
    match &place.index {
        None => Some(fuel),
        Some(index) => pay(fuel, index),
    }
}

fn truth(holds: bool) -> u32
    ensures { result ≡ truth_word holds }
{
    if holds { 1 } else { 0 }
}

/// An operator on two words.
fn word_of(op: BinOp, a: u32, b: u32) -> u32
    ensures { result ≡ operated op a b }
{
    match op {
        BinOp::Add => wrap_add(a, b),
        BinOp::Sub => wrap_sub(a, b),
        BinOp::Xor => a ^ b,
        BinOp::And => a & b,
        BinOp::Or => a | b,
        BinOp::AndAlso => truth(a != 0 && b != 0),
        BinOp::OrElse => truth(a != 0 || b != 0),
        BinOp::Less => truth(less(a, b)),
        BinOp::Greater => truth(less(b, a)),
        BinOp::AtMost => truth(!less(b, a)),
        BinOp::AtLeast => truth(!less(a, b)),
        BinOp::Equal => truth(a == b),
        BinOp::NotEqual => truth(a != b),
        BinOp::Mul | BinOp::Div | BinOp::Rem => 0,
    }
}

/// An operator on two values.
pub fn combine(op: BinOp, left: Value, right: Value) -> Value
    ensures { value_of result
        ≡ Word (operated op (number_of (value_of left)) (number_of (value_of right))) }
{
    Value::Word(word_of(op, left.number(), right.number()))
}

/// The element of an array at an index.
fn element(heap: &Heap, array: Value, index: u32) -> Result<Cell, u32>
    ensures { seen_result cell_view result ≡ element_in (heap.now.store) (value_of array) index }
{
    match array {
        Value::Name(name) => {
            let length = heap.length_of(name);
            if (index as usize) < length {
                Ok(Cell::Part {
                    name,
                    index: index as usize,
                })
            } else {
                Err(INDEX)
            }
        }
        Value::Nil => Err(NIL),
        Value::Word(_) => Err(NIL),
    }
}

/// The value of a literal or a variable; nothing of another expression.
#[inline(always)]
pub fn leaf(
    setting: &Setting,
    scope: &Scope,
    heap: &Heap,
    values: &[Value],
    e: &Expr,
) -> Option<Value>
    requires { IsFramed setting.now scope.now heap.now values.now }
    ensures one { IfSome result (λ _. nodes (expression_of e.now) ≡ 1) }
    ensures value { IfSome result (λ found. Ok (value_of found)
        ≡ value_in (setting_of setting.now).program
        (state_of setting.now scope.now heap.now values.now) (expression_of e.now)) }
{
    match e {
        Expr::Number { word, .. } => Some(Value::Word(*word)),
        Expr::Nil { .. } => Some(Value::Nil),
        Expr::Read(place) => match &place.index {
            None => Some(variable(setting, scope, heap, values, &place.name.text)),
            Some(_index) => None,
        },
        Expr::Binary { .. } => None,
    }
}

/// An operator on a value and the value of the second operand, or the fault of that.
fn combined_with(op: BinOp, first: Value, second: Result<Value, u32>) -> Result<Value, u32>
    ensures { seen_result value_of result
        ≡ combined op (Ok (value_of first)) (seen_result value_of second) }
{
    match second {
        Ok(second) => Ok(combine(op, first, second)),
        Err(fault) => Err(fault),
    }
}

/// The value of an expression, or the fault that its evaluation meets first.
#[cycle(values)]
pub fn value(
    setting: &Setting,
    scope: &Scope,
    heap: &Heap,
    values: &[Value],
    e: &Expr,
) -> Result<Value, u32>
    requires { IsFramed setting.now scope.now heap.now values.now }
    ensures { seen_result value_of result ≡ value_in (setting_of setting.now).program
        (state_of setting.now scope.now heap.now values.now) (expression_of e.now) }
{
    match e {
        Expr::Number { word, .. } => Ok(Value::Word(*word)),
        Expr::Nil { .. } => Ok(Value::Nil),
        Expr::Read(place) => {
            let cell = find(setting, scope, heap, values, place)?;
            Ok(read_cell(setting, scope, heap, values, cell))
        }
        Expr::Binary {
            op,
            left,
            right,
            ..
        } => match leaf(setting, scope, heap, values, left) {
            None => match value(setting, scope, heap, values, left) {
                Err(fault) => Err(fault),
                Ok(first) => match leaf(setting, scope, heap, values, right) {
                    None => {
                        let second = value(setting, scope, heap, values, right);
                        combined_with(*op, first, second)
                    }
                    Some(second) => Ok(combine(*op, first, second)),
                },
            },
            Some(first) => match leaf(setting, scope, heap, values, right) {
                None => {
                    let second = value(setting, scope, heap, values, right);
                    combined_with(*op, first, second)
                }
                Some(second) => Ok(combine(*op, first, second)),
            },
        },
    }
}

/// The cell that a place means, or the fault that is met.
#[cycle(values)]
pub fn find(
    setting: &Setting,
    scope: &Scope,
    heap: &Heap,
    values: &[Value],
    place: &Place,
) -> Result<Cell, u32>
    requires { IsFramed setting.now scope.now heap.now values.now }
    ensures { seen_result cell_view result ≡ place_in (setting_of setting.now).program
        (state_of setting.now scope.now heap.now values.now) (lvalue_of place.now) }
{
    let named = cell_of_name(setting, scope, heap, values, &place.name.text);
    match &place.index {
        None => Ok(named),
        Some(index) => {
            let at = value(setting, scope, heap, values, index)?;
            let array = read_cell(setting, scope, heap, values, named);
            element(heap, array, at.number())
        }
    }
}
