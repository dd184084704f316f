// The check that a statement changes no element of an array that it reads.
ghost use Rattle.std.specs.Prelude.{◌≡◌, ◌≤◌, ◌++◌, ◌||◌, ◌∷◌, [], length, OnOk, IfSome, IfErr};
ghost use Rattle.std.specs.Option.{option_map};
ghost use Rattle.class_table.specs.rpp_tree.Views.{expression_of, lvalue_of};
ghost use Rattle.source_store.specs.roopl_semantics.Run.{spend as spending};
ghost use Rattle.source_store.specs.roopl_semantics.Elements.{elements, index_elements, own_element, is_among, kept_apart};
ghost use Rattle.source_store.specs.ValueView.{value_of};
ghost use Rattle.source_steps.specs.Apart.{count_elements, meets_array as meets_in, reads_of};
ghost use Rattle.source_steps.specs.Metered.{left_of, MeteredGives, metered, IsOwn};
ghost use Rattle.source_steps.specs.StateView.{IsFramed, state_of, setting_of};

use crate::cell::variable;
use crate::expressions::{Setting, one_less};
use crate::scope::Scope;
use crate::steps::refuse;
use crate::stop::Stop;
use class_table::Expr;
use class_table::tree::{Ident, Place};
use source_store::faults::SHARED_ARRAY;
use source_store::{Heap, Value};

/// Fuel after the elements of an expression.
#[cycle(pay)]
fn pay_elements(fuel: u64, e: &Expr) -> Option<u64>
    ensures left { result ≡ left_of fuel (count_elements (expression_of e.now)) }
    ensures less { IfSome result (λ left. left ≤ fuel) }
{
    match e {
        Expr::Number { .. } => Some(fuel),
        Expr::Nil { .. } => Some(fuel),
        Expr::Read(place) => match &place.index {
            None => Some(fuel),
            Some(index) => match one_less(fuel) {
                None => None,
                Some(left) => pay_elements(left, index),
            },
        },
        Expr::Binary { left, right, .. } => match pay_elements(fuel, left) {
            None => None,
            Some(fuel) => pay_elements(fuel, right),
        },
    }
}

/// Fuel after the elements of two expressions, the first of which may be missing.
#[tactic(auto, using(crate::proofs::Elements::count_both, crate::proofs::Elements::count_one))]
fn pay_both(fuel: u64, first: Option<&Expr>, second: &Expr) -> Option<u64>
    ensures left { result ≡ left_of fuel
        (length (reads_of (option_map (λ e. expression_of e.now) first.entry)
        ++ elements (expression_of second.now))) }
    ensures less { IfSome result (λ left. left ≤ fuel) }
{
    match first {
        None => pay_elements(fuel, second),
        Some(first) => match pay_elements(fuel, first) {
            None => None,
            Some(fuel) => pay_elements(fuel, second),
        },
    }
}

/// Counts the elements of two expressions.
fn spend_elements(fuel: &mut u64, first: Option<&Expr>, second: &Expr) -> Result<(), Stop>
    ensures gives { MeteredGives (λ u. tt) result fuel.new
        (metered fuel.old
        (spending (length (reads_of (option_map (λ e. expression_of e.now) first.entry)
        ++ elements (expression_of second.now))))) }
    ensures less { fuel.new ≤ fuel.old }
    ensures own { IfErr result IsOwn }
{
    match pay_both(*fuel, first, second) {
        None => Err(Stop::More),
        Some(left) => {
            *fuel = left;
            Ok(())
        }
    }
}

/// Whether an element of an expression is of this array.
#[cycle(meets)]
fn meets(
    setting: &Setting,
    scope: &Scope,
    heap: &Heap,
    values: &[Value],
    array: Value,
    e: &Expr,
) -> bool
    requires { IsFramed setting.now scope.now heap.now values.now }
    ensures { result ≡ meets_in (setting_of setting.now).program
        (state_of setting.now scope.now heap.now values.now) (value_of array)
        (expression_of e.now) }
{
    match e {
        Expr::Number { .. } => false,
        Expr::Nil { .. } => false,
        Expr::Read(place) => match &place.index {
            None => false,
            Some(index) => {
                let other = variable(setting, scope, heap, values, &place.name.text);
                array.same(other) || meets(setting, scope, heap, values, array, index)
            }
        },
        Expr::Binary { left, right, .. } => {
            meets(setting, scope, heap, values, array, left)
                || meets(setting, scope, heap, values, array, right)
        }
    }
}

fn either(a: bool, b: bool) -> bool
    ensures { result ≡ (a || b) }
{
    a || b
}

/// Whether an element of two expressions is of the array of a name.
fn shares(
    setting: &Setting,
    scope: &Scope,
    heap: &Heap,
    values: &[Value],
    name: &Ident,
    first: Option<&Expr>,
    second: &Expr,
) -> bool
    requires { IsFramed setting.now scope.now heap.now values.now }
    ensures { result ≡ is_among (setting_of setting.now).program
        (state_of setting.now scope.now heap.now values.now) name.now
        (reads_of (option_map (λ e. expression_of e.now) first.entry)
        ++ elements (expression_of second.now)) }
{
    let array = variable(setting, scope, heap, values, &name.text);
    let later = meets(setting, scope, heap, values, array, second);
    match first {
        None => later,
        Some(first) => {
            let sooner = meets(setting, scope, heap, values, array, first);
            either(sooner, later)
        }
    }
}

/// An element of one array is changed, and the elements of two expressions are read.
fn reads_apart(
    setting: &Setting,
    scope: &Scope,
    heap: &Heap,
    values: &Vec<Value>,
    fuel: &mut u64,
    name: &Ident,
    first: Option<&Expr>,
    second: &Expr,
) -> Result<(), Stop>
    requires { IsFramed setting.now scope.now heap.now values.now.items }
    ensures gives { MeteredGives (λ u. tt) result fuel.new
        (metered fuel.old (kept_apart (setting_of setting.now).program (name.now ∷ [])
        (reads_of (option_map (λ e. expression_of e.now) first.entry)
        ++ elements (expression_of second.now))
        (state_of setting.now scope.now heap.now values.now.items))) }
    ensures less { fuel.new ≤ fuel.old }
    ensures own { IfErr result IsOwn }
{
    spend_elements(fuel, first, second)?;
    refuse(
        fuel,
        SHARED_ARRAY,
        // proof: `|| false` makes the test a value that the search knows
        shares(setting, scope, heap, values, name, first, second) || false,
    )
}

/// Elements of two arrays are changed, and those in their indexes are read.
fn both_apart(
    setting: &Setting,
    scope: &Scope,
    heap: &Heap,
    values: &Vec<Value>,
    fuel: &mut u64,
    name: &Ident,
    other: &Ident,
    first: &Expr,
    second: &Expr,
) -> Result<(), Stop>
    requires { IsFramed setting.now scope.now heap.now values.now.items }
    ensures gives { MeteredGives (λ u. tt) result fuel.new
        (metered fuel.old (kept_apart (setting_of setting.now).program (name.now ∷ other.now ∷ [])
        (elements (expression_of first.now) ++ elements (expression_of second.now))
        (state_of setting.now scope.now heap.now values.now.items))) }
    ensures less { fuel.new ≤ fuel.old }
    ensures own { IfErr result IsOwn }
{
    spend_elements(fuel, Some(first), second)?;
    // proof: `|| false` makes the test a value that the search knows
    let shared = shares(setting, scope, heap, values, name, Some(first), second)
        || (shares(setting, scope, heap, values, other, Some(first), second) || false);
    refuse(fuel, SHARED_ARRAY, shared)
}

/// The index of a place, if it is an element.
fn index_of(place: &Place) -> Option<&Expr>
    ensures { reads_of (option_map (λ e. expression_of e.now) result)
        ≡ index_elements (lvalue_of place.now) }
{
    match &place.index {
        None => None,
        Some(index) => Some(index),
    }
}

/// The check of an update.
pub fn update_apart(
    setting: &Setting,
    scope: &Scope,
    heap: &Heap,
    values: &Vec<Value>,
    fuel: &mut u64,
    place: &Place,
    e: &Expr,
) -> Result<(), Stop>
    requires { IsFramed setting.now scope.now heap.now values.now.items }
    ensures gives { MeteredGives (λ u. tt) result fuel.new
        (metered fuel.old (kept_apart (setting_of setting.now).program
        (own_element (lvalue_of place.now))
        (index_elements (lvalue_of place.now) ++ elements (expression_of e.now))
        (state_of setting.now scope.now heap.now values.now.items))) }
    ensures less { fuel.new ≤ fuel.old }
    ensures own { IfErr result IsOwn }
{
    match &place.index {
        None => Ok(()),
        Some(index) => reads_apart(
            setting,
            scope,
            heap,
            values,
            fuel,
            &place.name,
            Some(index),
            e,
        ),
    }
}

/// The check of a place that `new` or `delete` of an object changes.
pub fn place_apart(
    setting: &Setting,
    scope: &Scope,
    heap: &Heap,
    values: &Vec<Value>,
    fuel: &mut u64,
    place: &Place,
) -> Result<(), Stop>
    requires { IsFramed setting.now scope.now heap.now values.now.items }
    ensures gives { MeteredGives (λ u. tt) result fuel.new
        (metered fuel.old (kept_apart (setting_of setting.now).program
        (own_element (lvalue_of place.now)) (index_elements (lvalue_of place.now))
        (state_of setting.now scope.now heap.now values.now.items))) }
    ensures less { fuel.new ≤ fuel.old }
    ensures own { IfErr result IsOwn }
{
    match &place.index {
        None => Ok(()),
        Some(index) => reads_apart(setting, scope, heap, values, fuel, &place.name, None, index),
    }
}

/// The check of a `copy` or an `uncopy`, which changes its target.
pub fn copy_apart(
    setting: &Setting,
    scope: &Scope,
    heap: &Heap,
    values: &Vec<Value>,
    fuel: &mut u64,
    source: &Place,
    target: &Place,
) -> Result<(), Stop>
    requires { IsFramed setting.now scope.now heap.now values.now.items }
    ensures gives { MeteredGives (λ u. tt) result fuel.new
        (metered fuel.old (kept_apart (setting_of setting.now).program
        (own_element (lvalue_of target.now))
        (index_elements (lvalue_of source.now) ++ index_elements (lvalue_of target.now))
        (state_of setting.now scope.now heap.now values.now.items))) }
    ensures less { fuel.new ≤ fuel.old }
    ensures own { IfErr result IsOwn }
{
    match &target.index {
        None => Ok(()),
        Some(index) => {
            let first = index_of(source);
            reads_apart(
                setting,
                scope,
                heap,
                values,
                fuel,
                &target.name,
                first,
                index,
            )
        }
    }
}

/// Checks that a swap does not change what its own places read.
pub fn swap_apart(
    setting: &Setting,
    scope: &Scope,
    heap: &Heap,
    values: &Vec<Value>,
    fuel: &mut u64,
    left: &Place,
    right: &Place,
) -> Result<(), Stop>
    requires { IsFramed setting.now scope.now heap.now values.now.items }
    ensures gives { MeteredGives (λ u. tt) result fuel.new
        (metered fuel.old (kept_apart (setting_of setting.now).program
        (own_element (lvalue_of left.now) ++ own_element (lvalue_of right.now))
        (index_elements (lvalue_of left.now) ++ index_elements (lvalue_of right.now))
        (state_of setting.now scope.now heap.now values.now.items))) }
    ensures less { fuel.new ≤ fuel.old }
    ensures own { IfErr result IsOwn }
{
    match &left.index {
        None => place_apart(setting, scope, heap, values, fuel, right),
        Some(first) => match &right.index {
            None => place_apart(setting, scope, heap, values, fuel, left),
            Some(second) => both_apart(
                setting,
                scope,
                heap,
                values,
                fuel,
                &left.name,
                &right.name,
                first,
                second,
            ),
        },
    }
}
