// Statements that hold no block, and are no calls.
ghost use Rattle.std.specs.Prelude.{◌≡◌, ◌≤◌, OnOk, true, IfErr};
ghost use Rattle.source_steps.specs.rpp_tree.Tree.{New, Delete, Whole, Object as AnObject};
ghost use Rattle.source_steps.specs.rpp_tree.Views.{statement_of, lvalue_of};
ghost use Rattle.source_steps.specs.Ends.{EndsAs, turned, does_simply};
ghost use Rattle.source_steps.specs.Metered.{MeteredGives, OnFault};
ghost use Rattle.source_steps.specs.StateView.{IsFramed, state_of};
ghost use Rattle.source_blocks.specs.Tasks.{exchange, statement_line};
ghost use Rattle.source_blocks.specs.Runs.{IsSound, IsSimple, state_in};
ghost use Rattle.source_blocks.specs.Stops.{MayStop};

use crate::run::{Run, scope_of};
use crate::task::Line;
use source_steps::tree::{Ident, Place};
use source_steps::{
    Heap, Scope, Setting, Stmt, Stop, Value, copy, delete_made, delete_object, element_place,
    new_made, new_object, swap, uncopy, undone, update, whole_place,
};

/// A simple statement of the text, as it stands.
#[inline(always)]
fn do_statement(
    setting: &Setting,
    scope: &Scope,
    heap: &mut Heap,
    values: &mut Vec<Value>,
    fuel: &mut u64,
    s: &Stmt,
) -> Result<(), Stop>
    requires framed { IsFramed setting.now scope.now heap.old values.old.items }
    requires simple { IsSimple (statement_of s.now) }
    ensures ends { EndsAs setting.now scope.now result heap.new values.new.items fuel.new
        (does_simply setting.now fuel.old (statement_of s.now)
        (state_of setting.now scope.now heap.old values.old.items)) }
    ensures framed { OnOk result (IsFramed setting.now scope.now heap.new values.new.items) }
    ensures stays { OnFault result ((heap.new ≡ heap.old) × (values.new ≡ values.old)) }
    ensures less { fuel.new ≤ fuel.old }
    ensures stops { IfErr result (λ why. MayStop (statement_of s.now) why) }
{
    match s {
        Stmt::Update {
            at,
            op,
            place,
            value,
        } => update(setting, scope, heap, values, fuel, *at, *op, place, value),
        Stmt::Swap { at, left, right } => {
            swap(setting, scope, heap, values, fuel, *at, left, right)
        }
        Stmt::New { at, made, place } => {
            new_made(setting, scope, heap, values, fuel, *at, made, place)
        }
        Stmt::Delete { at, made, place } => {
            delete_made(setting, scope, heap, values, fuel, *at, made, place)
        }
        Stmt::Copy {
            at,
            kind,
            source,
            target,
        } => copy(
            setting, scope, heap, values, fuel, *at, kind, source, target,
        ),
        Stmt::Uncopy {
            at,
            kind,
            source,
            target,
        } => uncopy(
            setting, scope, heap, values, fuel, *at, kind, source, target,
        ),
        Stmt::If { .. }
        | Stmt::From { .. }
        | Stmt::Construct { .. }
        | Stmt::Local { .. }
        | Stmt::Call { .. }
        | Stmt::Skip { .. } => Ok(()),
    }
}

/// A simple statement of the text, undone.
#[inline(never)]
fn undo_statement(
    setting: &Setting,
    scope: &Scope,
    heap: &mut Heap,
    values: &mut Vec<Value>,
    fuel: &mut u64,
    s: &Stmt,
) -> Result<(), Stop>
    requires framed { IsFramed setting.now scope.now heap.old values.old.items }
    requires simple { IsSimple (statement_of s.now) }
    ensures ends { EndsAs setting.now scope.now result heap.new values.new.items fuel.new
        (does_simply setting.now fuel.old (turned true (statement_of s.now))
        (state_of setting.now scope.now heap.old values.old.items)) }
    ensures framed { OnOk result (IsFramed setting.now scope.now heap.new values.new.items) }
    ensures stays { OnFault result ((heap.new ≡ heap.old) × (values.new ≡ values.old)) }
    ensures less { fuel.new ≤ fuel.old }
    ensures stops { IfErr result (λ why. MayStop (turned true (statement_of s.now)) why) }
{
    match s {
        Stmt::Update {
            at,
            op,
            place,
            value,
        } => update(
            setting,
            scope,
            heap,
            values,
            fuel,
            *at,
            undone(*op),
            place,
            value,
        ),
        Stmt::Swap { at, left, right } => {
            swap(setting, scope, heap, values, fuel, *at, left, right)
        }
        Stmt::New { at, made, place } => {
            delete_made(setting, scope, heap, values, fuel, *at, made, place)
        }
        Stmt::Delete { at, made, place } => {
            new_made(setting, scope, heap, values, fuel, *at, made, place)
        }
        Stmt::Copy {
            at,
            kind,
            source,
            target,
        } => uncopy(
            setting, scope, heap, values, fuel, *at, kind, source, target,
        ),
        Stmt::Uncopy {
            at,
            kind,
            source,
            target,
        } => copy(
            setting, scope, heap, values, fuel, *at, kind, source, target,
        ),
        Stmt::If { .. }
        | Stmt::From { .. }
        | Stmt::Construct { .. }
        | Stmt::Local { .. }
        | Stmt::Call { .. }
        | Stmt::Skip { .. } => Ok(()),
    }
}

/// A simple statement of the text, as it stands or undone.
#[inline(always)]
pub fn carry_out(run: &mut Run, fuel: &mut u64, s: &Stmt, back: bool) -> Result<(), Stop>
    requires sound { IsSound run.old }
    requires simple { IsSimple (turned back (statement_of s.now)) }
    ensures gives { MeteredGives (λ u. state_in run.new) result fuel.new
        (does_simply run.old.setting fuel.old (turned back (statement_of s.now))
        (state_in run.old)) }
    ensures sound { OnOk result (IsSound run.new) }
    ensures same { run.new ≡ record run.old { heap = run.new.heap; values = run.new.values } }
    ensures stays { OnFault result (run.new ≡ run.old) }
    ensures less { fuel.new ≤ fuel.old }
    ensures stops { IfErr result (λ why. MayStop (turned back (statement_of s.now)) why) }
{
    let scope = scope_of(&run.locals, run.params, run.marks);
    if back {
        return undo_statement(
            &run.setting,
            &scope,
            &mut run.heap,
            &mut run.values,
            fuel,
            s,
        );
    }
    do_statement(
        &run.setting,
        &scope,
        &mut run.heap,
        &mut run.values,
        fuel,
        s,
    )
}

/// The object of a `construct` is made.
fn make(run: &mut Run, fuel: &mut u64, at: u32, class: &Ident, name: &Ident) -> Result<(), Stop>
    requires sound { IsSound run.old }
    ensures gives { MeteredGives (λ u. state_in run.new) result fuel.new
        (does_simply run.old.setting fuel.old (New at (AnObject class.now) (Whole name.now))
        (state_in run.old)) }
    ensures sound { OnOk result (IsSound run.new) }
    ensures same { run.new ≡ record run.old { heap = run.new.heap; values = run.new.values } }
    ensures stays { OnFault result (run.new ≡ run.old) }
    ensures less { fuel.new ≤ fuel.old }
{
    match whole_place(run.setting.alloc, name) {
        Err(why) => Err(why),
        Ok(place) => {
            let scope = scope_of(&run.locals, run.params, run.marks);
            let heap = &mut run.heap;
            new_object(
                &run.setting,
                &scope,
                heap,
                &mut run.values,
                fuel,
                at,
                class,
                &place,
            )
        }
    }
}

/// It is deleted.
fn unmake(run: &mut Run, fuel: &mut u64, at: u32, class: &Ident, name: &Ident) -> Result<(), Stop>
    requires sound { IsSound run.old }
    ensures gives { MeteredGives (λ u. state_in run.new) result fuel.new
        (does_simply run.old.setting fuel.old (Delete at (AnObject class.now) (Whole name.now))
        (state_in run.old)) }
    ensures sound { OnOk result (IsSound run.new) }
    ensures same { run.new ≡ record run.old { heap = run.new.heap; values = run.new.values } }
    ensures stays { OnFault result (run.new ≡ run.old) }
    ensures less { fuel.new ≤ fuel.old }
{
    match whole_place(run.setting.alloc, name) {
        Err(why) => Err(why),
        Ok(place) => {
            let scope = scope_of(&run.locals, run.params, run.marks);
            let heap = &mut run.heap;
            delete_object(
                &run.setting,
                &scope,
                heap,
                &mut run.values,
                fuel,
                at,
                class,
                &place,
            )
        }
    }
}

/// An element and the variable that holds it during a call on it are exchanged.
fn hold(run: &mut Run, fuel: &mut u64, at: u32, element: &Place) -> Result<(), Stop>
    requires sound { IsSound run.old }
    ensures gives { MeteredGives (λ u. state_in run.new) result fuel.new
        (does_simply run.old.setting fuel.old (exchange at (lvalue_of element.now))
        (state_in run.old)) }
    ensures sound { OnOk result (IsSound run.new) }
    ensures same { run.new ≡ record run.old { heap = run.new.heap; values = run.new.values } }
    ensures stays { OnFault result (run.new ≡ run.old) }
    ensures less { fuel.new ≤ fuel.old }
    ensures stops { IfErr result (λ why. MayStop (exchange at (lvalue_of element.now)) why) }
{
    match element_place(run.setting.alloc, at) {
        Err(why) => Err(why),
        Ok(held) => {
            let scope = scope_of(&run.locals, run.params, run.marks);
            let heap = &mut run.heap;
            swap(
                &run.setting,
                &scope,
                heap,
                &mut run.values,
                fuel,
                at,
                &held,
                element,
            )
        }
    }
}

/// A simple statement of a block that runs.
pub fn carry_line(run: &mut Run, fuel: &mut u64, line: &Line) -> Result<(), Stop>
    requires sound { IsSound run.old }
    requires simple { IsSimple (statement_line line.now) }
    ensures gives { MeteredGives (λ u. state_in run.new) result fuel.new
        (does_simply run.old.setting fuel.old (statement_line line.now) (state_in run.old)) }
    ensures sound { OnOk result (IsSound run.new) }
    ensures same { run.new ≡ record run.old { heap = run.new.heap; values = run.new.values } }
    ensures stays { OnFault result (run.new ≡ run.old) }
    ensures less { fuel.new ≤ fuel.old }
    ensures stops { IfErr result (λ why. MayStop (statement_line line.now) why) }
{
    match line {
        Line::Text { stmt, back } => carry_out(run, fuel, stmt, *back),
        Line::Make(made) => make(run, fuel, made.at, made.class, made.name),
        Line::Delete(made) => unmake(run, fuel, made.at, made.class, made.name),
        Line::Exchange { at, element } => hold(run, fuel, *at, element),
        Line::Call(_calls) => Ok(()),
    }
}
