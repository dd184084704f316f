// Requests to the heap, undone if the run is reversed.
ghost use Rattle.std.specs.Prelude.{◌≡◌, ◌≤◌, OnOk, true};
ghost use Rattle.source_steps.specs.rpp_tree.Tree.{Whole, Object as AnObject};
ghost use Rattle.source_steps.specs.rpp_tree.Views.{creation_of, lvalue_of, statement_of};
ghost use Rattle.source_steps.specs.meaning_machine.Reversed.{undeleted as undeleted_in, unmade as unmade_in};
ghost use Rattle.source_steps.specs.Ends.{turned};
ghost use Rattle.source_steps.specs.Metered.{MeteredGives, metered, OnFault};
ghost use Rattle.source_steps.specs.StateView.{setting_of};
ghost use Rattle.source_blocks.specs.Requests.{is_request as asks, taken_back};
ghost use Rattle.source_blocks.specs.Tasks.{statement_line};
ghost use Rattle.source_blocks.specs.Runs.{IsSound, state_in};

use crate::run::{Run, scope_of};
use crate::task::Line;
use source_steps::tree::{Ident, Made, Place};
use source_steps::{Stmt, Stop, undelete_object, undeleted, unmade, whole_place};

/// Whether a statement of the text is `new` or `delete`.
fn is_asking(stmt: &Stmt) -> bool
    ensures { result ≡ asks (statement_of stmt.now) }
{
    match stmt {
        Stmt::New { .. } | Stmt::Delete { .. } => true,
        Stmt::Update { .. }
        | Stmt::Swap { .. }
        | Stmt::If { .. }
        | Stmt::From { .. }
        | Stmt::Construct { .. }
        | Stmt::Local { .. }
        | Stmt::Copy { .. }
        | Stmt::Uncopy { .. }
        | Stmt::Call { .. }
        | Stmt::Skip { .. } => false,
    }
}

/// Whether a statement of a block that runs is `new` or `delete`.
#[tactic(auto, using(crate::proofs::TurnedKinds::asks_turned))]
pub fn is_request(line: &Line) -> bool
    ensures { result ≡ asks (statement_line line.now) }
{
    match line {
        Line::Text { stmt, .. } => is_asking(stmt),
        Line::Make(_made) => true,
        Line::Delete(_made) => true,
        Line::Exchange { .. } => false,
        Line::Call(_calls) => false,
    }
}

/// A `new` is undone.
fn unmake(run: &mut Run, fuel: &mut u64, place: &Place) -> Result<(), Stop>
    requires sound { IsSound run.old }
    ensures gives { MeteredGives (λ u. state_in run.new) result fuel.new
        (metered fuel.old (unmade_in (setting_of run.old.setting) (lvalue_of place.now)
        (state_in run.old))) }
    ensures sound { OnOk result (IsSound run.new) }
    ensures same { run.new ≡ record run.old { heap = run.new.heap; values = run.new.values } }
    ensures stays { OnFault result (run.new ≡ run.old) }
    ensures less { fuel.new ≤ fuel.old }
{
    let scope = scope_of(&run.locals, run.params, run.marks);
    unmade(
        &run.setting,
        &scope,
        &mut run.heap,
        &mut run.values,
        fuel,
        place,
    )
}

/// A `delete` is undone.
fn undelete(run: &mut Run, fuel: &mut u64, made: &Made, place: &Place) -> Result<(), Stop>
    requires sound { IsSound run.old }
    ensures gives { MeteredGives (λ u. state_in run.new) result fuel.new
        (metered fuel.old (undeleted_in (setting_of run.old.setting) (creation_of made.now)
        (lvalue_of place.now) (state_in run.old))) }
    ensures sound { OnOk result (IsSound run.new) }
    ensures same { run.new ≡ record run.old { heap = run.new.heap; values = run.new.values } }
    ensures stays { OnFault result (run.new ≡ run.old) }
    ensures less { fuel.new ≤ fuel.old }
{
    let scope = scope_of(&run.locals, run.params, run.marks);
    undeleted(
        &run.setting,
        &scope,
        &mut run.heap,
        &mut run.values,
        fuel,
        made,
        place,
    )
}

/// The `delete` of the object of a `construct` is undone.
fn undelete_named(run: &mut Run, fuel: &mut u64, class: &Ident, name: &Ident) -> Result<(), Stop>
    requires sound { IsSound run.old }
    ensures gives { MeteredGives (λ u. state_in run.new) result fuel.new
        (metered fuel.old (undeleted_in (setting_of run.old.setting) (AnObject class.now)
        (Whole name.now) (state_in run.old))) }
    ensures sound { OnOk result (IsSound run.new) }
    ensures same { run.new ≡ record run.old { heap = run.new.heap; values = run.new.values } }
    ensures stays { OnFault result (run.new ≡ run.old) }
    ensures less { fuel.new ≤ fuel.old }
{
    match whole_place(run.setting.alloc, name) {
        Err(why) => Err(why),
        Ok(place) => {
            let scope = scope_of(&run.locals, run.params, run.marks);
            let heap = &mut run.heap;
            undelete_object(
                &run.setting,
                &scope,
                heap,
                &mut run.values,
                fuel,
                class,
                &place,
            )
        }
    }
}

/// The `new` of the object of a `construct` is undone.
fn unmake_named(run: &mut Run, fuel: &mut u64, name: &Ident) -> Result<(), Stop>
    requires sound { IsSound run.old }
    ensures gives { MeteredGives (λ u. state_in run.new) result fuel.new
        (metered fuel.old (unmade_in (setting_of run.old.setting) (Whole name.now)
        (state_in run.old))) }
    ensures sound { OnOk result (IsSound run.new) }
    ensures same { run.new ≡ record run.old { heap = run.new.heap; values = run.new.values } }
    ensures stays { OnFault result (run.new ≡ run.old) }
    ensures less { fuel.new ≤ fuel.old }
{
    match whole_place(run.setting.alloc, name) {
        Err(why) => Err(why),
        Ok(place) => unmake(run, fuel, &place),
    }
}

/// A `new` or `delete` of the text, as it stands.
fn take_back(run: &mut Run, fuel: &mut u64, stmt: &Stmt) -> Result<(), Stop>
    requires sound { IsSound run.old }
    ensures gives { MeteredGives (λ u. state_in run.new) result fuel.new
        (metered fuel.old (taken_back (setting_of run.old.setting) (statement_of stmt.now)
        (state_in run.old))) }
    ensures sound { OnOk result (IsSound run.new) }
    ensures same { run.new ≡ record run.old { heap = run.new.heap; values = run.new.values } }
    ensures stays { OnFault result (run.new ≡ run.old) }
    ensures less { fuel.new ≤ fuel.old }
{
    match stmt {
        Stmt::New {
            at: _at,
            made,
            place,
        } => undelete(run, fuel, made, place),
        Stmt::Delete {
            at: _at,
            made: _made,
            place,
        } => unmake(run, fuel, place),
        Stmt::Update { .. }
        | Stmt::Swap { .. }
        | Stmt::If { .. }
        | Stmt::From { .. }
        | Stmt::Construct { .. }
        | Stmt::Local { .. }
        | Stmt::Copy { .. }
        | Stmt::Uncopy { .. }
        | Stmt::Call { .. }
        | Stmt::Skip { .. } => Ok(()),
    }
}

/// A `new` or `delete` of the text, undone.
fn take_undone_back(run: &mut Run, fuel: &mut u64, stmt: &Stmt) -> Result<(), Stop>
    requires sound { IsSound run.old }
    ensures gives { MeteredGives (λ u. state_in run.new) result fuel.new
        (metered fuel.old (taken_back (setting_of run.old.setting)
        (turned true (statement_of stmt.now)) (state_in run.old))) }
    ensures sound { OnOk result (IsSound run.new) }
    ensures same { run.new ≡ record run.old { heap = run.new.heap; values = run.new.values } }
    ensures stays { OnFault result (run.new ≡ run.old) }
    ensures less { fuel.new ≤ fuel.old }
{
    match stmt {
        Stmt::New {
            at: _at,
            made: _made,
            place,
        } => unmake(run, fuel, place),
        Stmt::Delete {
            at: _at,
            made,
            place,
        } => undelete(run, fuel, made, place),
        Stmt::Update { .. }
        | Stmt::Swap { .. }
        | Stmt::If { .. }
        | Stmt::From { .. }
        | Stmt::Construct { .. }
        | Stmt::Local { .. }
        | Stmt::Copy { .. }
        | Stmt::Uncopy { .. }
        | Stmt::Call { .. }
        | Stmt::Skip { .. } => Ok(()),
    }
}

/// A `new` or `delete` of a block that runs is undone.
pub fn take_line_back(run: &mut Run, fuel: &mut u64, line: &Line) -> Result<(), Stop>
    requires sound { IsSound run.old }
    ensures gives { MeteredGives (λ u. state_in run.new) result fuel.new
        (metered fuel.old (taken_back (setting_of run.old.setting) (statement_line line.now)
        (state_in run.old))) }
    ensures sound { OnOk result (IsSound run.new) }
    ensures same { run.new ≡ record run.old { heap = run.new.heap; values = run.new.values } }
    ensures stays { OnFault result (run.new ≡ run.old) }
    ensures less { fuel.new ≤ fuel.old }
{
    match line {
        Line::Text { stmt, back } => {
            if *back {
                take_undone_back(run, fuel, stmt)
            } else {
                take_back(run, fuel, stmt)
            }
        }
        Line::Make(made) => undelete_named(run, fuel, made.class, made.name),
        Line::Delete(made) => unmake_named(run, fuel, made.name),
        Line::Exchange { .. } => Ok(()),
        Line::Call(_calls) => Ok(()),
    }
}
