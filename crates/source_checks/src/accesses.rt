// The elements that an evaluation reads, and the first one that is not there.
ghost use Rattle.std.specs.Prelude.{◌≡◌, true, IfOk};
ghost use Rattle.source_blocks.specs.rpp_tree.Views.{creation_of, expression_of, lvalue_of, statement_of};
ghost use Rattle.source_blocks.specs.roopl_semantics.Value.{value as value_in_state, variable_value};
ghost use Rattle.source_blocks.specs.source_store.ValueView.{value_of};
ghost use Rattle.source_blocks.specs.source_steps.Ends.{turned};
ghost use Rattle.source_blocks.specs.source_steps.StateView.{setting_of};
ghost use Rattle.source_blocks.specs.Opens.{closing_of};
ghost use Rattle.source_blocks.specs.Runs.{IsSound, state_in};
ghost use Rattle.source_blocks.specs.Tasks.{statement_line};
ghost use Rattle.source_compared.specs.Comparisons.{first_of as first_of_two, access_at as access_of};
ghost use Rattle.source_checks.specs.Checks.{failing_access as failing_access_of, place_access as place_access_of, size_access as size_access_of, begin_access as begin_access_of};
ghost use Rattle.source_compared.specs.ComparedView.{compared_of};

use crate::closings::value_of_closing;
use source_blocks::tree::{Made, Place};
use source_blocks::{Closing, Expr, Line, Run, Stmt, Text, cell_of_name, read_cell, scope_of};
use source_compared::{Compared, Lack, Value, access_at, first_of};

/// The value of what a name means.
pub(crate) fn variable(run: &Run, name: &Text) -> Value
    requires sound { IsSound run.now }
    ensures { value_of result ≡ variable_value (setting_of run.now.setting).program
        (state_in run.now) name.now }
{
    let scope = scope_of(&run.locals, run.params, run.marks);
    let cell = cell_of_name(&run.setting, &scope, &run.heap, &run.values, name);
    read_cell(&run.setting, &scope, &run.heap, &run.values, cell)
}

// The element of an array at an index of the text.
fn own_access(run: &Run, name: &Text, index: &Expr) -> Result<Compared, Lack>
    requires sound { IsSound run.now }
    ensures { IfOk result (λ it. compared_of it ≡ access_of (state_in run.now).store
        (variable_value (setting_of run.now.setting).program (state_in run.now) name.now)
        (value_in_state (setting_of run.now.setting).program (state_in run.now)
        (expression_of index.now))) }
{
    let at = value_of_closing(run, &Closing::Of(index))?;
    Ok(access_at(&run.heap, variable(run, name), at))
}

/// The element of an expression that fails first.
#[cycle(accesses)]
pub(crate) fn failing_access(run: &Run, e: &Expr) -> Result<Compared, Lack>
    requires sound { IsSound run.now }
    ensures { IfOk result (λ it. compared_of it ≡ failing_access_of
        (setting_of run.now.setting).program (state_in run.now) (expression_of e.now)) }
{
    match e {
        Expr::Number { .. } => Ok(Compared::Nothing),
        Expr::Nil { .. } => Ok(Compared::Nothing),
        Expr::Read(place) => place_access(run, place),
        Expr::Binary { left, right, .. } => {
            let first = failing_access(run, left)?;
            let second = failing_access(run, right)?;
            Ok(first_of(first, second))
        }
    }
}

// The same of a place.
#[cycle(accesses)]
fn place_access(run: &Run, place: &Place) -> Result<Compared, Lack>
    requires sound { IsSound run.now }
    ensures { IfOk result (λ it. compared_of it ≡ place_access_of
        (setting_of run.now.setting).program (state_in run.now) (lvalue_of place.now)) }
{
    match &place.index {
        None => Ok(Compared::Nothing),
        Some(index) => {
            let first = failing_access(run, index)?;
            let second = own_access(run, &place.name.text, index)?;
            Ok(first_of(first, second))
        }
    }
}

// The same of what a variable begins or ends with.
pub(crate) fn closing_access(run: &Run, closing: &Closing) -> Result<Compared, Lack>
    requires sound { IsSound run.now }
    ensures { IfOk result (λ it. compared_of it ≡ failing_access_of
        (setting_of run.now.setting).program (state_in run.now) (closing_of closing.now)) }
{
    match closing {
        Closing::Nil(_at) => Ok(Compared::Nothing),
        Closing::Of(e) => failing_access(run, e),
    }
}

// The same of the size of an array.
fn size_access(run: &Run, made: &Made) -> Result<Compared, Lack>
    requires sound { IsSound run.now }
    ensures { IfOk result (λ it. compared_of it ≡ size_access_of
        (setting_of run.now.setting).program (state_in run.now) (creation_of made.now)) }
{
    match made {
        Made::Object(_class) => Ok(Compared::Nothing),
        Made::Ints(size) => failing_access(run, size),
        Made::Objects(_class, size) => failing_access(run, size),
    }
}

// The same of a place, and then of another.
fn places_access(run: &Run, left: &Place, right: &Place) -> Result<Compared, Lack>
    requires sound { IsSound run.now }
    ensures { IfOk result (λ it. compared_of it ≡ first_of_two
        (place_access_of (setting_of run.now.setting).program (state_in run.now)
        (lvalue_of left.now))
        (place_access_of (setting_of run.now.setting).program (state_in run.now)
        (lvalue_of right.now))) }
{
    let first = place_access(run, left)?;
    let second = place_access(run, right)?;
    Ok(first_of(first, second))
}

// The same of a statement of the text that begins, as it stands.
fn access_forward(run: &Run, stmt: &Stmt) -> Result<Compared, Lack>
    requires sound { IsSound run.now }
    ensures { IfOk result (λ it. compared_of it ≡ begin_access_of
        (setting_of run.now.setting).program (state_in run.now) (statement_of stmt.now)) }
{
    match stmt {
        Stmt::Update { place, value, .. } => {
            let first = place_access(run, place)?;
            let second = failing_access(run, value)?;
            Ok(first_of(first, second))
        }
        Stmt::New { made, place, .. } | Stmt::Delete { made, place, .. } => {
            let first = place_access(run, place)?;
            let second = size_access(run, made)?;
            Ok(first_of(first, second))
        }
        Stmt::Swap { left, right, .. } => places_access(run, left, right),
        Stmt::Copy { source, target, .. } | Stmt::Uncopy { source, target, .. } => {
            places_access(run, source, target)
        }
        Stmt::If { test, .. } => failing_access(run, test),
        Stmt::Local { value, .. } => failing_access(run, value),
        Stmt::From { .. } | Stmt::Construct { .. } | Stmt::Call { .. } | Stmt::Skip { .. } => {
            Ok(Compared::Nothing)
        }
    }
}

// The same, undone.
fn access_backward(run: &Run, stmt: &Stmt) -> Result<Compared, Lack>
    requires sound { IsSound run.now }
    ensures { IfOk result (λ it. compared_of it ≡ begin_access_of
        (setting_of run.now.setting).program (state_in run.now)
        (turned true (statement_of stmt.now))) }
{
    match stmt {
        Stmt::If { after, .. } => failing_access(run, after),
        Stmt::Local { end_value, .. } => failing_access(run, end_value),
        Stmt::Update { .. }
        | Stmt::Swap { .. }
        | Stmt::From { .. }
        | Stmt::Construct { .. }
        | Stmt::New { .. }
        | Stmt::Delete { .. }
        | Stmt::Copy { .. }
        | Stmt::Uncopy { .. }
        | Stmt::Call { .. }
        | Stmt::Skip { .. } => access_forward(run, stmt),
    }
}

/// The same of a statement that runs.
pub(crate) fn begin_access(run: &Run, line: &Line) -> Result<Compared, Lack>
    requires sound { IsSound run.now }
    ensures { IfOk result (λ it. compared_of it ≡ begin_access_of
        (setting_of run.now.setting).program (state_in run.now) (statement_line line.now)) }
{
    match line {
        Line::Text { stmt, back } => {
            if *back {
                access_backward(run, stmt)
            } else {
                access_forward(run, stmt)
            }
        }
        Line::Make(_made) => Ok(Compared::Nothing),
        Line::Delete(_made) => Ok(Compared::Nothing),
        Line::Exchange { element, .. } => place_access(run, element),
        Line::Call(_calls) => Ok(Compared::Nothing),
    }
}
