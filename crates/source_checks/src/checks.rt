// What the checks of `new`, `delete`, `copy`, `uncopy` and calls compare.
ghost use Rattle.std.specs.Prelude.{◌≡◌, ℕ, true, false, IfOk, Result as Outcome};
ghost use Rattle.std.specs.Option.{unwrap_or};
ghost use Rattle.source_blocks.specs.rpp_tree.Tree.{Object as AnObject};
ghost use Rattle.source_blocks.specs.rpp_tree.Views.{creation_of, expression_of, lvalue_of, statement_of};
ghost use Rattle.source_blocks.specs.class_rules.Classes.{class_number};
ghost use Rattle.source_blocks.specs.roopl_semantics.Store.{Value as Worth, Nil, object_at};
ghost use Rattle.source_blocks.specs.roopl_semantics.Value.{value as value_in_state, read_cell as read_found, element_cell, element_of};
ghost use Rattle.source_blocks.specs.source_store.ValueView.{value_of, values_of, kept_head};
ghost use Rattle.source_blocks.specs.source_steps.StateView.{setting_of};
ghost use Rattle.source_blocks.specs.Runs.{IsSound, state_in};
ghost use Rattle.source_blocks.specs.Tasks.{statement_line};
ghost use Rattle.source_checks.specs.Checks.{or_nil, is_array as is_array_of, held as held_in, created as created_of, copied as copied_of, subject as subject_in_state, unlike as unlike_of, first_filled as first_filled_of, check as check_of, compared_begin as compared_begin_of, no_subject};
ghost use Rattle.source_compared.specs.ComparedView.{compared_of, IsValue};
ghost use Rattle.source_checks.specs.TestedView.{subject_of};

use crate::accesses::{begin_access, variable};
use crate::closings::value_of_closing;
use source_blocks::tree::{Made, Place, VarType};
use source_blocks::{Closing, Expr, Line, Run, Stmt, Text};
use source_compared::{Compared, Head, Heap, Lack, Value, first_of, to_be_zero};

/// What a check looks at: what the place holds that is made, deleted or copied to. Then come the
/// size of an array, or what is copied, the class that is named, and whether it is an array.
#[derive(Clone, Copy)]
struct Subject {
    target: Value,
    other: Value,
    class: u32,
    array: bool,
}

// The element of an array at an index, or nil.
fn part_or_nil(run: &Run, array: Value, index: u32) -> Value
    requires sound { IsSound run.now }
    ensures { value_of result ≡ or_nil (read_found (state_in run.now)
        (element_cell (state_in run.now) (value_of array) index)) }
{
    match array {
        Value::Name(name) => {
            if (index as usize) < run.heap.length_of(name) {
                run.heap.part(name, index as usize)
            } else {
                Value::Nil
            }
        }
        Value::Nil => Value::Nil,
        Value::Word(_) => Value::Nil,
    }
}

// The same of an index that has a value, or none.
fn element_or_nil(run: &Run, name: &Text, index: Option<Value>) -> Value
    requires sound { IsSound run.now }
    ensures { (r : Outcome Worth ℕ) → IsValue index r
        → value_of result ≡ or_nil (read_found (state_in run.now)
        (element_of (setting_of run.now.setting).program (state_in run.now) name.now r)) }
{
    match index {
        None => Value::Nil,
        Some(index) => part_or_nil(run, variable(run, name), index.number()),
    }
}

// What a place holds, or nil if it is not there.
fn held(run: &Run, place: &Place) -> Result<Value, Lack>
    requires sound { IsSound run.now }
    ensures { IfOk result (λ v. value_of v ≡ held_in (setting_of run.now.setting).program
        (state_in run.now) (lvalue_of place.now)) }
{
    match &place.index {
        None => Ok(variable(run, &place.name.text)),
        Some(index) => {
            let at = value_of_closing(run, &Closing::Of(index))?;
            Ok(element_or_nil(run, &place.name.text, at))
        }
    }
}

// A value, or nil if there is none.
fn value_or_nil(found: Option<Value>) -> Value
    ensures { (r : Outcome Worth ℕ) → IsValue found r → value_of result ≡ or_nil r }
{
    match found {
        None => Value::Nil,
        Some(value) => value,
    }
}

// The value of a size.
fn size_of(run: &Run, size: &Expr) -> Result<Value, Lack>
    requires sound { IsSound run.now }
    ensures { IfOk result (λ v. value_of v ≡ or_nil (value_in_state
        (setting_of run.now.setting).program (state_in run.now) (expression_of size.now))) }
{
    let found = value_of_closing(run, &Closing::Of(size))?;
    Ok(value_or_nil(found))
}

// The number of the class of a name, or 0.
fn number_of_class(run: &Run, name: &Text) -> u32
    ensures { result ≡ unwrap_or
        (class_number (setting_of run.now.setting).program name.now) 0 }
{
    match run.setting.checked.table().class_of(name) {
        None => 0,
        Some(number) => number,
    }
}

// What a check of an object looks at.
fn object_subject(run: &Run, target: Value, class: &Text) -> Subject
    ensures { subject_of result ≡ record {
      target = value_of target;
      other = Nil;
      class = unwrap_or (class_number (setting_of run.now.setting).program class.now) 0;
      array = false;
    } }
{
    Subject {
        target,
        other: Value::Nil,
        class: number_of_class(run, class),
        array: false,
    }
}

// That of an array.
fn array_subject(run: &Run, target: Value, size: &Expr) -> Result<Subject, Lack>
    requires sound { IsSound run.now }
    ensures { IfOk result (λ it. subject_of it ≡ record {
      target = value_of target;
      other = or_nil (value_in_state (setting_of run.now.setting).program (state_in run.now)
          (expression_of size.now));
      class = 0;
      array = true;
    }) }
{
    let other = size_of(run, size)?;
    Ok(Subject {
        target,
        other,
        class: 0,
        array: true,
    })
}

// What `new` and `delete` look at.
fn created(run: &Run, place: &Place, made: &Made) -> Result<Subject, Lack>
    requires sound { IsSound run.now }
    ensures { IfOk result (λ it. subject_of it ≡ created_of (setting_of run.now.setting).program
        (state_in run.now) (held_in (setting_of run.now.setting).program (state_in run.now)
        (lvalue_of place.now)) (creation_of made.now)) }
{
    let target = held(run, place)?;
    match made {
        Made::Object(class) => Ok(object_subject(run, target, &class.text)),
        Made::Ints(size) => array_subject(run, target, size),
        Made::Objects(_class, size) => array_subject(run, target, size),
    }
}

fn is_array(kind: &VarType) -> bool
    ensures { result ≡ is_array_of kind.now }
{
    match kind {
        VarType::Int => false,
        VarType::Class(_class) => false,
        VarType::IntArray => true,
        VarType::ClassArray(_class) => true,
    }
}

// What `copy` and `uncopy` look at.
fn copied(run: &Run, kind: &VarType, source: &Place, target: &Place) -> Result<Subject, Lack>
    requires sound { IsSound run.now }
    ensures { IfOk result (λ it. subject_of it ≡ copied_of (setting_of run.now.setting).program
        (state_in run.now) kind.now (lvalue_of source.now) (lvalue_of target.now)) }
{
    let other = held(run, source)?;
    let target = held(run, target)?;
    Ok(Subject {
        target,
        other,
        class: 0,
        array: is_array(kind),
    })
}

fn nothing() -> Subject
    ensures { subject_of result ≡ no_subject }
{
    Subject {
        target: Value::Nil,
        other: Value::Nil,
        class: 0,
        array: false,
    }
}

// What a statement of the text looks at.
fn subject_in(run: &Run, stmt: &Stmt) -> Result<Subject, Lack>
    requires sound { IsSound run.now }
    ensures { IfOk result (λ it. subject_of it ≡ subject_in_state
        (setting_of run.now.setting).program (state_in run.now) (statement_of stmt.now)) }
{
    match stmt {
        Stmt::New { made, place, .. } | Stmt::Delete { made, place, .. } => {
            created(run, place, made)
        }
        Stmt::Copy {
            kind,
            source,
            target,
            ..
        }
        | Stmt::Uncopy {
            kind,
            source,
            target,
            ..
        } => copied(run, kind, source, target),
        Stmt::Update { .. }
        | Stmt::Swap { .. }
        | Stmt::If { .. }
        | Stmt::From { .. }
        | Stmt::Construct { .. }
        | Stmt::Local { .. }
        | Stmt::Call { .. }
        | Stmt::Skip { .. } => Ok(nothing()),
    }
}

// What a statement that runs looks at.
#[tactic(auto, using(crate::proofs::Looking::subject_turned))]
fn subject_at(run: &Run, line: &Line) -> Result<Subject, Lack>
    requires sound { IsSound run.now }
    ensures { IfOk result (λ it. subject_of it ≡ subject_in_state
        (setting_of run.now.setting).program (state_in run.now) (statement_line line.now)) }
{
    match line {
        Line::Text { stmt, .. } => subject_in(run, stmt),
        Line::Make(made) | Line::Delete(made) => {
            let target = variable(run, &made.name.text);
            Ok(object_subject(run, target, &made.class.text))
        }
        Line::Exchange { .. } => Ok(nothing()),
        Line::Call(_calls) => Ok(nothing()),
    }
}

// The first of these values that is not 0 or nil.
fn first_filled(cells: &[Value]) -> Compared
    ensures { compared_of result ≡ first_filled_of (values_of cells.now) }
{
    for cell in cells {
        if !cell.is_zero() {
            return to_be_zero(*cell);
        }
    }
    Compared::Nothing
}

// The first field or element of an object that is not 0 or nil.
fn filled_in(heap: &Heap, name: u32) -> Compared
    ensures { compared_of result ≡ first_filled_of (object_at heap.now.store name).cells }
{
    match heap.object(name) {
        None => Compared::Nothing,
        Some(object) => first_filled(&object.cells),
    }
}

// What an object is.
fn head_in(heap: &Heap, name: u32) -> Head
    ensures { kept_head result ≡ (object_at heap.now.store name).head }
{
    match heap.object(name) {
        None => Head::Ints(0),
        Some(object) => object.head,
    }
}

// Two values that are to be the same, if they are not.
fn unlike(found: Value, wanted: Value) -> Compared
    ensures { compared_of result ≡ unlike_of (value_of found) (value_of wanted) }
{
    if wanted.same(found) {
        Compared::Nothing
    } else {
        Compared::Values { found, wanted }
    }
}

// What the check with this fault compares.
fn check(run: &Run, code: u32, it: &Subject) -> Compared
    requires sound { IsSound run.now }
    ensures { compared_of result ≡ check_of (setting_of run.now.setting) (state_in run.now) code
        (subject_of it.now) }
{
    let name = it.target.number();
    match code {
        4 => Compared::Values {
            found: it.target,
            wanted: Value::Nil,
        },
        5 => Compared::Missing { array: it.array },
        6 => Compared::Count {
            found: run.heap.count_of(name),
        },
        7 => filled_in(&run.heap, name),
        10 => unlike(it.target, it.other),
        11 => Compared::Heads {
            found: head_in(&run.heap, name),
            wanted: Head::Class(it.class),
        },
        12 => Compared::Length {
            found: it.other,
            wanted: run.heap.length_of(name),
        },
        13 => Compared::Size { found: it.other },
        14 => Compared::Below {
            found: Value::Word(run.setting.depth),
            limit: run.setting.limits.deep as usize,
        },
        _ => Compared::Nothing,
    }
}

/// What a statement that stops with this fault compares as it begins.
pub(crate) fn compare_begin(run: &Run, code: u32, line: &Line) -> Result<Compared, Lack>
    requires sound { IsSound run.now }
    ensures { IfOk result (λ it. compared_of it ≡ compared_begin_of (setting_of run.now.setting)
        (state_in run.now) code (statement_line line.now)) }
{
    let access = begin_access(run, line)?;
    let subject = subject_at(run, line)?;
    Ok(first_of(access, check(run, code, &subject)))
}
