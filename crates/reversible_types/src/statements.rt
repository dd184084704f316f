// The rules of statements.
ghost use Rattle.std.specs.Prelude.{◌≡◌, [], map, slice_get};
ghost use Rattle.std.specs.List.{list_any};
ghost use Rattle.std.specs.Option.{unwrap_or};
ghost use Rattle.std.specs.Str.{bytes_eq};
ghost use Rattle.class_table.specs.rpp_tree.Views.{procedure_of, expression_of, lvalue_of, creation_of, optional_lvalue_of, statement_of, block_of};
ghost use Rattle.reversible_types.specs.Verdicts.{verdict_of};
ghost use Rattle.reversible_types.specs.ScopeView.{typing_of, locals_of};
ghost use Rattle.class_table.specs.class_rules.Table.{dispatch_in};
ghost use Rattle.class_table.specs.class_rules.Statements.{same_kind, is_class, is_class_array, is_int_array as of_ints, takes_object, takes_copy, is_nil_word, same_plain, written_kind, update_rules as of_update, swap_rules as of_swap, test_rules as of_tests, class_known, type_known, local_rules as of_local, construct_rules as of_construct, copy_rules as of_copy, made_known, length_is_int, occurs_in_length, takes as takes_made, make_rules as of_make, check_statement, check_statements};
ghost use Rattle.class_table.specs.rpp_tree.Places.{place_name};

use crate::calls::call_rules;
use crate::error::TypeError;
use crate::expressions::{first_token, holds_int, occurs_in, occurs_inside, type_expr, type_place};
use crate::scope::{Locals, Typing, kind_of_class, kind_of_local, kind_of_type};
use class_table::tree::{Block, Ident, Made, Place, Var, VarType};
use class_table::{ClassTable, Expr, Kind, Stmt, Text, same_type};

/// Whether two types are equal.
pub fn equal_kinds(a: Kind, b: Kind) -> bool
    ensures { result ≡ same_kind a b }
{
    match (a, b) {
        (Kind::Int, Kind::Int) => true,
        (Kind::Nil, Kind::Nil) => true,
        (Kind::Class(a), Kind::Class(b)) => a == b,
        (Kind::IntArray, Kind::IntArray) => true,
        (Kind::ClassArray(a), Kind::ClassArray(b)) => a == b,
        _ => false,
    }
}

/// The variable of a place.
pub fn name_of_place(place: &Place) -> &Ident
    ensures { result.now ≡ place_name (lvalue_of place.now) }
{
    match &place.index {
        None => &place.name,
        Some(_) => &place.name,
    }
}

fn is_nil(e: &Expr) -> bool
    ensures { result ≡ is_nil_word (expression_of e.now) }
{
    match e {
        Expr::Nil { .. } => true,
        Expr::Number { .. } => false,
        Expr::Binary { .. } => false,
        Expr::Read(place) => match &place.index {
            None => false,
            Some(_) => false,
        },
    }
}

fn update_rules(
    setting: &Typing,
    locals: &Locals,
    at: u32,
    place: &Place,
    value: &Expr,
) -> Result<(), TypeError>
    ensures { verdict_of result ≡ of_update (typing_of setting.now) (locals_of locals.now) at
        (lvalue_of place.now) (expression_of value.now) }
{
    let place_kind = type_place(setting, locals, place)?;
    let value_kind = type_expr(setting, locals, value)?;
    if !(holds_int(place_kind) && holds_int(value_kind)) {
        return Err(TypeError::TypeDiffers { at });
    }
    let name = &name_of_place(place).text;
    if occurs_inside(name, place) || occurs_in(name, value) {
        return Err(TypeError::SelfUpdate { at });
    }
    Ok(())
}

fn swap_rules(
    setting: &Typing,
    locals: &Locals,
    at: u32,
    left: &Place,
    right: &Place,
) -> Result<(), TypeError>
    ensures { verdict_of result ≡ of_swap (typing_of setting.now) (locals_of locals.now) at
        (lvalue_of left.now) (lvalue_of right.now) }
{
    let left_kind = type_place(setting, locals, left)?;
    let right_kind = type_place(setting, locals, right)?;
    if !equal_kinds(left_kind, right_kind) {
        return Err(TypeError::TypeDiffers { at });
    }
    let first = &name_of_place(left).text;
    let second = &name_of_place(right).text;
    if occurs_inside(first, left)
        || occurs_inside(first, right)
        || occurs_inside(second, left)
        || occurs_inside(second, right)
    {
        return Err(TypeError::SelfUpdate { at });
    }
    Ok(())
}

fn test_rules(setting: &Typing, locals: &Locals, first: &Expr, last: &Expr) -> Result<(), TypeError>
    ensures { verdict_of result ≡ of_tests (typing_of setting.now) (locals_of locals.now)
        (expression_of first.now) (expression_of last.now) }
{
    let first_kind = type_expr(setting, locals, first)?;
    let last_kind = type_expr(setting, locals, last)?;
    if !holds_int(first_kind) {
        return Err(TypeError::TypeDiffers {
            at: first_token(first),
        });
    }
    if !holds_int(last_kind) {
        return Err(TypeError::TypeDiffers {
            at: first_token(last),
        });
    }
    Ok(())
}

fn know_class(table: &ClassTable, name: &Ident) -> Result<(), TypeError>
    ensures { verdict_of result ≡ class_known table.now name.now }
{
    match table.class_of(&name.text) {
        Some(_) => Ok(()),
        None => Err(TypeError::UnknownName { at: name.at }),
    }
}

fn know_type(table: &ClassTable, kind: &VarType) -> Result<(), TypeError>
    ensures { verdict_of result ≡ type_known table.now kind.now }
{
    match kind {
        VarType::Int => Ok(()),
        VarType::Class(name) => know_class(table, name),
        VarType::IntArray => Ok(()),
        VarType::ClassArray(name) => know_class(table, name),
    }
}

fn local_rules(
    setting: &Typing,
    locals: &Locals,
    at: u32,
    var: &Var,
    value: &Expr,
    end_var: &Var,
    end_value: &Expr,
) -> Result<(), TypeError>
    ensures { verdict_of result ≡ of_local (typing_of setting.now) (locals_of locals.now) at
        var.now (expression_of value.now) end_var.now (expression_of end_value.now) }
{
    know_type(setting.table, &var.kind)?;
    let name = &var.name.text;
    if kind_of_local(locals, name).is_some() {
        return Err(TypeError::Redeclared { at: var.name.at });
    }
    if !(same_type(&var.kind, &end_var.kind) && *name == end_var.name.text) {
        return Err(TypeError::TypeDiffers {
            at: end_var.name.at,
        });
    }
    if occurs_in(name, value) || occurs_in(name, end_value) {
        return Err(TypeError::LocalInOwnExpression { at });
    }
    let value_kind = type_expr(setting, locals, value)?;
    let end_kind = type_expr(setting, locals, end_value)?;
    let fits = match var.kind {
        VarType::Int => holds_int(value_kind) && holds_int(end_kind),
        _ => is_nil(value) && is_nil(end_value),
    };
    if !fits {
        return Err(TypeError::TypeDiffers { at });
    }
    Ok(())
}

fn know_made(table: &ClassTable, made: &Made) -> Result<(), TypeError>
    ensures { verdict_of result ≡ made_known table.now (creation_of made.now) }
{
    match made {
        Made::Object(class) => know_class(table, class),
        Made::Ints(_) => Ok(()),
        Made::Objects(class, _) => know_class(table, class),
    }
}

fn has_int_length(setting: &Typing, locals: &Locals, made: &Made) -> Result<bool, TypeError>
    ensures { verdict_of result ≡ length_is_int (typing_of setting.now) (locals_of locals.now)
        (creation_of made.now) }
{
    match made {
        Made::Object(_) => Ok(true),
        Made::Ints(length) => {
            let kind = type_expr(setting, locals, length)?;
            Ok(holds_int(kind))
        }
        Made::Objects(_, length) => {
            let kind = type_expr(setting, locals, length)?;
            Ok(holds_int(kind))
        }
    }
}

fn stands_in_length(name: &Text, made: &Made) -> bool
    ensures { result ≡ occurs_in_length name.now (creation_of made.now) }
{
    match made {
        Made::Object(_) => false,
        Made::Ints(length) => occurs_in(name, length),
        Made::Objects(_, length) => occurs_in(name, length),
    }
}

fn takes(table: &ClassTable, made: &Made, place: Kind) -> bool
    ensures { result ≡ takes_made table.now (creation_of made.now) place }
{
    match made {
        Made::Object(class) => match (table.class_of(&class.text), place) {
            (Some(class), Kind::Class(own)) => own == class || table.inherits(class, own),
            _ => false,
        },
        Made::Ints(_) => match place {
            Kind::IntArray => true,
            _ => false,
        },
        Made::Objects(class, _) => match (table.class_of(&class.text), place) {
            (Some(class), Kind::ClassArray(own)) => class == own,
            _ => false,
        },
    }
}

fn make_rules(
    setting: &Typing,
    locals: &Locals,
    at: u32,
    made: &Made,
    place: &Place,
) -> Result<(), TypeError>
    ensures { verdict_of result ≡ of_make (typing_of setting.now) (locals_of locals.now) at
        (creation_of made.now) (lvalue_of place.now) }
{
    know_made(setting.table, made)?;
    let place_kind = type_place(setting, locals, place)?;
    let int = has_int_length(setting, locals, made)?;
    if !(int && takes(setting.table, made, place_kind)) {
        return Err(TypeError::TypeDiffers { at });
    }
    let name = &name_of_place(place).text;
    if occurs_inside(name, place) || stands_in_length(name, made) {
        return Err(TypeError::SelfUpdate { at });
    }
    Ok(())
}

fn construct_rules(
    setting: &Typing,
    locals: &Locals,
    class: &Ident,
    name: &Ident,
    end: &Ident,
) -> Result<(), TypeError>
    ensures { verdict_of result ≡ of_construct (typing_of setting.now) (locals_of locals.now)
        class.now name.now end.now }
{
    know_class(setting.table, class)?;
    if kind_of_local(locals, &name.text).is_some() {
        return Err(TypeError::Redeclared { at: name.at });
    }
    if name.text != end.text {
        return Err(TypeError::TypeDiffers { at: end.at });
    }
    Ok(())
}

fn kind_written(table: &ClassTable, at: u32, written: &VarType) -> Result<Kind, TypeError>
    ensures { verdict_of result ≡ written_kind table.now at written.now }
{
    match written {
        VarType::Int => Err(TypeError::NotClassType { at }),
        _ => Ok(kind_of_type(table, written)),
    }
}

fn are_same_plain(a: &Place, b: &Place) -> bool
    ensures { result ≡ same_plain (lvalue_of a.now) (lvalue_of b.now) }
{
    match (&a.index, &b.index) {
        (None, None) => a.name.text == b.name.text,
        _ => false,
    }
}

fn is_of_class(class: u32, kind: Kind) -> bool
    ensures { result ≡ is_class class kind }
{
    match kind {
        Kind::Class(own) => class == own,
        _ => false,
    }
}

fn takes_class(table: &ClassTable, class: u32, kind: Kind) -> bool
    ensures { result ≡ takes_object table.now class kind }
{
    match kind {
        Kind::Class(own) => own == class || table.inherits(class, own),
        _ => false,
    }
}

fn is_int_array(kind: Kind) -> bool
    ensures { result ≡ of_ints kind }
{
    match kind {
        Kind::IntArray => true,
        _ => false,
    }
}

fn is_array_of_class(class: u32, kind: Kind) -> bool
    ensures { result ≡ is_class_array class kind }
{
    match kind {
        Kind::ClassArray(own) => class == own,
        _ => false,
    }
}

fn takes_copies(table: &ClassTable, written: Kind, source: Kind, target: Kind) -> bool
    ensures { result ≡ takes_copy table.now written source target }
{
    match written {
        Kind::Int => false,
        Kind::Nil => false,
        Kind::Class(class) => is_of_class(class, source) && takes_class(table, class, target),
        Kind::IntArray => is_int_array(source) && is_int_array(target),
        Kind::ClassArray(class) => {
            is_array_of_class(class, source) && is_array_of_class(class, target)
        }
    }
}

fn copy_rules(
    setting: &Typing,
    locals: &Locals,
    at: u32,
    written: &VarType,
    source: &Place,
    target: &Place,
) -> Result<(), TypeError>
    ensures { verdict_of result ≡ of_copy (typing_of setting.now) (locals_of locals.now) at
        written.now (lvalue_of source.now) (lvalue_of target.now) }
{
    know_type(setting.table, written)?;
    let source_kind = type_place(setting, locals, source)?;
    let target_kind = type_place(setting, locals, target)?;
    let kind = kind_written(setting.table, at, written)?;
    if !takes_copies(setting.table, kind, source_kind, target_kind) {
        return Err(TypeError::TypeDiffers { at });
    }
    if are_same_plain(source, target) {
        return Err(TypeError::SameArgument { at });
    }
    let name = &name_of_place(target).text;
    if occurs_inside(name, source) || occurs_inside(name, target) {
        return Err(TypeError::SelfUpdate { at });
    }
    Ok(())
}

/// Checks each statement of a block by its typing rules.
#[cycle(check)]
pub fn check_block(setting: &Typing, locals: &Locals, b: &Block) -> Result<(), TypeError>
    ensures { verdict_of result ≡ check_statements (typing_of setting.now) (locals_of locals.now)
        (block_of b.now) }
{
    for stmt in &b.list {
        check_stmt(setting, locals, stmt)?;
    }
    Ok(())
}

/// The rules of a statement, and then of the statements inside it.
#[cycle(check)]
pub fn check_stmt(setting: &Typing, locals: &Locals, s: &Stmt) -> Result<(), TypeError>
    ensures { verdict_of result ≡ check_statement (typing_of setting.now) (locals_of locals.now)
        (statement_of s.now) }
{
    match s {
        Stmt::Update {
            at,
            place,
            value,
            ..
        } => update_rules(setting, locals, *at, place, value),
        Stmt::Swap { at, left, right } => swap_rules(setting, locals, *at, left, right),
        Stmt::If {
            test,
            yes,
            no,
            after,
            ..
        } => {
            test_rules(setting, locals, test, after)?;
            check_block(setting, locals, yes)?;
            check_block(setting, locals, no)
        }
        Stmt::From {
            entry,
            first,
            again,
            until,
            ..
        } => {
            test_rules(setting, locals, entry, until)?;
            check_block(setting, locals, first)?;
            check_block(setting, locals, again)
        }
        Stmt::Local {
            at,
            var,
            value,
            body,
            end_var,
            end_value,
        } => {
            local_rules(setting, locals, *at, var, value, end_var, end_value)?;
            let inner = Locals::Local {
                name: &var.name.text,
                kind: kind_of_type(setting.table, &var.kind),
                outer: &*locals,
            };
            check_block(&*setting, &inner, body)
        }
        Stmt::New { at, made, place } => make_rules(setting, locals, *at, made, place),
        Stmt::Delete { at, made, place } => make_rules(setting, locals, *at, made, place),
        Stmt::Call {
            at,
            receiver,
            method,
            args,
            ..
        } => call_rules(setting, locals, *at, receiver, method, args),
        Stmt::Construct {
            class,
            name,
            body,
            end,
            ..
        } => {
            construct_rules(setting, locals, class, name, end)?;
            let inner = Locals::Local {
                name: &name.text,
                kind: kind_of_class(setting.table, class),
                outer: &*locals,
            };
            check_block(&*setting, &inner, body)
        }
        Stmt::Copy {
            at,
            kind,
            source,
            target,
        } => copy_rules(setting, locals, *at, kind, source, target),
        Stmt::Uncopy {
            at,
            kind,
            source,
            target,
        } => copy_rules(setting, locals, *at, kind, source, target),
        Stmt::Skip { .. } => Ok(()),
    }
}
