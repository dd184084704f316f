// Equality up to offsets, of statements, blocks and programs.
ghost use Rattle.std.specs.Prelude.{◌≡◌, ◌↔◌, IsTrue, map, length};
ghost use Rattle.rpp_tree.specs.Views.{creation_of, optional_lvalue_of, statement_of, block_of, procedure_of, class_text_of, source_of};
ghost use Rattle.rpp_tree.specs.Bare.{bare_name, bare_var, bare_parent, bare_creation, bare_receiver, bare_statement, bare, bare_procedure, bare_class, bare_source};

use crate::alike_values::{alike_exprs, alike_names, alike_places, alike_types, alike_vars};
use rpp_tree::tree::{Block, Class, Ident, Made, Method, Place, Program, Stmt, Var};

/// Whether two programs are equal up to the offsets of their parts.
pub fn alike(a: &Program, b: &Program) -> bool
    ensures { IsTrue result ↔ (bare_source (source_of a.now) ≡ bare_source (source_of b.now)) }
{
    if a.classes.len() != b.classes.len() {
        return false;
    }
    for (i, class) in a.classes.iter().enumerate() {
        if !alike_classes(class, &b.classes[i]) {
            return false;
        }
    }
    true
}

/// The same of what is made or deleted.
fn alike_made(a: &Made, b: &Made) -> bool
    ensures { IsTrue result ↔ (bare_creation (creation_of a.now) ≡ bare_creation (creation_of b.now)) }
{
    match (a, b) {
        (Made::Object(x), Made::Object(y)) => alike_names(x, y),
        (Made::Ints(x), Made::Ints(y)) => alike_exprs(x, y),
        (Made::Objects(x, m), Made::Objects(y, n)) => alike_names(x, y) && alike_exprs(m, n),
        _ => false,
    }
}

/// The same of receivers.
fn alike_receivers(a: &Option<Place>, b: &Option<Place>) -> bool
    ensures { IsTrue result ↔ (bare_receiver (optional_lvalue_of a.now)
        ≡ bare_receiver (optional_lvalue_of b.now)) }
{
    match (a, b) {
        (None, None) => true,
        (Some(x), Some(y)) => alike_places(x, y),
        _ => false,
    }
}

/// The same of parents.
fn alike_parents(a: &Option<Ident>, b: &Option<Ident>) -> bool
    ensures { IsTrue result ↔ (bare_parent a.now ≡ bare_parent b.now) }
{
    match (a, b) {
        (None, None) => true,
        (Some(x), Some(y)) => alike_names(x, y),
        _ => false,
    }
}

/// The same of lists of names.
fn alike_name_lists(a: &[Ident], b: &[Ident]) -> bool
    ensures { IsTrue result ↔ (map bare_name a.now ≡ map bare_name b.now) }
{
    if a.len() != b.len() {
        return false;
    }
    for (i, x) in a.iter().enumerate() {
        if !alike_names(x, &b[i]) {
            return false;
        }
    }
    true
}

/// The same of lists of variables.
fn alike_var_lists(a: &[Var], b: &[Var]) -> bool
    ensures { IsTrue result ↔ (map bare_var a.now ≡ map bare_var b.now) }
{
    if a.len() != b.len() {
        return false;
    }
    for (i, x) in a.iter().enumerate() {
        if !alike_vars(x, &b[i]) {
            return false;
        }
    }
    true
}

/// The same of blocks.
#[cycle(alike_code)]
fn alike_blocks(a: &Block, b: &Block) -> bool
    ensures { IsTrue result ↔ (bare (block_of a.now) ≡ bare (block_of b.now)) }
{
    if a.list.len() != b.list.len() {
        return false;
    }
    for (i, x) in a.list.iter().enumerate() {
        if !alike_stmts(x, &b.list[i]) {
            return false;
        }
    }
    true
}

/// The same of statements.
#[cycle(alike_code)]
fn alike_stmts(a: &Stmt, b: &Stmt) -> bool
    ensures { IsTrue result ↔ (bare_statement (statement_of a.now)
        ≡ bare_statement (statement_of b.now)) }
{
    match (a, b) {
        (
            Stmt::Update {
                op,
                place,
                value,
                ..
            },
            Stmt::Update {
                op: op2,
                place: place2,
                value: value2,
                ..
            },
        ) => op == op2 && alike_places(place, place2) && alike_exprs(value, value2),
        (
            Stmt::Swap { left, right, .. },
            Stmt::Swap {
                left: left2,
                right: right2,
                ..
            },
        ) => { alike_places(left, left2) && alike_places(right, right2) }
        (
            Stmt::If {
                test,
                yes,
                no,
                after,
                ..
            },
            Stmt::If {
                test: test2,
                yes: yes2,
                no: no2,
                after: after2,
                ..
            },
        ) => {
            alike_exprs(test, test2)
                && alike_blocks(yes, yes2)
                && alike_blocks(no, no2)
                && alike_exprs(after, after2)
        }
        (
            Stmt::From {
                entry,
                first,
                again,
                until,
                ..
            },
            Stmt::From {
                entry: entry2,
                first: first2,
                again: again2,
                until: until2,
                ..
            },
        ) => {
            alike_exprs(entry, entry2)
                && alike_blocks(first, first2)
                && alike_blocks(again, again2)
                && alike_exprs(until, until2)
        }
        (
            Stmt::Construct {
                class,
                name,
                body,
                end,
                ..
            },
            Stmt::Construct {
                class: class2,
                name: name2,
                body: body2,
                end: end2,
                ..
            },
        ) => {
            alike_names(class, class2)
                && alike_names(name, name2)
                && alike_blocks(body, body2)
                && alike_names(end, end2)
        }
        (
            Stmt::Local {
                var,
                value,
                body,
                end_var,
                end_value,
                ..
            },
            Stmt::Local {
                var: var2,
                value: value2,
                body: body2,
                end_var: end_var2,
                end_value: end_value2,
                ..
            },
        ) => {
            alike_vars(var, var2)
                && alike_exprs(value, value2)
                && alike_blocks(body, body2)
                && alike_vars(end_var, end_var2)
                && alike_exprs(end_value, end_value2)
        }
        (
            Stmt::New { made, place, .. },
            Stmt::New {
                made: made2,
                place: place2,
                ..
            },
        ) => { alike_made(made, made2) && alike_places(place, place2) }
        (
            Stmt::Delete { made, place, .. },
            Stmt::Delete {
                made: made2,
                place: place2,
                ..
            },
        ) => { alike_made(made, made2) && alike_places(place, place2) }
        (
            Stmt::Copy {
                kind,
                source,
                target,
                ..
            },
            Stmt::Copy {
                kind: kind2,
                source: source2,
                target: target2,
                ..
            },
        ) => alike_types(kind, kind2)
            && alike_places(source, source2)
            && alike_places(target, target2),
        (
            Stmt::Uncopy {
                kind,
                source,
                target,
                ..
            },
            Stmt::Uncopy {
                kind: kind2,
                source: source2,
                target: target2,
                ..
            },
        ) => alike_types(kind, kind2)
            && alike_places(source, source2)
            && alike_places(target, target2),
        (
            Stmt::Call {
                back,
                receiver,
                method,
                args,
                ..
            },
            Stmt::Call {
                back: back2,
                receiver: receiver2,
                method: method2,
                args: args2,
                ..
            },
        ) => {
            back == back2
                && alike_receivers(receiver, receiver2)
                && alike_names(method, method2)
                && alike_name_lists(args, args2)
        }
        (Stmt::Skip { .. }, Stmt::Skip { .. }) => true,
        _ => false,
    }
}

/// The same of methods.
fn alike_methods(a: &Method, b: &Method) -> bool
    ensures { IsTrue result ↔ (bare_procedure (procedure_of a.now)
        ≡ bare_procedure (procedure_of b.now)) }
{
    alike_names(&a.name, &b.name)
        && alike_var_lists(&a.params, &b.params)
        && alike_blocks(&a.body, &b.body)
}

/// The same of classes.
fn alike_classes(a: &Class, b: &Class) -> bool
    ensures { IsTrue result ↔ (bare_class (class_text_of a.now) ≡ bare_class (class_text_of b.now)) }
{
    alike_names(&a.name, &b.name)
        && alike_parents(&a.parent, &b.parent)
        && alike_var_lists(&a.fields, &b.fields)
        && alike_method_lists(&a.methods, &b.methods)
}

/// The same of lists of methods.
fn alike_method_lists(a: &[Method], b: &[Method]) -> bool
    ensures { IsTrue result ↔ (map bare_procedure (map procedure_of a.now)
        ≡ map bare_procedure (map procedure_of b.now)) }
{
    if a.len() != b.len() {
        return false;
    }
    for (i, x) in a.iter().enumerate() {
        if !alike_methods(x, &b[i]) {
            return false;
        }
    }
    true
}
