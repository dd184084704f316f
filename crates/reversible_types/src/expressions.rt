// The types of expressions and places.
ghost use Rattle.std.specs.Prelude.{◌≡◌, Bool};
ghost use Rattle.class_table.specs.rpp_tree.Views.{expression_of, lvalue_of};
ghost use Rattle.reversible_types.specs.Verdicts.{verdict_of};
ghost use Rattle.reversible_types.specs.ScopeView.{typing_of, locals_of};
ghost use Rattle.class_table.specs.class_rules.Expressions.{is_int, element_kind, are_related, compares, is_comparison, is_refused, operands_fit, first_token as token_of, variable_type, element_kind_of, operator_type, type_of, place_type, occurs, occurs_in_index};

use crate::error::TypeError;
use crate::scope::{Locals, Typing, kind_of_name};
use class_table::tree::{BinOp, Ident, Place};
use class_table::{ClassTable, Expr, Kind, Text};

/// Whether a type is int.
pub fn holds_int(kind: Kind) -> bool
    ensures { result ≡ is_int kind }
{
    match kind {
        Kind::Int => true,
        _ => false,
    }
}

fn element(name: &Ident, array: Kind) -> Result<Kind, TypeError>
    ensures { verdict_of result ≡ element_kind_of name.now array }
{
    match array {
        Kind::IntArray => Ok(Kind::Int),
        Kind::ClassArray(class) => Ok(Kind::Class(class)),
        _ => Err(TypeError::NotAnArray { at: name.at }),
    }
}

fn related(table: &ClassTable, a: u32, b: u32) -> bool
    ensures { result ≡ are_related table.now a b }
{
    a == b || table.inherits(a, b) || table.inherits(b, a)
}

fn comparable(table: &ClassTable, left: Kind, right: Kind) -> bool
    ensures { result ≡ compares table.now left right }
{
    match (left, right) {
        (Kind::Int, Kind::Int) => true,
        (Kind::Int, _) => false,
        (_, Kind::Int) => false,
        (Kind::Nil, _) => true,
        (_, Kind::Nil) => true,
        (Kind::Class(a), Kind::Class(b)) => related(table, a, b),
        (Kind::IntArray, Kind::IntArray) => true,
        (Kind::ClassArray(a), Kind::ClassArray(b)) => a == b,
        _ => false,
    }
}

fn operator(
    table: &ClassTable,
    at: u32,
    op: BinOp,
    left: Kind,
    right: Kind,
) -> Result<Kind, TypeError>
    ensures { verdict_of result ≡ operator_type table.now at op left right }
{
    let fits = match op {
        BinOp::Mul | BinOp::Div | BinOp::Rem => return Err(TypeError::RefusedOperator { at }),
        BinOp::Equal | BinOp::NotEqual => comparable(table, left, right),
        _ => holds_int(left) && holds_int(right),
    };
    if fits {
        Ok(Kind::Int)
    } else {
        Err(TypeError::TypeDiffers { at })
    }
}

/// The first token that is no parenthesis.
pub fn first_token(e: &Expr) -> u32
    ensures { result ≡ token_of (expression_of e.now) }
{
    match e {
        Expr::Number { at, .. } => *at,
        Expr::Nil { at } => *at,
        Expr::Read(place) => place.name.at,
        Expr::Binary { left, .. } => first_token(left),
    }
}

fn variable(setting: &Typing, locals: &Locals, name: &Ident) -> Result<Kind, TypeError>
    ensures { verdict_of result ≡ variable_type (typing_of setting.now) (locals_of locals.now) name.now }
{
    match kind_of_name(setting, locals, &name.text) {
        Some(kind) => Ok(kind),
        None => Err(TypeError::UnknownName { at: name.at }),
    }
}

/// The type of an expression, or its first refusal.
#[cycle(types)]
pub fn type_expr(setting: &Typing, locals: &Locals, e: &Expr) -> Result<Kind, TypeError>
    ensures { verdict_of result ≡ type_of (typing_of setting.now) (locals_of locals.now)
        (expression_of e.now) }
{
    match e {
        Expr::Number { .. } => Ok(Kind::Int),
        Expr::Nil { .. } => Ok(Kind::Nil),
        Expr::Read(place) => type_place(setting, locals, place),
        Expr::Binary {
            at,
            op,
            left,
            right,
        } => {
            let left = type_expr(setting, locals, left)?;
            let right = type_expr(setting, locals, right)?;
            operator(setting.table, *at, *op, left, right)
        }
    }
}

/// The type of a place, or its first refusal.
#[cycle(types)]
pub fn type_place(setting: &Typing, locals: &Locals, place: &Place) -> Result<Kind, TypeError>
    ensures { verdict_of result ≡ place_type (typing_of setting.now) (locals_of locals.now)
        (lvalue_of place.now) }
{
    let kind = variable(setting, locals, &place.name)?;
    match &place.index {
        None => Ok(kind),
        Some(index) => {
            let kind = element(&place.name, kind)?;
            let index_kind = type_expr(setting, locals, index)?;
            if holds_int(index_kind) {
                Ok(kind)
            } else {
                Err(TypeError::TypeDiffers {
                    at: first_token(index),
                })
            }
        }
    }
}

/// Whether a variable occurs in an expression.
#[cycle(occurs)]
pub fn occurs_in(name: &Text, e: &Expr) -> bool
    ensures { result ≡ occurs name.now (expression_of e.now) }
{
    match e {
        Expr::Number { .. } => false,
        Expr::Nil { .. } => false,
        Expr::Read(place) => place.name.text == *name || occurs_inside(name, place),
        Expr::Binary { left, right, .. } => occurs_in(name, left) || occurs_in(name, right),
    }
}

/// Whether a variable occurs in the index of a place.
#[cycle(occurs)]
pub fn occurs_inside(name: &Text, place: &Place) -> bool
    ensures { result ≡ occurs_in_index name.now (lvalue_of place.now) }
{
    match &place.index {
        None => false,
        Some(index) => occurs_in(name, index),
    }
}
