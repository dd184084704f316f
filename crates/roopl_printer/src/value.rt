// Expressions, places, types and variables.
ghost use Rattle.std.specs.Prelude.{◌≡◌, ◌++◌, OnOk};
ghost use Rattle.roopl_parser.specs.rpp_tree.Views.{expression_of, lvalue_of, creation_of, optional_lvalue_of};
ghost use Rattle.roopl_printer.specs.Printed.{with_gaps};
ghost use Rattle.roopl_printer.specs.Spelled.{opening, closing, spelled_expression, spelled_place, spelled_index, first_place, spelled_creation, spelled_receiver, spelled_type, spelled_var};

use crate::token::{operator, put, put_first_name, put_name, put_number};
use roopl_parser::tree::{Made, Place, Var, VarType};
use roopl_parser::{Expr, NoMemory};

/// Adds an expression.
#[cycle(put_values)]
pub(crate) fn put_expr(out: &mut Vec<u8>, e: &Expr) -> Result<(), NoMemory>
    ensures { OnOk result (out.new.items ≡ out.old.items
        ++ with_gaps (spelled_expression (expression_of e.now))) }
{
    match e {
        Expr::Number { word, .. } => put_number(out, *word),
        Expr::Nil { .. } => put(out, b" nil"),
        Expr::Read(place) => put_place(out, place),
        Expr::Binary {
            op,
            left,
            right,
            ..
        } => {
            put_opening(out, left)?;
            put_expr(out, left)?;
            put_closing(out, left)?;
            put(out, operator(*op))?;
            put_opening(out, right)?;
            put_expr(out, right)?;
            put_closing(out, right)
        }
    }
}

/// Adds a place after other tokens on its line.
#[cycle(put_values)]
pub(crate) fn put_place(out: &mut Vec<u8>, place: &Place) -> Result<(), NoMemory>
    ensures { OnOk result (out.new.items ≡ out.old.items
        ++ with_gaps (spelled_place (lvalue_of place.now))) }
{
    put_name(out, &place.name)?;
    match &place.index {
        None => Ok(()),
        Some(index) => {
            put(out, b" [")?;
            put_expr(out, index)?;
            put(out, b" ]")
        }
    }
}

/// Adds a place that begins a line.
pub(crate) fn put_first_place(out: &mut Vec<u8>, place: &Place) -> Result<(), NoMemory>
    ensures { OnOk result (out.new.items ≡ out.old.items
        ++ with_gaps (first_place (lvalue_of place.now))) }
{
    put_first_name(out, &place.name)?;
    match &place.index {
        None => Ok(()),
        Some(index) => {
            put(out, b" [")?;
            put_expr(out, index)?;
            put(out, b" ]")
        }
    }
}

/// Adds the parenthesis before an operand, if it has one.
fn put_opening(out: &mut Vec<u8>, e: &Expr) -> Result<(), NoMemory>
    ensures { OnOk result (out.new.items ≡ out.old.items ++ with_gaps (opening (expression_of e.now))) }
{
    match e {
        Expr::Binary { .. } => put(out, b" ("),
        _ => Ok(()),
    }
}

/// Adds the parenthesis after an operand, if it has one.
fn put_closing(out: &mut Vec<u8>, e: &Expr) -> Result<(), NoMemory>
    ensures { OnOk result (out.new.items ≡ out.old.items ++ with_gaps (closing (expression_of e.now))) }
{
    match e {
        Expr::Binary { .. } => put(out, b" )"),
        _ => Ok(()),
    }
}

/// Adds what is made or deleted.
pub(crate) fn put_made(out: &mut Vec<u8>, made: &Made) -> Result<(), NoMemory>
    ensures { OnOk result (out.new.items ≡ out.old.items
        ++ with_gaps (spelled_creation (creation_of made.now))) }
{
    match made {
        Made::Object(class) => put_name(out, class),
        Made::Ints(length) => {
            put(out, b" int [")?;
            put_expr(out, length)?;
            put(out, b" ]")
        }
        Made::Objects(class, length) => {
            put_name(out, class)?;
            put(out, b" [")?;
            put_expr(out, length)?;
            put(out, b" ]")
        }
    }
}

/// Adds the receiver of a call, if it has one.
pub(crate) fn put_receiver(out: &mut Vec<u8>, receiver: &Option<Place>) -> Result<(), NoMemory>
    ensures { OnOk result (out.new.items ≡ out.old.items
        ++ with_gaps (spelled_receiver (optional_lvalue_of receiver.now))) }
{
    match receiver {
        None => Ok(()),
        Some(place) => {
            put_place(out, place)?;
            put(out, b" ::")
        }
    }
}

/// Adds a type.
pub(crate) fn put_type(out: &mut Vec<u8>, kind: &VarType) -> Result<(), NoMemory>
    ensures { OnOk result (out.new.items ≡ out.old.items ++ with_gaps (spelled_type kind.now)) }
{
    match kind {
        VarType::Int => put(out, b" int"),
        VarType::Class(class) => put_name(out, class),
        VarType::IntArray => put(out, b" int [ ]"),
        VarType::ClassArray(class) => {
            put_name(out, class)?;
            put(out, b" [ ]")
        }
    }
}

/// Adds a type and a name.
pub(crate) fn put_var(out: &mut Vec<u8>, var: &Var) -> Result<(), NoMemory>
    ensures { OnOk result (out.new.items ≡ out.old.items ++ with_gaps (spelled_var var.now)) }
{
    put_type(out, &var.kind)?;
    put_name(out, &var.name)
}
