// Statements and blocks.
ghost use Rattle.std.specs.Prelude.{◌≡◌, ◌++◌, OnOk};
ghost use Rattle.roopl_parser.specs.rpp_tree.Views.{expression_of, lvalue_of, creation_of, optional_lvalue_of, statement_of, block_of};
ghost use Rattle.roopl_printer.specs.Printed.{with_gap, with_gaps};
ghost use Rattle.roopl_printer.specs.Spelled.{call_word, first_word, spelled_binding, spelled_block, spelled_creation, spelled_place, spelled_statement, spelled_target, spelled_type};

use crate::list::put_names;
use crate::token::{put, put_name, update_sign};
use crate::value::{
    put_expr, put_first_place, put_made, put_place, put_receiver, put_type, put_var,
};
use roopl_parser::tree::{Block, Ident, Made, Place, Var, VarType};
use roopl_parser::{Expr, NoMemory, Stmt};

/// Adds the statements of a block.
#[cycle(put_code)]
pub(crate) fn put_block(out: &mut Vec<u8>, block: &Block) -> Result<(), NoMemory>
    ensures { OnOk result (out.new.items ≡ out.old.items
        ++ with_gaps (spelled_block (block_of block.now))) }
{
    for stmt in &block.list {
        put_stmt(out, stmt)?;
    }
    Ok(())
}

/// Adds a statement.
#[cycle(put_code)]
fn put_stmt(out: &mut Vec<u8>, s: &Stmt) -> Result<(), NoMemory>
    ensures { OnOk result (out.new.items ≡ out.old.items
        ++ with_gaps (spelled_statement (statement_of s.now))) }
{
    match s {
        Stmt::If {
            test,
            yes,
            no,
            after,
            ..
        } => {
            put(out, b"\nif")?;
            put_expr(out, test)?;
            put(out, b" then")?;
            put_block(out, yes)?;
            put(out, b" else")?;
            put_block(out, no)?;
            put(out, b" fi")?;
            put_expr(out, after)
        }
        Stmt::From {
            entry,
            first,
            again,
            until,
            ..
        } => {
            put(out, b"\nfrom")?;
            put_expr(out, entry)?;
            put(out, b" do")?;
            put_block(out, first)?;
            put(out, b" loop")?;
            put_block(out, again)?;
            put(out, b" until")?;
            put_expr(out, until)
        }
        Stmt::Construct {
            class,
            name,
            body,
            end,
            ..
        } => {
            put(out, b"\nconstruct")?;
            put_name(out, class)?;
            put_name(out, name)?;
            put_block(out, body)?;
            put(out, b" destruct")?;
            put_name(out, end)
        }
        Stmt::Local {
            var,
            value,
            body,
            end_var,
            end_value,
            ..
        } => {
            put(out, b"\nlocal")?;
            put_binding(out, var, value)?;
            put_block(out, body)?;
            put(out, b" delocal")?;
            put_binding(out, end_var, end_value)
        }
        Stmt::Update {
            op,
            place,
            value,
            ..
        } => {
            put_first_place(out, place)?;
            put(out, update_sign(*op))?;
            put_expr(out, value)
        }
        Stmt::Swap { left, right, .. } => {
            put_first_place(out, left)?;
            put(out, b" <=>")?;
            put_place(out, right)
        }
        Stmt::New { made, place, .. } => {
            put(out, b"\nnew")?;
            put_made_at(out, made, place)
        }
        Stmt::Delete { made, place, .. } => {
            put(out, b"\ndelete")?;
            put_made_at(out, made, place)
        }
        Stmt::Copy {
            kind,
            source,
            target,
            ..
        } => {
            put(out, b"\ncopy")?;
            put_copied(out, kind, source, target)
        }
        Stmt::Uncopy {
            kind,
            source,
            target,
            ..
        } => {
            put(out, b"\nuncopy")?;
            put_copied(out, kind, source, target)
        }
        Stmt::Call {
            back,
            receiver,
            method,
            args,
            ..
        } => {
            put(out, call_word(*back))?;
            put_target(out, receiver, method, args)
        }
        Stmt::Skip { .. } => put(out, b"\nskip"),
    }
}

/// Adds a variable with its type, and the value that it is said to have.
fn put_binding(out: &mut Vec<u8>, var: &Var, value: &Expr) -> Result<(), NoMemory>
    ensures { OnOk result (out.new.items ≡ out.old.items
        ++ with_gaps (spelled_binding var.now (expression_of value.now))) }
{
    put_var(out, var)?;
    put(out, b" =")?;
    put_expr(out, value)
}

/// Adds what is made or deleted, and the place of its reference.
fn put_made_at(out: &mut Vec<u8>, made: &Made, place: &Place) -> Result<(), NoMemory>
    ensures { OnOk result (out.new.items ≡ out.old.items
        ++ with_gaps (spelled_creation (creation_of made.now)
        ++ spelled_place (lvalue_of place.now))) }
{
    put_made(out, made)?;
    put_place(out, place)
}

/// Adds the type and the two places of a copy.
fn put_copied(
    out: &mut Vec<u8>,
    kind: &VarType,
    source: &Place,
    target: &Place,
) -> Result<(), NoMemory>
    ensures { OnOk result (out.new.items ≡ out.old.items
        ++ with_gaps (spelled_type kind.now ++ spelled_place (lvalue_of source.now)
        ++ spelled_place (lvalue_of target.now))) }
{
    put_type(out, kind)?;
    put_place(out, source)?;
    put_place(out, target)
}

/// The first word of a call, with its line feed.
fn call_word(back: bool) -> &'static [u8]
    ensures { result.now ≡ with_gap (first_word (call_word back)) }
{
    if back { b"\nuncall" } else { b"\ncall" }
}

/// Adds what a call calls, with the arguments.
fn put_target(
    out: &mut Vec<u8>,
    receiver: &Option<Place>,
    method: &Ident,
    args: &[Ident],
) -> Result<(), NoMemory>
    ensures { OnOk result (out.new.items ≡ out.old.items
        ++ with_gaps (spelled_target (optional_lvalue_of receiver.now) method.now args.now)) }
{
    put_receiver(out, receiver)?;
    put_name(out, method)?;
    put(out, b" (")?;
    put_names(out, args)?;
    put(out, b" )")
}
